// The press record vault: its calls, for callers in Rattle (the crate c_calls has them for C), and what they promise of every history. A crate above names this
// one alone: the types of headers and refusals and the number of an answer are passed on here, the definitions that contracts and promises cite in specs/Lib,
// and the promises are proved in proofs/Proved.
#![tactic(auto)]

pub mod calls;

pub use layout::refusal::number_of;
pub use layout::{Header, Refusal};
pub use recovery::Fault;
pub use two_readings::Place;
