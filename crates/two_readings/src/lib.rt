// Two readings of one rack: whether they agree, which of them each stripe is taken from, and the calls that recover all records from both and give one stripe,
// proved for every input.
#![tactic(auto)]

pub mod agreeing;
pub mod choosing;
pub mod pair;
pub mod recovering;

pub use choosing::Place;
pub use pair::TwoReadings;
