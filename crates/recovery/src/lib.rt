// All stripes of a rack laid one over the other, and the call that recovers all records by it, proved for every input.
#![tactic(auto)]

pub mod fault;
pub mod readings;
pub mod recovering;
pub mod stripes;

pub use fault::Fault;
