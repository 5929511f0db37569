// The call that takes back the last write of a round, proved for every input.
#![tactic(auto)]

pub mod finding;
pub mod taking;
