// The call that explains what recovery finds, proved for every input.
#![tactic(auto)]

pub mod explaining;
