// The calls that open, write, strike and read, each proved for every input. Those that change a vault are lent its raw copy, full stripe and log as three
// slices: the C interface lends three.
#![tactic(auto)]

pub mod buffers;
pub mod opening;
pub mod reading;
pub mod striking;
pub mod writing;
