// What one stripe's rows and marks come to: the definitions and promises of decoding, and the tests 7 and 10.
#![tactic(auto)]

pub mod counting;
pub mod records;
pub mod stripes;

pub use stripes::{ReadyStripe, VaultStripe};
