// Decoding of stripes, in place, on slices that the caller lends: the decoder's steps.
#![tactic(auto)]

pub mod decoding;
mod factors_65537;
