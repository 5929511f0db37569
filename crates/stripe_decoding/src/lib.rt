// One stripe: fetched out of an image, decoded range by range of its columns, and laid; and the call that decodes one stripe, proved for every input.
#![tactic(auto)]

pub mod decoding;
pub mod fetching;
pub mod ranges;
