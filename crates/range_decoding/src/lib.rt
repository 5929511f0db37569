// Ranges of a stripe's columns, decoded in as much room as there is.
#![tactic(auto)]

pub mod ranges;
