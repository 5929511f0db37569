// Two levels of mixing, and of unmixing, in one pass over the rows, in place, on slices that the caller lends.
// That the words are below p, and how many there are, stays in clauses: they stand in buffers of u32, which the C interface lends, and change in place.
#![tactic(auto)]

pub mod direction;
mod four_65537;
pub mod rows;
