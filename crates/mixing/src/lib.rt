// Mixing of two arrays of rows in place, on slices that the caller lends, and unmixing of them: one level, row by row or word by word.
// That the words are below p, and how many there are, stays in clauses: they stand in buffers of u32, which the C interface lends, and change in place.
#![tactic(auto)]

pub mod direction;
pub mod row_powers;
pub mod rows;
pub mod words;
