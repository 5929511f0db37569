// Logarithms to the base 3 in the field of p = 65537 elements: their table, and powers of 3.
#![tactic(auto)]

pub mod powers_65537;
pub mod table_65537;
