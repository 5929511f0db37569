// What the blocks of a stripe lay over the words that the stripes before it left: the blocks themselves, their data over records, or their origins.
#![tactic(auto)]

pub mod blocks;
pub mod pairs;

// What is laid of a stripe's blocks. No type parameter: the definitions go by its variants, and one function, `lay_range`, has the match.
#[derive(Clone, Copy)]
pub enum Content {
    Blocks,
    Records,
    Origins,
}

// The words of each row that are copied: those from column `first` on, in rows of `stride` words.
#[derive(Clone, Copy)]
pub struct RowPlaces {
    pub first: usize,
    pub stride: usize,
}
