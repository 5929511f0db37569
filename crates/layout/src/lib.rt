// What a header says: whether it is in range, the sizes of the buffers, where stripes stand; the table of refusals; and the loops over words that several
// calls share.
#![tactic(auto)]

pub mod places;
pub mod refusal;
pub mod sizes;
pub mod valid_header;
pub mod words;

pub use refusal::Refusal;
pub use valid_header::ValidHeader;

// The header (docs/FORMAT.md, section 1).
#[derive(Clone, Copy, Debug, Default, PartialEq, Eq)]
pub struct Header {
    pub k: u32,
    pub s: u32,
    pub c: u32,
}
