// Images: words as bytes and back, erasure lists, the marks of a stripe's positions, and the call `image`.
#![tactic(auto)]

pub mod bytes;
pub mod erasures;
pub mod images;
pub mod loading;
pub mod reading;
pub mod source;

pub use reading::Reading;
