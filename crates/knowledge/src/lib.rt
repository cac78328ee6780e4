//! What the verifier knows at each slot of a text, refused or not, and the rows of a listing: each slot in one of them. What a listing
//! promises is proved here; its words, which promise nothing, are in the crates above.
#![tactic(auto)]

mod knowledge;
mod rows;

pub use knowledge::Knowledge;
pub use rows::{Row, Slot, rows_of};
