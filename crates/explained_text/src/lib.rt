//! What the program `explain` says of a text, without colours or a page: the line of its verdict, its listing, and what a refusal
//! means. The library for C says the same.
#![tactic(auto)]

mod explained;
mod verdict;

pub use explained::{explain_text, write_explained, write_folded};
pub use verdict::VerdictWords;
