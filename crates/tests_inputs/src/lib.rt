//! What several test programs and benches are given: numbers of a fixed generator, texts of programs, flips of a
//! bit, indices of pages, and the number that the one argument is.
#![tactic(auto)]

mod arguments;
mod bits;
mod draws;
mod pages;
pub mod texts;

pub use arguments::rounds_of;
pub use bits::{BITS, flip};
pub use draws::Draws;
pub use pages::Pages;
