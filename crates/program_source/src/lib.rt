//! What the programs `explain`, `lower` and `merging` read of their words: the program that a word HEX names, the words of a
//! line, and lines of the standard input where there are no words.
#![tactic(auto)]

mod line;
mod lines;
mod other;
mod source;

pub use line::{words_fault, words_of};
pub use lines::{Answers, run};
pub use source::{Source, hex_of, path_in, source_of, unreadable};
