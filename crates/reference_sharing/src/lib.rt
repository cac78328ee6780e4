//! Which pages share frames, as a slow program over plain lists: statuses, groups of indices, breaks and
//! what they take, visits and unmergings. Its contracts are the definitions themselves, so tests compare the memory with it.
#![tactic(auto)]

mod contents;
mod groups;
mod pages;
mod sharing;
mod visit;
mod waiting;

pub use pages::page_content;
pub use sharing::{PlainPage, PlainSharing};
