//! What is reported of pages that share frames: the counters of Linux's KSM manual, and the frames that are
//! free. Nothing here changes a memory or takes memory.
#![tactic(auto)]

mod counter_lines;
mod line;
mod numbers;

pub use counter_lines::{counters, text};
pub use numbers::Counters;
