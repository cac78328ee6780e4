//! The helpers on array maps, on a memory whose pages may share frames: what each answers, and what
//! an update writes. No call takes memory, and none can fail.
#![tactic(auto)]

mod answer;
mod helpers;

pub use helpers::{delete, lookup, update, update_as, update_charge, update_needs};
