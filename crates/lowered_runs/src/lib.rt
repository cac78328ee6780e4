//! Runs of lowered programs: what a run on shared pages of a text that ends as another one returns, and the maps that it leaves,
//! are those with which RFC 9669's machine ends on that other text, on private memory.
#![tactic(auto)]

mod laws;

pub use laws::lowered_runs_end_alike;
