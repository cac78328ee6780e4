//! Isolation with threads: how a tenant's runs are answered by a seat, and what they leave, follows from the tenant's own
//! maps, its programs and contexts, whatever other seats do meanwhile, but for refusals where frames or memory are scarce.
#![tactic(auto)]

mod laws;

pub use laws::{plans_are_isolated, runs_are_determined};
