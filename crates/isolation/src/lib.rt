//! Isolation as one law: what a tenant is answered, and what becomes of its maps, its programs and its run, follows from its
//! own events, whatever happens between them, but for refusals where frames or memory are scarce.
#![tactic(auto)]

mod hosts;
mod laws;

pub use hosts::both;
pub use laws::{scarce_changes_nothing, tenants_are_isolated};
