//! The verifier: a program is accepted only with a table that says what is known at each of its
//! slots, and a refusal names the first slot that breaks a rule (this project's own profile;
//! docs/VERIFIER.md).
#![tactic(auto)]

mod access;
mod calls;
mod candidate;
mod flow;
mod jumps;
mod known;
mod laws;
mod named;
mod reserve;
mod rules;
mod successor;
mod table;
mod targets;
mod verified;
mod writes;

pub use candidate::Candidate;
pub use flow::{Onward, Target};
pub use laws::{answer_is_one, refusal_leaves_none, reserve_falls, writes_fall};
pub use verified::{Verified, is_context_size, verify};
