//! The interpreter: an accepted program runs without any test of its accesses, and each of its steps
//! is the standard's (RFC 9669, sections 4 and 5).
#![tactic(auto)]

mod at_hand;
mod control;
mod maps;
mod memory;
mod need;
mod on_maps;
mod pair;
mod run;
mod state;
mod step;

pub use maps::MapMemory;
pub use need::Need;
pub use run::Run;
