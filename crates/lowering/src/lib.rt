//! Lowering: a text becomes another one with the same runs, in which its blocks stand in another order and its loops
//! in several copies, so that the verifier, which knows forward jumps alone, accepts more. Here is what such a text is,
//! what it keeps, the check of one, and the call that makes one.
#![tactic(auto)]

mod accept;
mod cover;
mod laws;
mod rewrite;

pub use cover::{covers, shortens};
pub use laws::{covering_keeps_runs, shortening_keeps_runs};
pub use loop_copies::Stop;
pub use rewrite::{Lowered, NotLowered, lower};
