//! The verifier's profile (docs/VERIFIER.md) read a second time, as a slow program that tests set beside
//! `verify`. It reads the tables anew: kinds, their order and join, arithmetic, comparisons, access, the stack,
//! jumps, calls and exit. Of `verifier_kinds` it uses the types alone, to give its answer in. It is safe, and
//! nothing more is proved of it: where it agrees with `verify`, two readings agree.
#![tactic(auto)]

mod access;
mod arithmetic;
mod calls;
mod description;
mod flow;
mod given;
mod jumps;
mod kind;
mod memory;
mod passes;
mod range;
mod rules;
mod scalars;
mod table;

pub use passes::{Order, is_lawful, verdict_in};
pub use table::{Table, Verdict};
