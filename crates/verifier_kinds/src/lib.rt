//! What the verifier knows of a register or of a slot of the stack: kinds, their order, what
//! arithmetic makes of them, and what a conditional jump says of them (this project's own profile;
//! docs/VERIFIER.md has its tables).
#![tactic(auto)]

mod arithmetic;
mod branches;
mod description;
mod kind;
mod laws;
mod rows;

pub use arithmetic::arith;
pub use branches::{refine, refined};
pub use description::{Description, StackSlot};
pub use kind::{Align, GREATEST_OFFSET, Kind, OFFSET_BIAS, Offsets, Range};
pub use laws::join_is_least;
