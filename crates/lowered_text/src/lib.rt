//! What the programs `lower`, `explain` and `bpf_object` say of a lowered text: the text itself, the loops of its original and
//! their copies, and what stopped a lowering.
#![tactic(auto)]

mod asked;
mod loops;
mod stop;
mod words;

pub use asked::lowered;
pub use loops::{Copies, Loop, loops_of};
pub use stop::{write_refused, write_stop};
pub use words::{LoweredProgram, ProgramWords};
