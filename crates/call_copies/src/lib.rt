//! A copy of a called function's text at each call (the kernel's docs/bpf/standardization/abi.rst: R1 to R5 are arguments, R6 to R9
//! are kept, each call has a stack of its own). What is promised of such a text is tested and proved above, in `inlining`.
#![tactic(auto)]

mod call_copy;
mod caller;
mod copy;
mod expansion;
mod frame;
mod inlined;
mod instruction;
mod liveness;
mod order;
mod stop;

pub use expansion::MOST_SLOTS;
pub use inlined::{Inlined, Origin};
pub use instruction::CALL;
pub use order::{Call, Function, with_copies_at_calls};
pub use stop::{NotInlined, Stop};
