//! The text of an eBPF program (RFC 9669, sections 3 to 5): its instructions and their fields, and
//! which texts are well formed. `decode` verifies a text by the table in docs/INSTRUCTIONS.md.
#![tactic(auto)]

mod code;
mod decoded;
mod insn;
mod operation;
mod program;
mod slot;
mod text;
mod typed;

pub use code::Code;
pub use insn::{FRAME_POINTER, Insn};
pub use operation::{AluCode, Comparison, Distance, Extension, Operation, Size, Source, Width};
pub use program::{Program, decode};
pub use text::verdict_is_one;
pub use typed::Typed;
