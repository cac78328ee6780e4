//! A program for this host from an object file: ELF64, little-endian, relocatable, for BPF, as `clang -target bpf -c` makes them
//! (System V ABI, chapters 4 and 5; the kernel's docs/bpf: llvm_reloc, btf; libbpf for maps and global variables).
#![tactic(auto)]

mod btf;
mod callers;
mod data;
mod definition;
mod field;
mod function;
mod instruction;
mod legacy;
mod lines;
mod map;
mod object;
mod program;
mod relocation;
mod source_line;
mod text;

pub use lines::{SourceLines, TextLines, lines_of};
pub use map::Map;
pub use object_error::{Cause, Location, ObjectError, ShownLine};
pub use program::{Program, program_of};
pub use source_line::SourceLine;
pub use text::{Call, Text};
