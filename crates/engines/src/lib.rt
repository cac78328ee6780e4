//! The engines of the program `bpf_host` (docs/HOST.md): each does what a command line asks for, over any
//! reader and writer.
#![tactic(auto)]

mod arguments;
mod beginning;
pub mod check;
mod explanation;
mod fault;
mod lines;
pub mod replay;
mod session;
mod watch;

pub use arguments::words_from;
pub use beginning::Beginning;
pub use explanation::Known;
pub use fault::{status_of, write_fault, write_line, written};
pub use lines::{write_beginning_reply, write_reply};
pub use replay::{file_from, refuse};
pub use session::{explain_at, explain_beginning_at};
pub use watch::{Unwatched, Watch};
