//! Host files: TOML documents that say how large a host is and what happens to it (this project's own
//! format, docs/HOST.md).
#![tactic(auto)]

mod command;
mod event;
mod fault;
mod file;
mod key;
mod section;
mod served;
mod size;

pub use command::{Command, Commands};
pub use fault::{BadFile, Cause, FileFault, Location};
pub use file::{HostFile, read_file};
pub use key::Key;
pub use served::require_served;
pub use size::MAX_BYTES;
