//! The engine of `serve` (docs/HOST.md): the runs of each tenant of a host file on a thread of its own, and
//! the scanner on another.
#![tactic(auto)]

mod file;
mod report;
mod results;
mod runs;
mod setup;
mod shared_host;

pub use file::serve_file;
