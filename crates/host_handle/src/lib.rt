//! A host that C holds by a handle, the structs that C reads and fills, and what each call of the library does with them. `bpf_host_c` has the
//! functions that C calls.
#![tactic(auto)]

mod answer;
mod buffer;
mod explain;
mod given;
mod handle;
mod loading;
mod loose;
mod not_read;
mod object;
mod opening;
mod options;
mod owner;
mod read;
mod runs;
mod structs;
mod texts;
mod visits;

pub use answer::Answer;
pub use buffer::put;
pub use explain::explanation;
pub use handle::{BpfHost, handles_cross};
pub use loading::load_object;
pub use not_read::NotRead;
pub use object::{BpfHostObject, BpfHostObjectMap};
pub use options::option_numbered;
pub use owner::Owner;
pub use read::{ReadProgram, program_of};
pub use structs::{BpfHostCounters, BpfHostOptions, BpfHostRefused, BpfHostRun, BpfHostShape};
pub use texts::{NotMade, made, refuse, verified};
