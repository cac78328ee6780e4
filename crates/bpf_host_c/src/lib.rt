//! A host for programs in C: each call is one event of the host, or a whole run of a program, and its contract is that of the
//! event. What C owes at a call stands in include/bpf_host.h.
#![tactic(auto)]

mod calls;
mod explain;
mod life;
mod loading;
mod many;
mod objects;
mod runs;
mod shape;
mod texts;
mod visits;

pub use calls::{
    bpf_host_begin, bpf_host_counters, bpf_host_create_map, bpf_host_drop_map, bpf_host_load,
    bpf_host_lookup, bpf_host_set, bpf_host_unload, bpf_host_unmerge, bpf_host_update,
};
pub use explain::bpf_host_explain;
pub use life::{bpf_host_free, bpf_host_new, bpf_host_version};
pub use loading::bpf_host_load_object;
pub use many::bpf_host_run_many;
pub use objects::bpf_host_read_object;
pub use runs::{bpf_host_run, bpf_host_step};
pub use shape::bpf_host_shape;
pub use texts::{bpf_host_lower, bpf_host_verify};
pub use visits::bpf_host_visit;
