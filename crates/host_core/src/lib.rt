//! A host: several tenants, each with its own maps, programs and at most one open run, in a memory whose
//! pages are merged, and the events that happen to them (this project's own rules, docs/HOST.md).
#![tactic(auto)]

mod host;
mod open_run;
mod reply;
mod tenant;
mod tenant_event;
mod whole_run;

pub use host::{Host, each_state_begins, into_reply, lists_join};
pub use host_types::{Bytes, Event};
pub use reply::{Reply, Stopped};
