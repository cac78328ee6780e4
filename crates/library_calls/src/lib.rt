//! What a call of the library does to a host, by the host's events; and that calls are isolated: the replies to a tenant's calls, and
//! what it sees afterwards, depend on its own calls alone, up to the first reply that says that frames or memory are short.
#![tactic(auto)]

mod laws;

pub use laws::{calls_are_isolated, events_are_calls, many_runs_are_calls, many_runs_are_isolated};
