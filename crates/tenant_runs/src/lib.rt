//! Runs of a tenant's programs on the memory of its maps: what a run asks is done on the memory, with
//! the frames that were reserved for it, and the run goes on with the answer. An event of a host and a
//! turn of a worker are this one code, and no call changes what another tenant has.
#![tactic(auto)]

mod answers;
mod begin;
mod maps;
mod needs;
mod whole_run;

pub use answers::{RunReply, answer, answer_recorded, finish};
pub use begin::{open_run, reopen_run, reopen_unreserved};
pub use maps::{SHARED_LOOP, TenantMaps};
pub use needs::fulfil;
pub use whole_run::{has_shapes, run};
