//! The host's calls on a tenant's maps: the tests and the answers of each, on a memory and a tenant. An
//! event of a host and a turn of a worker are this one code. A refusal changes nothing, and no call changes
//! what another tenant has.
#![tactic(auto)]

mod begin;
mod create;
mod load;
mod lookup;
mod shapes;
mod sharing;
mod update;

pub use begin::host_begin;
pub use create::host_create_map;
pub use load::decode_and_verify;
pub use lookup::{host_lookup, host_lookup_into};
pub use shapes::host_shapes;
pub use sharing::{host_set, host_unmerge};
pub use update::host_update;
