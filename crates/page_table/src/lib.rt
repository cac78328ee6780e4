//! The one store of all tenants' array maps. Contracts see each tenant's maps as flat lists of
//! bytes and which pages share frames; the bytes lie in frames, on which several pages of the same
//! bytes may lie.
#![tactic(auto)]

mod counters;
mod counts;
mod entry;
mod memory;
mod order;
mod page_list;
mod pass;
mod pins;
mod runs;
mod scans;
mod search;
mod sharing;
mod table;
mod tally;
mod tenant;
mod tenant_maps;
mod writes;

pub use entry::Entry;
pub use memory::Memory;
pub use tenant::Tenant;
