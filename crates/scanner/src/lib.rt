//! The scanner of a memory: it visits pages one after another, and merges those of the same bytes. No
//! call takes memory, and no call changes what a tenant's maps hold.
#![tactic(auto)]

mod options;
mod scan;
mod unmerge;

pub use options::set;
pub use scan::visit;
pub use unmerge::unmerge_all;
