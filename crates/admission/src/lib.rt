//! Which runs may begin: for each open run so many frames are reserved as its stores may take, so that
//! none of them lacks one. A tenant's record says how many, and whether it has an open run; no call takes memory,
//! and no call changes anything but one record, and at the end of a run the tenant's pinned pages.
#![tactic(auto)]

mod need;
mod reserve;

pub use need::{needed, needed_within, whole_need};
pub use reserve::{admit, breaks, record_left, release};
