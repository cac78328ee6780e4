//! The plain types that every crate of the host stands on: shapes of maps, pages, options and
//! refusals. The definitions that several crates cite stand in `specs/`: little-endian numbers,
//! the layout of addresses, and a tenant's flat memory.
#![tactic(auto)]

mod bytes;
mod event;
mod fault;
mod helper;
pub mod layout;
pub mod limits;
mod options;
pub mod rule;
mod shape;
mod status;
mod visited;

pub use bytes::Bytes;
pub use event::Event;
pub use fault::{Fault, Refused};
pub use helper::MapHelper;
pub use options::{Opt, Options};
pub use shape::{MapNo, Page, Shape};
pub use status::Status;
pub use visited::Visited;
