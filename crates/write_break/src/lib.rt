//! Loads and stores of maps. A store to a page that shares its frame takes the page out first, so
//! that no other page changes: it is written on a frame of its own.
#![tactic(auto)]

mod access;

pub use access::{load, needs, page_of, store, store_bytes, store_bytes_as};
