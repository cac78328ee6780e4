//! The listing of a text as one HTML page, which needs no network: its policy lets its own script and style run, and nothing
//! else. What comes from outside stands in it as data that no browser reads as HTML.
#![tactic(auto)]

mod actions;
mod data;
mod model;
mod page;
mod policy;
mod row;
mod style;

pub use page::{Page, write_page};
