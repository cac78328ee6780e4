//! One HTML page that needs no network: text from outside as no browser reads it as HTML, and a frame whose policy lets the
//! page's own script and style run, and nothing else.
#![tactic(auto)]

mod escape;
mod frame;
mod string;

pub use escape::{escaped, write_inert};
pub use frame::{Frame, write_end, write_head};
pub use string::{write_comma, write_shown, write_string};
