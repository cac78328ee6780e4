//! The listing of a text: its instructions slot by slot, and what the verifier knows at each of them, in words. What is known, and which
//! rows there are, `knowledge` says.
#![tactic(auto)]

mod differences;
mod edges;
mod item;
mod lines;
mod listed;
mod location;
mod paint;
mod seen;
mod shown;
mod text;
mod words;

pub use differences::write_differing;
pub use item::Item;
pub use knowledge::{Knowledge, Row};
pub use lines::fold;
pub use location::{Differing, Fact, Location, STACK_SLOTS};
pub use paint::Paint;
pub use shown::{Beside, Detail, Listing, Sources};
pub use text::Text;
