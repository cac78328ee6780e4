//! The standard's machine as a slow program (RFC 9669, sections 4 and 5): optional registers, optional
//! bytes of the stack, flat maps, and faults. Its contract is the definition of a step itself, so tests
//! compare the fast interpreter with it.
#![tactic(auto)]

mod array_map;
mod machine;
mod memory;
mod number;

pub use array_map::ArrayMap;
pub use machine::{Ending, Machine, Made};
