//! One text of a function and of those that it calls, which calls no function: `call_copies` puts a copy of the called function's text
//! at each call, and here it is tested what is promised of that.
#![tactic(auto)]

mod whole;

pub use call_copies::{Call, Function, Inlined, NotInlined, Origin, Stop};
pub use whole::inlined;
