//! What is shown at an instruction, in words.

use crate::location::{Differing, Fact, Location};
use std::fmt;

/// What is shown at an instruction: what is known before it runs.
#[derive(Clone, Copy)]
pub enum Item {
    /// No path leads there.
    NotReached,
    /// What is known of a register or of eight bytes of the stack.
    Known { location: Location, fact: Fact },
    /// What paths that join there say of one, where it isn't the same.
    Differs(Differing),
    /// How many frames the instruction may take, of how many that the rest may take from there on.
    Frames { cost: u32, reserve: u32 },
}

impl fmt::Display for Item {
    fn fmt<W: fmt::Write>(&self, f: &mut fmt::Formatter<W>) -> fmt::Result {
        match self {
            Item::NotReached => write!(f, "not reached"),
            Item::Known {
                location,
                fact: Fact::Register(None),
            } => write!(f, "{location} unset"),
            Item::Known { location, fact } => write!(f, "{location} = {fact}"),
            Item::Differs(differing) => write!(f, "{differing}"),
            Item::Frames { cost, reserve } => write!(f, "frames {cost} of {reserve}"),
        }
    }
}
