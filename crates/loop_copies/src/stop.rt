use host_types::Refused;
use std::alloc::{AllocError, AllocFailed};

/// What stops a lowering.
#[derive(Clone, Copy, PartialEq, Eq)]
pub enum Stop {
    /// An instruction breaks a rule in one of its copies, of which 1 is the first; the slot is that of the text.
    Rule {
        refused: Refused,
        copy: u32,
    },
    /// No range ends a loop within 4096 slots: it is entered at the slot `header`, its blocks lie within the slots from
    /// `first` to `last`, and it had so many copies.
    Endless {
        header: u32,
        first: u32,
        last: u32,
        copies: u32,
    },
    /// In an order in which only loops lead back, the text has more than 4096 slots, though no loop is copied.
    TooLong,
    /// Loops are nested so deep that their blocks aren't put in order; one of them begins at the slot.
    Nested {
        slot: u32,
    },
    /// The lowered text doesn't cover the text.
    Uncovered,
    /// Memory ran out.
    OutOfMemory,
}

impl From<Refused> for Stop {
    ghost from_gives = { λ refused stop. Unit {0} };

    fn from(refused: Refused) -> Self {
        if refused == Refused::OUT_OF_MEMORY {
            Stop::OutOfMemory
        } else {
            Stop::Rule { refused, copy: 1 }
        }
    }
}

impl From<AllocError> for Stop {
    ghost from_gives = { λ error stop. Unit {0} };

    fn from(_error: AllocError) -> Self {
        Stop::OutOfMemory
    }
}

/// Lets go of what found no room.
impl<T: Drop> From<AllocFailed<T>> for Stop {
    ghost from_gives = { λ failed stop. Unit {0} };

    fn from(_failed: AllocFailed<T>) -> Self {
        Stop::OutOfMemory
    }
}
