//! Why calls aren't replaced.

use std::alloc::{AllocError, AllocFailed};
use thiserror::Error;

/// What stands in the way, and where: a slot of a function, by its number.
#[derive(Debug, Drop, Error)]
#[error("{stop}")]
pub struct NotInlined {
    pub function: usize,
    pub slot: usize,
    pub stop: Stop,
}

/// What stands in the way of replacing calls.
#[derive(Debug, Drop, Error)]
pub enum Stop {
    #[error("out of memory")]
    OutOfMemory(AllocError),
    #[error("a function calls itself, or one that calls it; write a loop")]
    Recursion,
    #[error("with copies of the functions that it calls the text has more than 4096 slots")]
    TooLong,
    #[error("the stacks of functions that call each other have more than 512 bytes together")]
    StackSize,
    #[error("an address of the stack is stored, or moved in a loop, out of the stack or by a number that isn't constant, and functions are called; mark these static __attribute__((always_inline))")]
    StackAddress,
    #[error("registers can't be followed through the jumps back of a function; mark the functions that are called static __attribute__((always_inline))")]
    Tangled,
    #[error("a jump leads out of its function")]
    JumpOut,
    #[error("no function is known that is called here")]
    UnknownCall,
}

impl Stop {
    /// The stop at a slot of a function that isn't numbered yet.
    pub fn at(self, slot: usize) -> NotInlined {
        NotInlined {
            function: 0,
            slot,
            stop: self,
        }
    }
}

impl NotInlined {
    /// The same of a function with a number.
    pub(crate) fn in_function(self, function: usize) -> Self {
        let NotInlined {
            function: _,
            slot,
            stop,
        } = self;
        NotInlined {
            function,
            slot,
            stop,
        }
    }
}

impl From<AllocError> for NotInlined {
    fn from(error: AllocError) -> Self {
        Stop::OutOfMemory(error).at(0)
    }
}

/// Lets go of what found no room.
impl<T: Drop> From<AllocFailed<T>> for NotInlined {
    fn from(failed: AllocFailed<T>) -> Self {
        NotInlined::from(AllocError::from(failed))
    }
}
