//! Why an object file has no text for this host.

use inlining::NotInlined;
use object_file::{Cause, ObjectError, ShownLine};
use std::alloc::{AllocError, AllocFailed};
use thiserror::Error;

/// What stands in the way.
#[derive(Debug, Drop, Error)]
pub enum NotTaken {
    #[error("{0}")]
    Object(ObjectError),
    /// The functions that it calls can't be copied into one text. The number counts bytes of the file.
    #[error("byte {0} of the file: {1}{2}")]
    Inlining(usize, NotInlined, ShownLine),
}

impl NotTaken {
    /// Whether memory ran out, which says nothing of the file.
    pub fn is_out_of_memory(&self) -> bool {
        match self {
            NotTaken::Object(error) => matches!(error.cause, Cause::OutOfMemory(_)),
            NotTaken::Inlining(..) => false,
        }
    }
}

impl From<ObjectError> for NotTaken {
    fn from(error: ObjectError) -> Self {
        NotTaken::Object(error)
    }
}

impl From<AllocError> for NotTaken {
    fn from(error: AllocError) -> Self {
        NotTaken::Object(ObjectError::from(error))
    }
}

/// Lets go of what found no room.
impl<T: Drop> From<AllocFailed<T>> for NotTaken {
    fn from(failed: AllocFailed<T>) -> Self {
        NotTaken::from(AllocError::from(failed))
    }
}
