//! Why no program is read from an object file.

use crate::structs::BpfHostRefused;
use crate::texts::refuse;
use host_types::Fault;
use std::alloc::AllocError;

/// What a call returns that doesn't take the file, or finds no function in it of the name.
const BAD_OBJECT: u32 = 103;

/// The words for a size that no context may have. They take no memory.
const BAD_CONTEXT: &str =
    "refused 39 BadContext\nthe context size is above 256 or isn't a multiple of 8";

/// Why there is no program, and words for that.
#[derive(Drop)]
pub enum NotRead {
    /// No context may have this size.
    BadContext,
    OutOfMemory,
    /// The file isn't taken, or has no function of the name.
    File(String),
    /// The lowering of its text is refused.
    Text(Fault, String),
}

impl NotRead {
    ghost use Rattle.std.specs.Prelude.{◌≡◌, ℕ};
    ghost use Rattle.host_handle.specs.Objects.{AnswersReason, IsOfFile, IsReason};

    /// The refusal of a file, if there was memory for its words.
    pub(crate) fn file(words: Result<String, AllocError>) -> Self
        ensures { IsOfFile result }
    {
        match words {
            Ok(words) => NotRead::File(words),
            Err(_) => NotRead::OutOfMemory,
        }
    }

    /// The words.
    pub fn words(&self) -> &str {
        match self {
            NotRead::BadContext => BAD_CONTEXT,
            NotRead::OutOfMemory => "out of memory",
            NotRead::File(words) => words.as_str(),
            NotRead::Text(_, words) => words.as_str(),
        }
    }

    /// Writes what the refusal says beside its number: the number that the call returns.
    pub fn refuse(&self, refused: &mut BpfHostRefused) -> u32
        ensures { (size : ℕ) → IsReason size self.now → AnswersReason size result refused.old refused.new }
    {
        match self {
            NotRead::BadContext => refuse(Fault::BadContext, refused),
            NotRead::OutOfMemory => refuse(Fault::OutOfMemory, refused),
            NotRead::File(_) => BAD_OBJECT,
            NotRead::Text(fault, _) => refuse(*fault, refused),
        }
    }
}
