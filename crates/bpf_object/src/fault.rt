//! Why the program ended with another status than 0.

use command_line::WrongWords;
use host_file::FileFault;
use object_text::NotTaken;
use std::alloc::{AllocError, AllocFailed};
use std::io::{self, Write};
use thiserror::Error;

/// Why nothing was printed, or not all.
#[derive(Debug, Drop, Error)]
pub enum Fault {
    /// The object file isn't taken: status 1.
    #[error("{0}: {1}")]
    Refused(String, NotTaken),
    /// Its text isn't lowered, for which `lower` has these words: status 1.
    #[error("{0}")]
    NotLowered(String),
    /// The host refused what was printed last: status 1. It has all frames that a host may have.
    #[error("frames or memory ran out; make the maps smaller")]
    NotRun,
    #[error("out of memory")]
    OutOfMemory(AllocError),
    #[error("{0}")]
    Lowering(FileFault),
    #[error("cannot read the standard input: {0}")]
    Read(io::Error),
    #[error("cannot write the output: {0}")]
    Write(io::Error),
    /// The words of the command line are none that the program takes, or name no file that can be read.
    #[error("{0}")]
    Usage(String),
}

impl From<AllocError> for Fault {
    fn from(error: AllocError) -> Self {
        Fault::OutOfMemory(error)
    }
}

/// Words that make no request.
impl From<WrongWords> for Fault {
    fn from(wrong: WrongWords) -> Self {
        match wrong {
            WrongWords::Usage(said) => Fault::Usage(said),
            WrongWords::OutOfMemory(error) => Fault::OutOfMemory(error),
        }
    }
}

/// A lowering that could not be tried.
impl From<FileFault> for Fault {
    fn from(fault: FileFault) -> Self {
        match fault {
            FileFault::OutOfMemory(error) => Fault::OutOfMemory(error),
            FileFault::Write(error) => Fault::Write(error),
            FileFault::Usage(said) => Fault::Usage(said),
            other => Fault::Lowering(other),
        }
    }
}

/// Lets go of what found no room.
impl<T: Drop> From<AllocFailed<T>> for Fault {
    fn from(failed: AllocFailed<T>) -> Self {
        Fault::OutOfMemory(AllocError::from(failed))
    }
}

/// What was printed of a program.
#[derive(Clone, Copy)]
pub enum Printed {
    /// All that it has, or all that was asked for.
    Whole,
    /// Its text or the shapes of its maps, but not the first bytes of those, which only the events have.
    WithoutFirstBytes,
}

/// The status of an outcome: 1 for a refused object file or run, 2 for what else failed.
pub fn status_of(outcome: &Result<Printed, Fault>) -> u8 {
    match outcome {
        Ok(_) => 0,
        Err(Fault::Refused(..) | Fault::NotLowered(_) | Fault::NotRun) => 1,
        Err(_) => 2,
    }
}

/// Writes what is said of an outcome.
pub fn write_words<W: Write>(errors: &mut W, outcome: &Result<Printed, Fault>) -> io::Result<()> {
    match outcome {
        Ok(Printed::Whole) => Ok(()),
        Ok(Printed::WithoutFirstBytes) => {
            writeln!(
                errors,
                "maps begin with other bytes than zeros, which only the events have: they are printed without --hex and --maps"
            )
        }
        Err(fault) => writeln!(errors, "{fault}"),
    }
}

/// What came of a write.
pub fn written(outcome: io::Result<()>) -> Result<(), Fault> {
    outcome.map_err(Fault::Write)
}
