use crate::key::Key;
use hex::FromHexError;
use std::alloc::{AllocError, AllocFailed};
use std::{fmt, io};
use thiserror::Error;

/// Why a program of the host ended with status 2.
#[derive(Debug, Drop, Error)]
pub enum FileFault {
    /// The input is no host file; nothing was applied.
    #[error("bad host file: {0}")]
    Bad(BadFile),
    #[error("out of memory")]
    OutOfMemory(AllocError),
    /// The input can't be read; nothing was applied.
    #[error("cannot read the host file: {0}")]
    Read(io::Error),
    /// The output can't be written; no further event was applied.
    #[error("cannot write the output: {0}")]
    Write(io::Error),
    /// The words of the command line are none that the program takes.
    #[error("{0}")]
    Usage(String),
}

impl From<AllocError> for FileFault {
    ghost use Rattle.std.specs.Prelude.{◌≡◌};
    ghost use Rattle.host_file.specs.declared.fault.FileFault.TheVariants.{OutOfMemory};

    ghost from_gives = { λ error fault. fault ≡ OutOfMemory error };

    fn from(error: AllocError) -> Self {
        FileFault::OutOfMemory(error)
    }
}

/// Lets go of what found no room.
impl<T: Drop> From<AllocFailed<T>> for FileFault {
    ghost use Rattle.host_file.specs.Faults.{IsOutOfMemory};

    ghost from_gives = { λ failed fault. IsOutOfMemory fault };

    fn from(failed: AllocFailed<T>) -> Self {
        FileFault::OutOfMemory(AllocError::from(failed))
    }
}

/// What is wrong with a host file, and where.
#[derive(Debug, Drop, Error)]
#[error("{location}{cause}")]
pub struct BadFile {
    pub location: Location,
    pub cause: Cause,
}

/// A location in a host file.
#[derive(Clone, Copy, Debug, PartialEq, Eq)]
pub enum Location {
    /// The document itself.
    Document,
    /// The table of the options.
    Options,
    /// The table of an event, counted from 0.
    Event(usize),
}

/// What is wrong at a location of a host file.
#[derive(Debug, Drop, Error)]
pub enum Cause {
    #[error("it has more than 16777216 bytes")]
    TooLong,
    #[error("it has more than 300000 of the characters `.`, `[` and `{{`")]
    TooManyOpenings,
    #[error("it has more than 1000000 of the character `=`")]
    TooManyEquals,
    #[error("it is no UTF-8 text")]
    NotText,
    #[error("{0}")]
    NotToml(toml::de::Error),
    #[error("the key `{0}` is missing")]
    Missing(Key),
    #[error("the key `{0}` is unknown")]
    Unknown(String),
    #[error("`{0}` is no number from 0 to 4294967295")]
    NotNumber(Key),
    #[error("`{0}` is neither true nor false")]
    NotBoolean(Key),
    #[error("`{0}` is no string")]
    NotString(Key),
    #[error("`{0}` is no hex text: {1}")]
    NotHex(Key, FromHexError),
    #[error("`{0}` is no table")]
    NotTable(Key),
    #[error("`{0}` is no array of tables")]
    NotTables(Key),
    #[error("no event does `{0}`; an event does map, load, begin, step, finish, run, visit, update, lookup, set, unmerge, counters, unload or drop")]
    UnknownEvent(String),
    #[error("no option is `{0}`; the options are pages_to_scan, run, use_zero_pages and max_page_sharing")]
    UnknownOption(String),
    #[error("it can't be served; map, load, update, set, run, visit and lookup can")]
    NotServed,
    #[error("there is no tenant {0}")]
    NoTenant(u32),
}

impl fmt::Display for Location {
    fn fmt<W: fmt::Write>(&self, f: &mut fmt::Formatter<W>) -> fmt::Result {
        match self {
            Location::Document => Ok(()),
            Location::Options => write!(f, "options: "),
            Location::Event(number) => write!(f, "event {number}: "),
        }
    }
}
