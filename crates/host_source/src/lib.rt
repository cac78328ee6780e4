//! The host file that a word names: it is opened, and where it can't be read, is bad or finds no memory, it is named before
//! the words that say so, of a bad event with the line.
#![tactic(auto)]

mod event_line;

use event_line::event_line;
use host_file::{BadFile, FileFault, Location, MAX_BYTES};
use std::alloc::{AllocError, Global};
use std::fs;
use std::io::{self, Read, Seek, Write};
use std::rt::Files;
use terminal_text::quoted;

/// Opens the file at a path. Where it can't be opened, it is named first.
pub fn open<R: AllocGlobal + Files, E: Write>(
    rt: &R,
    path: &str,
    errors: &mut E,
) -> Result<R::File, FileFault> {
    match fs::open(rt, path) {
        Ok(file) => Ok(file),
        Err(error) => {
            let _ = say_path(rt.alloc(), errors, path, None);
            Err(match error.kind() {
                io::ErrorKind::OutOfMemory => FileFault::OutOfMemory(AllocError),
                _ => FileFault::Read(error),
            })
        }
    }
}

/// The answer for a file at a path. Where the file can't be read, is bad, or finds no memory, it is named first, and of a bad
/// event the line.
pub fn name_file<T: Drop, R: Read + Seek, E: Write>(
    alloc: Global,
    errors: &mut E,
    path: &str,
    file: &mut R,
    answer: Result<T, FileFault>,
) -> Result<T, FileFault> {
    let line = match &answer {
        Err(
            FileFault::Bad(
                BadFile {
                    location: Location::Event(number),
                    ..
                },
            ),
        ) => line_in(alloc, file, *number),
        Err(FileFault::Read(_) | FileFault::Bad(_) | FileFault::OutOfMemory(_)) => None,
        _ => return answer,
    };
    let _ = say_path(alloc, errors, path, line);
    answer
}

/// Writes which file it is that can't be read, or is bad, and at which line.
fn say_path<W: Write>(
    alloc: Global,
    diagnostics: &mut W,
    path: &str,
    line: Option<usize>,
) -> io::Result<()> {
    let Ok(path) = quoted(alloc, path) else {
        return Ok(());
    };
    match line {
        Some(line) => write!(diagnostics, "{path}:{line}: "),
        None => write!(diagnostics, "{path}: "),
    }
}

/// The line of a file at which the table of an event begins. None where the file can't be read a second time, as a pipe.
fn line_in<R: Read + Seek>(alloc: Global, file: &mut R, number: usize) -> Option<usize> {
    file.rewind().ok()?;
    let mut bytes = Vec::new(alloc);
    let mut front = file.take(MAX_BYTES as u64);
    front.read_to_end(&mut bytes).ok()?;
    event_line(str::from_utf8(bytes.as_slice()).ok()?, number)
}
