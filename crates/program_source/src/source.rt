//! The program that a word HEX names.

use crate::other::Other;
use host_file::FileFault;
use std::alloc::{AllocError, Global};
use std::io::{self, Read};
use std::rt::Files;
use std::{fmt, fs};
use terminal_text::quoted;

/// One byte more than a file may have: an object file.
const MOST_READ: u64 = (1 << 24) + 1;

/// What a word names.
#[derive(Drop)]
pub enum Source {
    /// The program of a hex text.
    Hex(String),
    /// That of the object file of these bytes.
    Object(Vec<u8>),
}

/// The hex text that a word is, or what is in the file that it names after an `@`. A file of hex digits and white space
/// alone is hex text; of every other one that is no object file its bytes are the program. A fault says what is wrong with other
/// text: no program that may be accepted has its bytes.
pub fn source_of<R: AllocGlobal + Files>(rt: &R, word: &str) -> Result<Source, FileFault> {
    let alloc = rt.alloc();
    let Some(path) = word.strip_prefix('@') else {
        return Ok(Source::Hex(String::from_str(alloc, word)?));
    };
    match bytes_at(rt, path) {
        Ok(bytes) => match Other::of(bytes.as_slice()) {
            Some(Other::Elf) => Ok(Source::Object(bytes)),
            Some(other) => Err(unreadable(alloc, path, other)),
            None => Ok(Source::Hex(hex_in(alloc, bytes.as_slice())?)),
        },
        Err(error) => Err(unreadable(alloc, path, error)),
    }
}

/// The same of a program that takes no object files.
pub fn hex_of<R: AllocGlobal + Files>(rt: &R, word: &str) -> Result<String, FileFault> {
    match source_of(rt, word)? {
        Source::Hex(hex) => Ok(hex),
        Source::Object(_) => Err(unreadable(rt.alloc(), path_in(word), Other::Elf)),
    }
}

/// The path in a word that names a file.
pub fn path_in(word: &str) -> &str {
    word.strip_prefix('@').unwrap_or(word)
}

/// The fault of a file that can't be read, with the path and why.
pub fn unreadable(alloc: Global, path: &str, why: impl fmt::Display + Drop) -> FileFault {
    match said_of(alloc, path, why) {
        Ok(said) => FileFault::Usage(said),
        Err(error) => FileFault::OutOfMemory(error),
    }
}

fn said_of(alloc: Global, path: &str, why: impl fmt::Display + Drop) -> Result<String, AllocError> {
    let path = quoted(alloc, path)?;
    format!(in alloc; "cannot read {path}: {why}")
}

/// The first bytes of the file at a path, one more than it may have.
fn bytes_at<R: AllocGlobal + Files>(rt: &R, path: &str) -> io::Result<Vec<u8>> {
    let mut file = fs::open(rt, path)?;
    let mut bytes = Vec::new(rt.alloc());
    let mut front = file.take(MOST_READ);
    front.read_to_end(&mut bytes)?;
    Ok(bytes)
}

/// The hex text of bytes that are one, or else that of the bytes themselves.
fn hex_in(alloc: Global, bytes: &[u8]) -> Result<String, AllocError> {
    if !bytes.iter().all(is_of_hex_text) {
        return hex::encode(alloc, bytes);
    }
    let mut digits = String::new(alloc);
    for byte in bytes {
        if byte.is_ascii_hexdigit() {
            digits.push(char::from(*byte))?;
        }
    }
    Ok(digits)
}

/// Whether a byte may stand in hex text.
fn is_of_hex_text(byte: &u8) -> bool {
    byte.is_ascii_hexdigit() || byte.is_ascii_whitespace()
}
