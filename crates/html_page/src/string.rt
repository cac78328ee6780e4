//! Strings and lists of JSON.

use crate::escape::write_inert;
use std::alloc::Global;
use std::io::Write;
use std::{fmt, io};

/// Writes what stands between an element and the one before it, if there is one.
pub fn write_comma<W: Write>(output: &mut W, before: usize) -> io::Result<()> {
    if before > 0 {
        write!(output, ",")
    } else {
        Ok(())
    }
}

/// Writes a JSON string.
pub fn write_string<W: Write>(alloc: Global, output: &mut W, text: &str) -> io::Result<()> {
    output.write_all(b"\"")?;
    write_inert(alloc, output, text)?;
    output.write_all(b"\"")
}

/// Writes what a value prints as a JSON string.
pub fn write_shown<W: Write>(
    alloc: Global,
    output: &mut W,
    value: &impl fmt::Display,
) -> io::Result<()> {
    let text = format!(in alloc; "{value}")?;
    write_string(alloc, output, text.as_str())
}
