//! A line of a source, and how it is shown.

use object_error::shown;
use std::alloc::{AllocError, Global};
use terminal_text::is_plain;

/// The most characters that are shown of a line's text.
const MOST: usize = 80;

/// A line of a source: the path of its file, its text, and its number from 1 on.
#[derive(Clone, Copy, PartialEq, Eq)]
pub struct SourceLine<'a> {
    pub file: &'a [u8],
    pub text: &'a [u8],
    pub number: u32,
}

impl SourceLine<'_> {
    /// The line as compilers name it: its file without the folder, its number, and its text, cut and escaped for a terminal.
    pub fn in_words(&self, alloc: Global) -> Result<String, AllocError> {
        let file = match self.file.rsplit(|byte| *byte == b'/').next() {
            Some(name) => shown(alloc, name)?,
            None => String::new(alloc),
        };
        let number = self.number;
        match str::from_utf8(self.text.trim_ascii()) {
            Ok(text) if !text.is_empty() => {
                let text = plain_text(alloc, text)?;
                format!(in alloc; "{file}:{number}: {text}")
            }
            _ => format!(in alloc; "{file}:{number}"),
        }
    }
}

/// The first 80 characters of a text, and two dots where it has more.
fn plain_text(alloc: Global, text: &str) -> Result<String, AllocError> {
    let mut plain = String::new(alloc);
    for c in text.chars().take(MOST) {
        push_plain(&mut plain, c)?;
    }
    if text.chars().count() > MOST {
        plain.push_str("..")?;
    }
    Ok(plain)
}

/// Adds a character: a space for a tab, and its number where it could steer a terminal.
fn push_plain(plain: &mut String, c: char) -> Result<(), AllocError> {
    if c == '\t' {
        plain.push(' ')?;
    } else if is_plain(c) {
        plain.push(c)?;
    } else {
        for escaped in c.escape_unicode() {
            plain.push(escaped)?;
        }
    }
    Ok(())
}
