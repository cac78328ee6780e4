//! Lines of sources, in words.

use listing::Sources;
use object_file::SourceLine;
use std::alloc::{AllocError, Global};
use terminal_text::is_plain;

/// The most characters of a file's name, and of this and a line's text together: with its number a line has at most 100 columns.
const MOST_OF_NAME: usize = 24;

const MOST: usize = 87;

/// The lines of which a text was made, in words, and of each slot the number of its line.
#[derive(Drop)]
pub struct SourceWords {
    lines: Vec<String>,
    of_slots: Vec<Option<u32>>,
}

impl SourceWords {
    /// The words of the line of each slot.
    pub fn of(
        alloc: Global,
        lines: &[SourceLine<'_>],
        of_slots: &[Option<u32>],
    ) -> Result<Self, AllocError> {
        let mut words = SourceWords {
            lines: Vec::new(alloc),
            of_slots: Vec::new(alloc),
        };
        let mut before = None;
        for number in of_slots {
            let number = *number;
            if number != before {
                words.push(alloc, lines, number)?;
            }
            let last = if number.is_some() { words.last() } else { None };
            words.of_slots.push(last)?;
            before = number;
        }
        Ok(words)
    }

    /// Adds the words of the line with a number.
    fn push(
        &mut self,
        alloc: Global,
        lines: &[SourceLine<'_>],
        number: Option<u32>,
    ) -> Result<(), AllocError> {
        let Some(number) = number else {
            return Ok(());
        };
        if let Some(line) = lines.get(number as usize) {
            self.lines.push(words_of(alloc, line)?)?;
        }
        Ok(())
    }

    /// The number of the last line.
    fn last(&self) -> Option<u32> {
        u32::try_from(self.lines.len().checked_sub(1)?).ok()
    }

    /// The same for a listing.
    pub fn sources(&self) -> Sources<'_> {
        Sources {
            lines: self.lines.as_slice(),
            of_slots: self.of_slots.as_slice(),
        }
    }

    /// The same of a lowered text, each of whose slots has the line of the slot for which it stands.
    pub fn moved(self, alloc: Global, origins: &[u16]) -> Result<Self, AllocError> {
        let SourceWords {
            lines,
            of_slots: before,
        } = self;
        let mut of_slots = Vec::new(alloc);
        for origin in origins {
            let number = before.get(usize::from(*origin));
            of_slots.push(number.copied().flatten())?;
        }
        Ok(SourceWords { lines, of_slots })
    }
}

/// A line as the Linux verifier's log has it: its text, the name of its file, and its number.
fn words_of(alloc: Global, line: &SourceLine<'_>) -> Result<String, AllocError> {
    let name = match line.file.rsplit(|byte| *byte == b'/').next() {
        Some(name) => name,
        None => line.file,
    };
    let name = plain_of(alloc, name, MOST_OF_NAME)?;
    let left = MOST.saturating_sub(name.chars().count());
    let text = plain_of(alloc, line.text.trim_ascii(), left)?;
    let number = line.number;
    if text.is_empty() {
        return format!(in alloc; "@ {name}:{number}");
    }
    format!(in alloc; "{text} @ {name}:{number}")
}

/// A text in which a character that could steer a terminal is written as its number, and a byte that is none of UTF-8 as `?`. Of one
/// with more characters than these the first are shown, and two dots.
fn plain_of(alloc: Global, bytes: &[u8], most: usize) -> Result<String, AllocError> {
    let whole = escaped_of(alloc, bytes)?;
    if whole.chars().count() <= most {
        return Ok(whole);
    }
    let mut front = String::new(alloc);
    for c in whole.chars().take(most.saturating_sub(2)) {
        front.push(c)?;
    }
    front.push_str("..")?;
    Ok(front)
}

fn escaped_of(alloc: Global, bytes: &[u8]) -> Result<String, AllocError> {
    let text = text_of(alloc, bytes)?;
    let mut escaped = String::new(alloc);
    for c in text.chars() {
        push_plain(&mut escaped, c)?;
    }
    Ok(escaped)
}

/// Adds a character, or its number where it could steer a terminal.
fn push_plain(shown: &mut String, c: char) -> Result<(), AllocError> {
    if is_plain(c) {
        shown.push(c)?;
        return Ok(());
    }
    for escaped in c.escape_unicode() {
        shown.push(escaped)?;
    }
    Ok(())
}

/// A text of which tabs are spaces, and bytes that are none of UTF-8 are `?`.
fn text_of(alloc: Global, bytes: &[u8]) -> Result<String, AllocError> {
    let Ok(known) = str::from_utf8(bytes) else {
        return ascii_of(alloc, bytes);
    };
    let mut text = String::new(alloc);
    for c in known.chars() {
        text.push(spaced(c))?;
    }
    Ok(text)
}

fn ascii_of(alloc: Global, bytes: &[u8]) -> Result<String, AllocError> {
    let mut text = String::new(alloc);
    for byte in bytes {
        text.push(if byte.is_ascii() {
            spaced(char::from(*byte))
        } else {
            '?'
        })?;
    }
    Ok(text)
}

/// A character, or a space for a tab.
fn spaced(c: char) -> char {
    if c == '\t' { ' ' } else { c }
}
