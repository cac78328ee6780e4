//! Lines of at most 100 columns.

use crate::paint::{Paint, Part};
use std::io;
use std::io::Write;

/// The most columns of a line.
const COLUMNS: usize = 100;

/// Where the items of a line begin, if what stands before them leaves the room.
const ITEMS: usize = 56;

/// Where an item begins in a line below it that has no room after that column.
const BELOW: usize = 24;

/// What stands between the text of a line and its items.
const SPACES: [u8; COLUMNS] = [b' '; COLUMNS];

/// A line that is being written, and the lines below it that its items need.
#[derive(Drop)]
pub struct Line<'a, W> {
    output: &'a mut W,
    paint: Paint,
    used: usize,
    has_items: bool,
}

impl<'a, W: Write> Line<'a, W> {
    /// A line without a text.
    pub fn begin(output: &'a mut W, paint: Paint) -> Line<'a, W> {
        Line {
            output,
            paint,
            used: 0,
            has_items: false,
        }
    }

    /// Writes a part of what stands before the items.
    pub fn write(&mut self, part: Part, text: &str) -> io::Result<()> {
        self.paint.write(self.output, part, text)?;
        self.used = self.used.saturating_add(text.len());
        Ok(())
    }

    /// Writes an item after a `; `, in a line of its own where it finds no room.
    pub fn item(&mut self, part: Part, item: &str) -> io::Result<()> {
        let from = if self.has_items {
            self.used
        } else {
            self.used.saturating_add(1).max(ITEMS)
        };
        if fits(from, item) {
            return self.write_at(from, part, item);
        }
        writeln!(self.output)?;
        self.used = 0;
        self.write_at(if fits(ITEMS, item) { ITEMS } else { BELOW }, part, item)
    }

    /// Writes an item at a column.
    fn write_at(&mut self, from: usize, part: Part, item: &str) -> io::Result<()> {
        let gap = from.saturating_sub(self.used).min(COLUMNS);
        self.output.write_all(&SPACES[..gap])?;
        self.output.write_all(b"; ")?;
        self.paint.write(self.output, part, item)?;
        self.used = from.saturating_add(item.len()).saturating_add(2);
        self.has_items = true;
        Ok(())
    }

    /// Ends the line.
    pub fn end(self) -> io::Result<()> {
        writeln!(self.output)
    }
}

/// Whether an item finds room from a column on.
fn fits(from: usize, item: &str) -> bool {
    from.saturating_add(item.len()).saturating_add(2) <= COLUMNS
}

/// Writes a text in lines of at most 100 columns, broken between words. A word that is longer has a line of its
/// own.
pub fn fold<W: Write>(output: &mut W, text: &str) -> io::Result<()> {
    let mut used: usize = 0;
    for word in text.split(' ') {
        let width = word.chars().count();
        let end = used.saturating_add(1).saturating_add(width);
        if used == 0 {
            used = width;
        } else if end <= COLUMNS {
            write!(output, " ")?;
            used = end;
        } else {
            writeln!(output)?;
            used = width;
        }
        write!(output, "{word}")?;
    }
    writeln!(output)
}
