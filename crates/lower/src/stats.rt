//! How a lowered text differs from its original.

use lowered_text::{Copies, loops_of};
use std::alloc::Global;
use std::io::{self, Write};

/// Writes how many slots a text has, before and lowered, and how many copies there are of each loop.
pub fn write_stats<E: Write>(alloc: Global, copies: &Copies<'_>, errors: &mut E) -> io::Result<()> {
    let before = copies.text.len() / 8;
    let after = copies.lowered.origins.len();
    writeln!(errors, "slots {before} before, {after} lowered")?;
    for found in &loops_of(alloc, copies.text)? {
        let count = copies.of(found.first);
        let (first, last) = (found.first, found.last);
        writeln!(errors, "loop of slots {first} to {last}: copies {count}")?;
    }
    Ok(())
}
