//! The listing as text: a row a line, and lines below it for items that find no room.

use crate::item::Item;
use crate::lines::{Line, fold};
use crate::paint::{Paint, Part};
use crate::shown::{Detail, Listing};
use bpf_decode::Insn;
use disassembly::AssemblyAt;
use findings::write_limits;
use host_types::Refused;
use knowledge::Row;
use std::io;
use std::io::Write;

/// How a listing is written as text.
#[derive(Clone, Copy)]
pub struct Text {
    pub detail: Detail,
    pub paint: Paint,
}

impl Text {
    /// Writes the rows. Of a text that isn't well formed nothing is known.
    pub fn write_rows<W: Write>(&self, output: &mut W, listing: &Listing<'_>) -> io::Result<()> {
        for row in &listing.rows()? {
            self.write_row(output, listing, *row)?;
        }
        Ok(())
    }

    fn write_row<W: Write>(
        &self,
        output: &mut W,
        listing: &Listing<'_>,
        row: Row,
    ) -> io::Result<()> {
        match row {
            Row::Instruction(slot) => {
                self.write_source(output, listing, listing.source_above(slot))?;
                match listing.insn(slot) {
                    Some(insn) => self.write_insn(output, listing, slot, &insn),
                    None => Ok(()),
                }
            }
            Row::SecondHalf(slot) => {
                let mut line = Line::begin(output, self.paint);
                write_head(&mut line, listing, slot)?;
                line.end()
            }
            Row::Folded { first, last } => {
                let line = format!(in listing.alloc();
                    "  ..  slots {first} to {last}: further copies"
                )?;
                self.paint.write(output, Part::Beside, line.as_str())?;
                writeln!(output)
            }
        }
    }

    /// Writes the slots after the refused one that break a rule too, with what is known there and what would have to be.
    pub fn write_further<W: Write>(&self, output: &mut W, listing: &Listing<'_>) -> io::Result<()> {
        for refused in &listing.further()? {
            self.write_broken(output, listing, *refused)?;
        }
        Ok(())
    }

    /// Writes a further slot that breaks a rule.
    fn write_broken<W: Write>(
        &self,
        output: &mut W,
        listing: &Listing<'_>,
        refused: Refused,
    ) -> io::Result<()> {
        let Some(insn) = listing.insn(refused.slot) else {
            return Ok(());
        };
        let alloc = listing.alloc();
        let rule = format!(in alloc; "also {}", refused.fault())?;
        self.paint.write(output, Part::Refused, rule.as_str())?;
        writeln!(output)?;
        self.write_source(output, listing, listing.source(refused.slot))?;
        self.write_insn(output, listing, refused.slot, &insn)?;
        let mut words = Vec::new(alloc);
        let kinds = listing.kinds(refused.slot);
        write_limits(&mut words, &listing.checked(), refused, &kinds)?;
        match str::from_utf8(words.as_slice()) {
            Ok(words) if !words.is_empty() => {
                let words = words.trim_start_matches("; ");
                let said = format!(in alloc; "slot {}: {words}", refused.slot)?;
                fold(output, said.as_str())
            }
            _ => Ok(()),
        }
    }

    /// Writes a line of a source, if there is one, as the Linux verifier's log has it.
    fn write_source<W: Write>(
        &self,
        output: &mut W,
        listing: &Listing<'_>,
        words: Option<&str>,
    ) -> io::Result<()> {
        let Some(words) = words else {
            return Ok(());
        };
        let line = format!(in listing.alloc(); "; {words}")?;
        self.paint.write(output, Part::Source, line.as_str())?;
        writeln!(output)
    }

    /// Writes the line of an instruction, and what is known there.
    fn write_insn<W: Write>(
        &self,
        output: &mut W,
        listing: &Listing<'_>,
        slot: u32,
        insn: &Insn,
    ) -> io::Result<()> {
        let alloc = listing.alloc();
        let assembly = AssemblyAt { insn: *insn, slot };
        let assembly = format!(in alloc; "  {assembly}")?;
        let mut line = Line::begin(output, self.paint);
        write_head(&mut line, listing, slot)?;
        line.write(Part::Instruction, assembly.as_str())?;
        for item in &listing.items(slot, insn, self.detail)? {
            let text = format!(in alloc; "{item}")?;
            line.item(part_of(item), text.as_str())?;
        }
        line.end()
    }
}

/// Writes what stands first in the line of a slot: its number, of a lowered text the original's, and its bytes.
fn write_head<W: Write>(
    line: &mut Line<'_, W>,
    listing: &Listing<'_>,
    slot: u32,
) -> io::Result<()> {
    let number = listing.bytes(slot);
    let head = match listing.origin(slot) {
        Some(origin) => { format!(in listing.alloc(); "{slot:>4} {origin:>4}  {number:016x}")? }
        None => format!(in listing.alloc(); "{slot:>4}  {number:016x}")?,
    };
    let part = match listing.refused() {
        Some(refused) if refused.slot <= slot => Part::Refused,
        _ => Part::Beside,
    };
    line.write(part, head.as_str())
}

/// How an item is painted.
fn part_of(item: &Item) -> Part {
    match item {
        Item::NotReached => Part::Beside,
        Item::Known { .. } | Item::Frames { .. } => Part::Known,
        Item::Differs(_) => Part::Differs,
    }
}
