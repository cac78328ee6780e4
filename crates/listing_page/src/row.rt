//! The rows of a page.

use advice::{Advice, on_unlowered_jump};
use bpf_decode::Insn;
use disassembly::AssemblyAt;
use findings::{advice_by_kinds, write_findings, write_limits};
use host_types::Refused;
use host_types::rule::BACK_JUMP;
use html_page::{write_comma, write_shown, write_string};
use listing::{Detail, Differing, Fact, Item, Listing, Location, Row, STACK_SLOTS};
use std::alloc::{AllocError, Global};
use std::io;
use std::io::Write;
use verifier_kinds::StackSlot;

/// How many registers there are. Names are numbered: registers, and then slots of the stack, the lowest address first.
const REGISTERS: u32 = 11;

/// Rows that are written one after the other. What is known at a slot is written as what differs from the slot before it
/// of which something is known.
#[derive(Drop)]
pub struct Rows<'a> {
    listing: &'a Listing<'a>,
    /// Whether the lowering of the text was stopped.
    is_unlowered: bool,
    written: usize,
    before: Vec<Fact>,
}

impl<'a> Rows<'a> {
    /// None are written, and nothing is known.
    pub fn new(listing: &'a Listing<'a>, is_unlowered: bool) -> Result<Rows<'a>, AllocError> {
        Ok(Rows {
            listing,
            is_unlowered,
            written: 0,
            before: nothing(listing.alloc())?,
        })
    }

    /// Writes a row.
    pub fn write_row<W: Write>(&mut self, output: &mut W, row: Row) -> io::Result<()> {
        write_comma(output, self.written)?;
        self.written = self.written.saturating_add(1);
        let slot = match row {
            Row::Instruction(slot) | Row::SecondHalf(slot) => slot,
            Row::Folded { first, last } => {
                return write!(output, "{{\"slot\":{first},\"last\":{last}}}");
            }
        };
        self.write_head(output, slot)?;
        if let (Row::Instruction(_), Some(insn)) = (row, self.listing.insn(slot)) {
            self.write_source(output, self.listing.source_above(slot))?;
            self.write_insn(output, slot, &insn)?;
        }
        if let Some(refused) = self.listing.refused() {
            if refused.slot == slot {
                self.write_refused(output, refused)?;
            }
        }
        write!(output, "}}")
    }

    /// Writes the row of a slot after the refused one that breaks a rule too.
    pub fn write_further<W: Write>(&mut self, output: &mut W, refused: Refused) -> io::Result<()> {
        let Some(insn) = self.listing.insn(refused.slot) else {
            return Ok(());
        };
        write_comma(output, self.written)?;
        self.written = self.written.saturating_add(1);
        self.write_head(output, refused.slot)?;
        self.write_source(output, self.listing.source(refused.slot))?;
        self.write_insn(output, refused.slot, &insn)?;
        self.write_refused(output, refused)?;
        write!(output, "}}")
    }

    /// Writes the number of a slot, its bytes, and of a lowered text the slot of the original.
    fn write_head<W: Write>(&self, output: &mut W, slot: u32) -> io::Result<()> {
        let bytes = self.listing.bytes(slot);
        write!(output, "{{\"slot\":{slot},\"bytes\":\"{bytes:016x}\"")?;
        match self.listing.origin(slot) {
            Some(origin) => write!(output, ",\"origin\":{origin}"),
            None => Ok(()),
        }
    }

    /// Writes the line of a source that stands above an instruction, if there is one.
    fn write_source<W: Write>(&self, output: &mut W, words: Option<&str>) -> io::Result<()> {
        let Some(words) = words else {
            return Ok(());
        };
        write!(output, ",\"source\":")?;
        write_string(self.listing.alloc(), output, words)
    }

    /// Writes an instruction, what it reads and what is known before it runs.
    fn write_insn<W: Write>(&mut self, output: &mut W, slot: u32, insn: &Insn) -> io::Result<()> {
        let alloc = self.listing.alloc();
        write!(output, ",\"code\":")?;
        write_shown(alloc, output, &AssemblyAt { insn: *insn, slot })?;
        let items = self.listing.items(slot, insn, Detail::All)?;
        if self.listing.reaches(slot) {
            self.write_reads(output, slot, insn)?;
            self.write_known(output, &items)?;
            self.write_joins(output, slot, &items)?;
        }
        for item in &items {
            match item {
                Item::NotReached => write!(output, ",\"unreached\":true")?,
                Item::Frames { cost, reserve } => write!(output, ",\"frames\":[{cost},{reserve}]")?,
                Item::Known { .. } | Item::Differs(_) => {}
            }
        }
        Ok(())
    }

    /// Writes what an instruction reads.
    fn write_reads<W: Write>(&self, output: &mut W, slot: u32, insn: &Insn) -> io::Result<()> {
        write!(output, ",\"reads\":[")?;
        for (at, read) in self.listing.reads(slot, insn)?.iter().enumerate() {
            write_comma(output, at)?;
            write!(output, "{}", number_of(*read))?;
        }
        write!(output, "]")
    }

    /// Writes what is known that wasn't known so before: numbers of names, each with what is known.
    fn write_known<W: Write>(&mut self, output: &mut W, items: &Vec<Item>) -> io::Result<()> {
        let alloc = self.listing.alloc();
        let mut known = nothing(alloc)?;
        for item in items {
            if let Item::Known { location, fact } = item {
                if let Some(entry) = known.get_mut(number_of(*location) as usize) {
                    *entry = *fact;
                }
            }
        }
        write!(output, ",\"known\":[")?;
        let mut changes: usize = 0;
        for (number, (fact, before)) in known.iter().zip(self.before.iter()).enumerate() {
            if fact != before {
                write_comma(output, changes)?;
                write_fact(alloc, output, number, *fact)?;
                changes = changes.saturating_add(1);
            }
        }
        self.before = known;
        write!(output, "]")
    }

    /// Writes from which slots paths join at a slot, and of which names they say different things.
    fn write_joins<W: Write>(
        &self,
        output: &mut W,
        slot: u32,
        items: &Vec<Item>,
    ) -> io::Result<()> {
        let sources = self.listing.sources(slot)?;
        if sources.is_empty() {
            return Ok(());
        }
        write!(output, ",\"from\":[")?;
        for (at, source) in sources.iter().enumerate() {
            write_comma(output, at)?;
            write!(output, "{source}")?;
        }
        write!(output, "],\"differs\":[")?;
        let mut written: usize = 0;
        for item in items {
            if let Item::Differs(differing) = item {
                write_comma(output, written)?;
                write_differing(self.listing.alloc(), output, differing)?;
                written = written.saturating_add(1);
            }
        }
        write!(output, "]")
    }

    /// Writes a refusal: its number and name, what is wrong, how to fix it, the line of its source, and what is known at its slot.
    fn write_refused<W: Write>(&self, output: &mut W, refused: Refused) -> io::Result<()> {
        let alloc = self.listing.alloc();
        write!(
            output,
            ",\"refused\":{{\"number\":{},\"name\":",
            refused.number
        )?;
        write_string(alloc, output, refused.name())?;
        if let Some(advice) = self.advice_on(refused) {
            write!(output, ",\"wrong\":")?;
            write_string(alloc, output, advice.wrong)?;
            write!(output, ",\"fix\":")?;
            write_string(alloc, output, advice.fix)?;
        }
        if let Some(source) = self.listing.source(refused.slot) {
            write!(output, ",\"source\":")?;
            write_string(alloc, output, source)?;
        }
        write!(output, ",\"known\":")?;
        self.write_findings(output, refused)?;
        write!(output, "}}")
    }

    /// The advice on a refusal. Of a jump back it isn't the lowering that was stopped.
    fn advice_on(&self, refused: Refused) -> Option<Advice> {
        let text = self.listing.checked().text;
        if self.is_unlowered && refused.number == BACK_JUMP {
            return Some(on_unlowered_jump(text, refused.slot));
        }
        let kinds = self.listing.kinds(refused.slot);
        advice_by_kinds(text, refused, &kinds)
    }

    /// Writes what is known at the slot of a refusal.
    fn write_findings<W: Write>(&self, output: &mut W, refused: Refused) -> io::Result<()> {
        let words = self.findings(refused)?;
        let words = str::from_utf8(words.as_slice()).unwrap_or("");
        write_string(self.listing.alloc(), output, words.trim_start_matches("; "))
    }

    /// What is known at the slot of a refusal, each finding after a `; `.
    fn findings(&self, refused: Refused) -> io::Result<Vec<u8>> {
        let listing = self.listing;
        let alloc = listing.alloc();
        let mut words = Vec::new(alloc);
        if listing.refused() == Some(refused) {
            write_findings(alloc, &mut words, &listing.checked(), refused)?;
        } else {
            let kinds = listing.kinds(refused.slot);
            write_limits(&mut words, &listing.checked(), refused, &kinds)?;
        }
        listing.write_differing(&mut words, refused)?;
        Ok(words)
    }
}

/// What is known of each name where nothing is.
fn nothing(alloc: Global) -> Result<Vec<Fact>, AllocError> {
    let mut facts = Vec::new(alloc);
    for _register in 0..REGISTERS {
        facts.push(Fact::Register(None))?;
    }
    for _slot in 0..STACK_SLOTS {
        facts.push(Fact::Stack(StackSlot::Bytes(0)))?;
    }
    Ok(facts)
}

/// The number of a name.
fn number_of(location: Location) -> u32 {
    match location {
        Location::Register(register) => u32::from(register),
        Location::Stack(slot) => REGISTERS.saturating_add(slot),
    }
}

/// Writes what is known of a name, or `null` where nothing is.
fn write_fact<W: Write>(
    alloc: Global,
    output: &mut W,
    number: usize,
    fact: Fact,
) -> io::Result<()> {
    write!(output, "[{number},")?;
    if fact.is_some() {
        write_shown(alloc, output, &fact)?;
    } else {
        write!(output, "null")?;
    }
    write!(output, "]")
}

/// Writes what two paths say of a name, with the slots from which they come, and how many more differ.
fn write_differing<W: Write>(
    alloc: Global,
    output: &mut W,
    differing: &Differing,
) -> io::Result<()> {
    let (first, begin) = differing.first;
    let (other, from) = differing.other;
    write!(output, "[{},", number_of(differing.location))?;
    write_shown(alloc, output, &first)?;
    write!(output, ",{begin},")?;
    write_shown(alloc, output, &other)?;
    write!(output, ",{from},{}]", differing.more)
}
