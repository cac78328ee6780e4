//! The listing of a text: its rows, and what is shown at each.

ghost use Rattle.std.specs.Prelude.{ℕ, ◌<◌, ◌^◌, length, IfOk};
ghost use Rattle.knowledge.specs.Rows.{AreRows};

use crate::item::Item;
use crate::listed::{Known, Listed};
use crate::location::{Differing, Fact, Location, STACK_SLOTS};
use crate::seen::Seen;
use bpf_decode::{FRAME_POINTER, Insn};
use findings::{CheckedText, Kinds, registers_read};
use host_types::Refused;
use knowledge::{Knowledge, Row, Slot, rows_of};
use std::alloc::{AllocError, Global};
use std::io;
use std::io::Write;
use verifier::Verified;
use verifier_kinds::Kind;

/// How much is shown of what is known at a slot.
#[derive(Clone, Copy, PartialEq, Eq)]
pub enum Detail {
    /// What the instruction reads, and the frames that it may take.
    Read,
    /// All registers and bytes of the stack of which something is known, and the frames that the rest may take.
    All,
}

/// What is shown of a lowered text beside its slots.
#[derive(Clone, Copy)]
pub struct Beside<'a> {
    /// The slot of the original for which each slot stands.
    pub origins: &'a [u16],
    /// Whether each slot is left out.
    pub folded: &'a [bool],
}

/// The lines of sources of which a text was made, in words, and of each slot the number of its line.
#[derive(Clone, Copy)]
pub struct Sources<'a> {
    pub lines: &'a [String],
    pub of_slots: &'a [Option<u32>],
}

impl<'a> Sources<'a> {
    /// The words of the line of a slot.
    fn words(&self, slot: u32) -> Option<&'a str> {
        let number = (*self.of_slots.get(slot as usize)?)?;
        Some(self.lines.get(number as usize)?.as_str())
    }
}

/// The listing of a text that was verified.
#[derive(Drop)]
pub struct Listing<'a> {
    alloc: Global,
    checked: CheckedText<'a>,
    all_known: Listed,
    beside: Option<Beside<'a>>,
    sources: Option<Sources<'a>>,
}

impl<'a> Listing<'a> {
    /// The listing of a text. There is none where no text can be verified for such maps and such a context.
    pub fn of(
        alloc: Global,
        checked: &CheckedText<'a>,
        beside: Option<Beside<'a>>,
        sources: Option<Sources<'a>>,
    ) -> Option<Listing<'a>> {
        Some(Listing {
            alloc,
            checked: *checked,
            all_known: Listed::of(alloc, checked)?,
            beside,
            sources,
        })
    }

    /// Where memory comes from.
    pub fn alloc(&self) -> Global {
        self.alloc
    }

    /// The text, and what it was verified for.
    pub fn checked(&self) -> CheckedText<'a> {
        self.checked
    }

    /// Why the text is refused, if it is.
    pub fn refused(&self) -> Option<Refused> {
        self.all_known.refused
    }

    /// How many whole slots the text has.
    pub fn slots(&self) -> u32 {
        u32::try_from(self.checked.text.len() / 8).unwrap_or(u32::MAX)
    }

    /// The rows, up to the slot for which the text is refused, if it is: each slot in one of them. A text that has no whole
    /// slots has none.
    pub fn rows(&self) -> Result<Vec<Row>, AllocError>
        ensures { IfOk result (λ rows. (end : ℕ) × AreRows rows.items 0 end) }
    {
        let slots = self.slots_listed()?;
        rows_of(self.alloc, slots.as_slice())
    }

    /// What the slots are that are listed.
    fn slots_listed(&self) -> Result<Vec<Slot>, AllocError>
        ensures { IfOk result (λ slots. length slots.items < 2 ^ 32) }
    {
        let mut slots = Vec::new(self.alloc);
        let mut begins = true;
        for slot in 0..self.all_known.listed(self.slots()) {
            let Some(insn) = self.insn(slot) else {
                break;
            };
            slots.push(match (self.is_folded(slot), begins) {
                (true, _) => Slot::Folded,
                (false, true) => Slot::First,
                (false, false) => Slot::SecondHalf,
            })?;
            begins = !begins || insn.slots() == 1;
        }
        Ok(slots)
    }

    /// Whether a slot is left out.
    fn is_folded(&self, slot: u32) -> bool {
        match &self.beside {
            Some(beside) => matches!(beside.folded.get(slot as usize), Some(true)),
            None => false,
        }
    }

    /// The slots after the refused one that break a rule too: those that are reached on paths on which no slot breaks one.
    pub fn further(&self) -> Result<Vec<Refused>, AllocError> {
        let mut further = Vec::new(self.alloc);
        let (Some(refused), Some(known)) = (self.all_known.refused, &self.all_known.known) else {
            return Ok(further);
        };
        let knowledge = &known.knowledge;
        for slot in refused.slot.saturating_add(1)..knowledge.slots() {
            if let Some(number) = knowledge.breaks(slot) {
                further.push(Refused { number, slot })?;
            }
        }
        Ok(further)
    }

    /// The instruction whose first slot this is, where the text has it.
    pub fn insn(&self, slot: u32) -> Option<Insn> {
        Insn::at(self.checked.text, slot as usize)
    }

    /// The eight bytes of a slot, as one number whose hex digits are theirs in their order.
    pub fn bytes(&self, slot: u32) -> u64 {
        let begin = 8 * slot as usize;
        let bytes = self.checked.text.get(begin..begin + 8).unwrap_or(&[]);
        bytes
            .iter()
            .fold(0u64, |number, byte| number << 8 | u64::from(*byte))
    }

    /// The slot of the original for which a slot of a lowered text stands.
    pub fn origin(&self, slot: u32) -> Option<u16> {
        match &self.beside {
            Some(beside) => beside.origins.get(slot as usize).copied(),
            None => None,
        }
    }

    /// The line of a source of which a slot was made, in words, where it is known.
    pub fn source(&self, slot: u32) -> Option<&'a str> {
        match &self.sources {
            Some(sources) => sources.words(slot),
            None => None,
        }
    }

    /// The line of a source that begins at a slot that is listed: its own, where it isn't that of the slot listed before.
    pub fn source_above(&self, slot: u32) -> Option<&'a str> {
        let words = self.source(slot)?;
        match slot.checked_sub(1) {
            Some(before) if !self.is_folded(before) && self.source(before) == Some(words) => None,
            _ => Some(words),
        }
    }

    /// Whether a path leads to a slot. Of a text that isn't well formed that isn't known.
    pub fn reaches(&self, slot: u32) -> bool {
        match &self.all_known.known {
            Some(known) => known.knowledge.reaches(slot),
            None => false,
        }
    }

    /// What is known of the registers at a slot.
    pub fn kinds(&self, slot: u32) -> Kinds {
        match &self.all_known.known {
            Some(known) => kinds_at(&known.knowledge, slot),
            None => Kinds([None; 11]),
        }
    }

    /// Writes what paths to a refused slot say of a register that it reads, where it isn't the same.
    pub fn write_differing<W: Write>(&self, output: &mut W, refused: Refused) -> io::Result<()> {
        match &self.all_known.known {
            Some(known) => known.write_differing(self.alloc, output, &self.checked, refused),
            None => Ok(()),
        }
    }

    /// What is shown at an instruction.
    pub fn items(&self, slot: u32, insn: &Insn, detail: Detail) -> Result<Vec<Item>, AllocError> {
        let mut items = Vec::new(self.alloc);
        if let Some(known) = &self.all_known.known {
            if known.knowledge.reaches(slot) {
                self.push_known(&mut items, slot, insn, known, detail)?;
            } else {
                items.push(Item::NotReached)?;
            }
        }
        if let Some(verified) = &self.all_known.verified {
            push_frames(&mut items, slot, verified, detail)?;
        }
        Ok(items)
    }

    /// Adds what is known at a slot, and where the paths that join there say different things.
    fn push_known(
        &self,
        items: &mut Vec<Item>,
        slot: u32,
        insn: &Insn,
        known: &Known,
        detail: Detail,
    ) -> Result<(), AllocError> {
        let knowledge = &known.knowledge;
        let locations = match detail {
            Detail::Read => self.reads(slot, insn)?,
            Detail::All => all_locations(self.alloc)?,
        };
        if locations.is_empty() {
            return Ok(());
        }
        let edges = known.edges.fulfilling(self.alloc, knowledge, slot)?;
        for location in &locations {
            let location = *location;
            let fact = Fact::at(knowledge, slot, location);
            if fact.is_some() || detail == Detail::Read {
                items.push(Item::Known { location, fact })?;
            }
            if let Some(differing) = Differing::of(location, edges.as_slice()) {
                items.push(Item::Differs(differing))?;
            }
        }
        Ok(())
    }

    /// The slots from which paths join at a slot: none where fewer than two lead there.
    pub fn sources(&self, slot: u32) -> Result<Vec<u32>, AllocError> {
        let mut sources = Vec::new(self.alloc);
        let Some(known) = &self.all_known.known else {
            return Ok(sources);
        };
        for edge in &known.edges.fulfilling(self.alloc, &known.knowledge, slot)? {
            sources.push(edge.from)?;
        }
        Ok(sources)
    }

    /// What an instruction reads: registers, and then bytes of the stack. R10 is what it always is.
    pub fn reads(&self, slot: u32, insn: &Insn) -> Result<Vec<Location>, AllocError> {
        let mut locations = Vec::new(self.alloc);
        for register in registers_read(insn) {
            let location = Location::Register(register);
            if register < FRAME_POINTER && !locations.contains(&location) {
                locations.push(location)?;
            }
        }
        if let Some(known) = &self.all_known.known {
            self.push_stack_read(&mut locations, slot, insn, &known.knowledge)?;
        }
        Ok(locations)
    }

    /// Adds the bytes of the stack that an instruction reads.
    fn push_stack_read(
        &self,
        locations: &mut Vec<Location>,
        slot: u32,
        insn: &Insn,
        knowledge: &Knowledge,
    ) -> Result<(), AllocError> {
        let value_size = self.named_value_size(slot, knowledge);
        for register in registers_read(insn) {
            if register > FRAME_POINTER {
                continue;
            }
            let Some(kind) = knowledge.kind(slot, register) else {
                continue;
            };
            let Some(seen) = Seen::by(insn, register, kind, value_size) else {
                continue;
            };
            push_eights(locations, seen)?;
        }
        Ok(())
    }

    /// How many bytes the values of the map have that R1 names.
    fn named_value_size(&self, slot: u32, knowledge: &Knowledge) -> Option<u32> {
        match knowledge.kind(slot, 1)? {
            Kind::MapName(map) => Some(self.checked.shapes.get(map as usize)?.as_ref()?.value_size),
            _ => None,
        }
    }
}

/// Adds slots of the stack.
fn push_eights(locations: &mut Vec<Location>, seen: Seen) -> Result<(), AllocError> {
    for eight in seen.first..seen.end {
        locations.push(Location::Stack(eight))?;
    }
    Ok(())
}

/// Adds how many frames an instruction may take, of how many that the rest may need from there on.
fn push_frames(
    items: &mut Vec<Item>,
    slot: u32,
    verified: &Verified,
    detail: Detail,
) -> Result<(), AllocError> {
    let reserve = verified.reserve(slot);
    let cost = reserve.saturating_sub(verified.reserve(slot.saturating_add(1)));
    if cost == 0 && (reserve == 0 || detail == Detail::Read) {
        return Ok(());
    }
    items.push(Item::Frames { cost, reserve })?;
    Ok(())
}

/// What is known of the registers at a slot.
fn kinds_at(knowledge: &Knowledge, slot: u32) -> Kinds {
    let mut kinds = [None; 11];
    for register in 0..FRAME_POINTER + 1 {
        kinds[usize::from(register)] = knowledge.kind(slot, register);
    }
    Kinds(kinds)
}

/// All registers, and after them all of the stack.
fn all_locations(alloc: Global) -> Result<Vec<Location>, AllocError> {
    let mut locations = Vec::new(alloc);
    for register in 0..FRAME_POINTER + 1 {
        locations.push(Location::Register(register))?;
    }
    for eight in 0..STACK_SLOTS {
        locations.push(Location::Stack(eight))?;
    }
    Ok(locations)
}
