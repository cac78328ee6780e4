//! What a pass answers, in the types of `verifier_kinds`.

use crate::description::{Description, StackSlot};
use crate::kind::Kind;
use crate::range::Range;
use host_types::Refused;
use verifier_kinds::{Align, Offsets};

/// What is known at each slot of a text, in order: a description, or nothing where the slot isn't reached.
#[derive(Drop)]
pub struct Table {
    pub(crate) slots: Vec<Option<Description>>,
}

/// How a text was verified.
#[derive(Drop)]
pub enum Verdict {
    /// No slot that is reached breaks a rule.
    Accepted(Table),
    /// A slot breaks a rule: it's the first, and the number is the smallest there. The table ends with what is
    /// known at that slot.
    Refused { table: Table, refused: Refused },
}

/// The alignment that a factor is.
fn align_of(factor: i128) -> Align {
    match factor {
        8 => Align::Eight,
        4 => Align::Four,
        2 => Align::Two,
        _ => Align::One,
    }
}

/// A range of numbers as `verifier_kinds` has it.
fn numbers(range: Range) -> verifier_kinds::Range {
    verifier_kinds::Range {
        low: u64::try_from(range.low).unwrap_or(u64::MAX),
        high: u64::try_from(range.high).unwrap_or(u64::MAX),
        align: align_of(range.factor),
    }
}

/// An offset as `verifier_kinds` keeps it, 65536 greater.
fn kept_offset(offset: i128) -> u32 {
    u32::try_from(offset.saturating_add(65_536)).unwrap_or(u32::MAX)
}

/// An offset of the context or the stack.
fn small(offset: i128) -> i32 {
    i32::try_from(offset).unwrap_or(i32::MAX)
}

/// A kind as `verifier_kinds` has it; for one that isn't set there is none.
fn shown(kind: Kind) -> Option<verifier_kinds::Kind> {
    match kind {
        Kind::Unset => None,
        Kind::Scalar(range) => Some(verifier_kinds::Kind::Scalar(numbers(range))),
        Kind::Context(offset) => Some(verifier_kinds::Kind::Context(small(offset))),
        Kind::Stack(offset) => Some(verifier_kinds::Kind::Stack(small(offset))),
        Kind::MapValue { map, offsets } => Some(verifier_kinds::Kind::MapValue {
            map,
            offsets: Offsets {
                low: kept_offset(offsets.low),
                high: kept_offset(offsets.high),
                align: align_of(offsets.factor),
            },
        }),
        Kind::MaybeValue { map, call } => Some(verifier_kinds::Kind::MaybeValue { map, call }),
        Kind::MapName(map) => Some(verifier_kinds::Kind::MapName(map)),
    }
}

/// A slot of the stack as `verifier_kinds` has it.
fn shown_slot(slot: StackSlot) -> verifier_kinds::StackSlot {
    match slot {
        StackSlot::Bytes(set) => verifier_kinds::StackSlot::Bytes(set),
        StackSlot::Kept(kind) => match shown(kind) {
            Some(kind) => verifier_kinds::StackSlot::Kept(kind),
            None => verifier_kinds::StackSlot::Bytes(0),
        },
    }
}

/// A description as `verifier_kinds` has it.
fn shown_description(known: &Description) -> verifier_kinds::Description {
    let mut registers = [None; 11];
    for register in 0..11 {
        registers[register] = shown(known.registers[register]);
    }
    verifier_kinds::Description {
        registers,
        stack: shown_stack(known),
    }
}

/// The stack of a description as `verifier_kinds` has it.
fn shown_stack(known: &Description) -> [verifier_kinds::StackSlot; 64] {
    let mut stack = [verifier_kinds::StackSlot::Bytes(0); 64];
    for index in 0..64 {
        stack[index] = shown_slot(known.stack[index]);
    }
    stack
}

impl Table {
    /// What is known of a register at a slot: `None` where nothing is known of it, or where the slot isn't
    /// reached.
    pub fn kind(&self, slot: u32, register: u8) -> Option<verifier_kinds::Kind> {
        match self.slots.get(slot as usize) {
            Some(Some(known)) => shown(known.register(register)),
            _ => None,
        }
    }

    /// What is known at a slot: `None` where the slot isn't reached, or lies after the table's last one.
    pub fn description(&self, slot: u32) -> Option<verifier_kinds::Description> {
        match self.slots.get(slot as usize) {
            Some(Some(known)) => Some(shown_description(known)),
            _ => None,
        }
    }
}
