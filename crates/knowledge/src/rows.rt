//! The rows of a listing: each slot in one of them.

ghost use Rattle.std.specs.Prelude.{◌≡◌, ◌<◌, ◌≤◌, ◌^◌, length, IfOk};
ghost use Rattle.knowledge.specs.Rows.{first_slot, last_slot, AreRows};

use std::alloc::{AllocError, Global};

/// A row of a listing.
#[derive(Clone, Copy, PartialEq, Eq)]
pub enum Row {
    /// A slot at which an instruction begins.
    Instruction(u32),
    /// The second half of a wide instruction.
    SecondHalf(u32),
    /// Slots of further copies of a loop, which are left out.
    Folded { first: u32, last: u32 },
}

impl Row {
    /// The last slot.
    pub fn last(&self) -> u32
        ensures { result ≡ last_slot self.now }
    {
        match self {
            Row::Instruction(slot) | Row::SecondHalf(slot) => *slot,
            Row::Folded { last, .. } => *last,
        }
    }
}

/// What a slot is in a listing.
#[derive(Clone, Copy, PartialEq, Eq)]
pub enum Slot {
    /// An instruction begins there.
    First,
    /// It is the second half of a wide instruction.
    SecondHalf,
    /// It is left out.
    Folded,
}

/// The rows of slots, of which those that are left out one after the other have one. It fails where there is no memory for them.
#[tactic(auto, using(crate::proofs::InOrder::pushed_row))]
pub fn rows_of(alloc: Global, slots: &[Slot]) -> Result<Vec<Row>, AllocError>
    requires { length slots.now < 2 ^ 32 }
    ensures { IfOk result (λ rows. AreRows rows.items 0 (length slots.now)) }
{
    let mut rows = Vec::new(alloc);
    let mut next: u32 = 0;
    for slot in 0..slots.len() as u32 {
        if slot < next {
            continue;
        }
        let row = row_at(slots, slot);
        rows.push(row)?;
        next = row.last() + 1;
    }
    Ok(rows)
}

/// The row that begins at a slot.
fn row_at(slots: &[Slot], slot: u32) -> Row
    requires within { slot < length slots.now }
    requires short { length slots.now < 2 ^ 32 }
    ensures first { first_slot result ≡ slot }
    ensures last { slot ≤ last_slot result }
    ensures end { last_slot result < length slots.now }
{
    match slots[slot as usize] {
        Slot::First => Row::Instruction(slot),
        Slot::SecondHalf => Row::SecondHalf(slot),
        Slot::Folded => Row::Folded {
            first: slot,
            last: fold_end(slots, slot),
        },
    }
}

/// The last of the slots that are left out from a slot on.
fn fold_end(slots: &[Slot], first: u32) -> u32
    requires within { first < length slots.now }
    requires short { length slots.now < 2 ^ 32 }
    ensures last { first ≤ result }
    ensures end { result < length slots.now }
{
    let mut last = first;
    for slot in first..slots.len() as u32 {
        if slots[slot as usize] != Slot::Folded {
            break;
        }
        last = slot;
    }
    last
}
