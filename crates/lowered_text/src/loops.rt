//! The loops of a text, and their copies in a lowered one.

use advice::loop_closed;
use lowering::Lowered;
use std::alloc::{AllocError, Global};

/// A loop of a text: the slot to which its jump back leads, and that of the jump.
#[derive(Clone, Copy, PartialEq, Eq)]
pub struct Loop {
    pub first: u32,
    pub last: u32,
}

/// Where the copies of slots stand in a lowered text.
#[derive(Clone, Copy)]
pub struct Copies<'a> {
    pub text: &'a [u8],
    pub lowered: &'a Lowered,
}

/// The loops that jumps back of a text close, by the slots to which they lead: where several lead to one slot, up to the
/// last of them.
pub fn loops_of(alloc: Global, text: &[u8]) -> Result<Vec<Loop>, AllocError> {
    let mut loops: Vec<Loop> = Vec::new(alloc);
    for last in 0..u32::try_from(text.len() / 8).unwrap_or(0) {
        let Some(first) = loop_closed(text, last) else {
            continue;
        };
        match loops.iter_mut().find(|found| found.first == first) {
            Some(found) => found.last = last,
            None => loops.push(Loop { first, last })?,
        }
    }
    Ok(loops)
}

/// Whether a slot stands in a loop of a text.
pub fn is_in_loop(text: &[u8], slot: u32) -> bool {
    for last in slot..u32::try_from(text.len() / 8).unwrap_or(0) {
        if matches!(loop_closed(text, last), Some(first) if first <= slot) {
            return true;
        }
    }
    false
}

impl Copies<'_> {
    /// The slot for which an instruction of the lowered text stands; none for a jump that was inserted. A copy has the same opcode, or
    /// that of the negated comparison.
    pub fn origin(&self, at: usize) -> Option<u32> {
        let origin = *self.lowered.origins.get(at)?;
        let own = opcode_at(self.lowered.text.as_slice(), at)?;
        let copied = opcode_at(self.text, usize::from(origin))?;
        if own == GOTO && copied != GOTO {
            None
        } else {
            Some(u32::from(origin))
        }
    }

    /// How many copies of a slot there are.
    pub fn of(&self, slot: u32) -> usize {
        let mut copies: usize = 0;
        for at in 0..self.lowered.origins.len() {
            if self.origin(at) == Some(slot) {
                copies = copies.saturating_add(1);
            }
        }
        copies
    }
}

/// The opcode of jumps that are inserted: JA (RFC 9669, section 4.3).
const GOTO: u8 = 0x05;

/// The opcode of a slot.
fn opcode_at(text: &[u8], slot: usize) -> Option<u8> {
    text.get(slot.checked_mul(8)?).copied()
}
