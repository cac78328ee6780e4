//! Texts of which slots became more or fewer: where each begins, and jumps that lead there.

use crate::instruction::Insn;
use crate::stop::{NotInlined, Stop};
use std::alloc::Global;

/// The most slots of a text.
pub const MOST_SLOTS: usize = 4096;

/// Where the slots of a text begin in a new one, and where it ends.
#[derive(Drop)]
pub(crate) struct Begins {
    at: Vec<usize>,
    end: usize,
}

impl Begins {
    pub fn new(alloc: Global) -> Self {
        Begins {
            at: Vec::new(alloc),
            end: 0,
        }
    }

    /// Adds a slot for which so many stand in the new text.
    pub fn add(&mut self, slots: usize) -> Result<(), NotInlined> {
        let slot = self.at.len();
        self.at.push(self.end)?;
        match self.end.checked_add(slots) {
            Some(end) if end <= MOST_SLOTS => self.end = end,
            _ => return Err(Stop::TooLong.at(slot)),
        }
        Ok(())
    }

    /// Where the new text ends.
    pub fn end(&self) -> usize {
        self.end
    }

    /// Where a slot begins in the new text; the one after the last is its end.
    fn of(&self, slot: usize) -> Option<usize> {
        if slot == self.at.len() {
            return Some(self.end);
        }
        self.at.get(slot).copied()
    }

    /// The distance of a jump in the new text, where it stands at a slot there.
    fn offset(&self, insn: &Insn, slot: usize, at: usize) -> Option<i16> {
        offset_to(at, self.of(insn.target(slot)?)?)
    }

    /// An instruction as it stands in the new text at a slot of its own: where it jumps, to the slot that stands for its target.
    pub fn moved(&self, insn: Insn, slot: usize, at: usize) -> Result<Insn, NotInlined> {
        if insn.distance().is_none() {
            return Ok(insn);
        }
        let Some(offset) = self.offset(&insn, slot, at) else {
            return Err(Stop::JumpOut.at(slot));
        };
        if insn.is_jump() {
            return Ok(Insn::jump(offset));
        }
        Ok(Insn { offset, ..insn })
    }
}

/// The distance of a jump between slots.
pub(crate) fn offset_to(at: usize, target: usize) -> Option<i16> {
    let at = i64::try_from(at).ok()?.checked_add(1)?;
    i16::try_from(i64::try_from(target).ok()?.checked_sub(at)?).ok()
}
