//! A text in which copies stand for calls, and the slots for which its slots stand.

use crate::instruction::Insn;
use crate::stop::NotInlined;
use std::alloc::Global;

/// A slot of a function, by its number.
#[derive(Clone, Copy, PartialEq, Eq)]
pub struct Origin {
    pub function: usize,
    pub slot: usize,
}

/// A text, and of each of its slots the slot of a function for which it stands: of those that save and restore registers around a
/// copy it is that of the call.
#[derive(Drop)]
pub struct Inlined {
    pub text: Vec<u8>,
    pub origins: Vec<Origin>,
}

impl Inlined {
    pub(crate) fn new(alloc: Global) -> Self {
        Inlined {
            text: Vec::new(alloc),
            origins: Vec::new(alloc),
        }
    }

    /// How many slots there are.
    pub(crate) fn slots(&self) -> usize {
        self.origins.len()
    }

    /// Appends a slot that stands for another.
    pub(crate) fn push(&mut self, insn: &Insn, origin: Origin) -> Result<(), NotInlined> {
        self.text.extend_from_slice(&insn.bytes())?;
        self.origins.push(origin)?;
        Ok(())
    }

    /// Appends all slots of another.
    pub(crate) fn append(&mut self, other: &Inlined) -> Result<(), NotInlined> {
        self.text.extend_from_slice(other.text.as_slice())?;
        self.origins.extend_from_slice(other.origins.as_slice())?;
        Ok(())
    }
}
