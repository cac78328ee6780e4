//! What is verified: a text, the shapes of the maps that it may use, and the size of its context.

use bpf_decode::{Insn, Program};
use host_types::Shape;

/// A text with the shapes of maps by number and the size of its context.
#[derive(Clone, Copy)]
pub(crate) struct Given<'a> {
    pub(crate) program: &'a Program,
    pub(crate) shapes: &'a [Option<Shape>],
    pub(crate) context_size: i128,
}

impl Given<'_> {
    /// How many slots the text has.
    pub(crate) fn slots(&self) -> u32 {
        self.program.slots()
    }

    /// The instruction that begins at a slot; `None` past the end, and at the second slot of a wide one.
    pub(crate) fn insn(&self, slot: u32) -> Option<Insn> {
        if slot < self.program.slots() && self.program.begins(slot) {
            Some(self.program.insn(slot))
        } else {
            None
        }
    }

    /// How many bytes the values of a map have; `None` if the tenant has no such map.
    pub(crate) fn value_size(&self, map: u32) -> Option<i128> {
        match self.shapes.get(map as usize) {
            Some(Some(shape)) => Some(i128::from(shape.value_size)),
            _ => None,
        }
    }
}
