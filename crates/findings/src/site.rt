use crate::CheckedText;
use bpf_decode::{FRAME_POINTER, Insn};
use host_types::Refused;
use knowledge::Knowledge;
use verifier_kinds::Kind;

/// What is known of each register.
#[derive(Clone, Copy)]
pub struct Kinds(pub [Option<Kind>; 11]);

impl Kinds {
    /// Those at a slot of a text.
    pub fn at(knowledge: &Knowledge, slot: u32) -> Kinds {
        let mut kinds = [None; 11];
        for register in 0..FRAME_POINTER + 1 {
            kinds[usize::from(register)] = knowledge.kind(slot, register);
        }
        Kinds(kinds)
    }

    /// What is known of a register.
    pub fn of(&self, register: u8) -> Option<Kind> {
        *self.0.get(usize::from(register))?
    }
}

/// The slot of a refusal, what stands there, and what was known there.
#[derive(Clone, Copy)]
pub struct Site<'a> {
    pub checked: CheckedText<'a>,
    pub refused: Refused,
    pub insn: Insn,
    pub kinds: Kinds,
}

impl<'a> Site<'a> {
    /// What was known of a register.
    pub fn kind(&self, register: u8) -> Option<Kind> {
        self.kinds.of(register)
    }

    /// How many bytes the values of a map have.
    pub fn value_size(&self, map: u32) -> Option<u32> {
        let shape = self.checked.shapes.get(map as usize)?.as_ref()?;
        Some(shape.value_size)
    }

    /// How many bytes the values of the map have that R1 names.
    pub fn named_value_size(&self) -> Option<u32> {
        match self.kind(1)? {
            Kind::MapName(map) => self.value_size(map),
            _ => None,
        }
    }
}
