//! The rules that an instruction breaks. All are asked; the smallest number is named.

use crate::description::Description;
use crate::kind::Kind;
use bpf_decode::FRAME_POINTER;
use host_types::rule::{FRAME_WRITTEN, NULL_NOT_CHECKED, UNSET_REGISTER, WRONG_KIND};

/// The smallest number of the rules that are broken, as far as they were asked.
#[derive(Clone, Copy)]
pub(crate) struct Rules {
    pub(crate) smallest: Option<u32>,
}

impl Rules {
    /// Before any question.
    pub(crate) fn new() -> Rules {
        Rules { smallest: None }
    }

    /// A rule is broken.
    pub(crate) fn broken(&mut self, number: u32) {
        self.smallest = match self.smallest {
            Some(smaller) if smaller <= number => Some(smaller),
            _ => Some(number),
        };
    }

    /// A rule is broken unless this holds.
    pub(crate) fn ask(&mut self, holds: bool, number: u32) {
        if !holds {
            self.broken(number);
        }
    }

    /// What is known of a register that is read, which has to be set.
    pub(crate) fn read(&mut self, known: &Description, register: u8) -> Kind {
        let kind = known.register(register);
        self.ask(kind != Kind::Unset, UNSET_REGISTER);
        kind
    }

    /// A register is written, which may not be R10.
    pub(crate) fn write(&mut self, register: u8) {
        self.ask(register != FRAME_POINTER, FRAME_WRITTEN);
    }

    /// A kind stands where it may not. Of one that isn't set another rule speaks.
    pub(crate) fn wrong(&mut self, kind: Kind) {
        match kind {
            Kind::Unset => {}
            Kind::MaybeValue { .. } => self.broken(NULL_NOT_CHECKED),
            _ => self.broken(WRONG_KIND),
        }
    }
}
