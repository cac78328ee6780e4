//! What the paths to a refused slot say.

use crate::listed::Known;
use crate::location::{Differing, Location};
use bpf_decode::{FRAME_POINTER, Insn};
use findings::{CheckedText, registers_read};
use host_types::Refused;
use host_types::rule::UNSET_REGISTER;
use std::alloc::Global;
use std::io;
use std::io::Write;

/// Writes of each register that an instruction reads, where it is refused since nothing is known of one, what paths to the
/// slot say if that isn't the same, each after a `; `: `r1: context from 1, 0 from 2`. Of other refusals, and where there is
/// no memory, nothing is written.
pub fn write_differing<W: Write>(
    alloc: Global,
    output: &mut W,
    checked: &CheckedText<'_>,
    refused: Refused,
) -> io::Result<()> {
    if refused.number != UNSET_REGISTER {
        return Ok(());
    }
    match Known::of(alloc, checked) {
        Some(known) => known.write_differing(alloc, output, checked, refused),
        None => Ok(()),
    }
}

impl Known {
    /// The same where what is known is at hand.
    pub fn write_differing<W: Write>(
        &self,
        alloc: Global,
        output: &mut W,
        checked: &CheckedText<'_>,
        refused: Refused,
    ) -> io::Result<()> {
        let slot = refused.slot;
        let (UNSET_REGISTER, Some(insn)) = (refused.number, Insn::at(checked.text, slot as usize))
        else {
            return Ok(());
        };
        let Ok(edges) = self.edges.fulfilling(alloc, &self.knowledge, slot) else {
            return Ok(());
        };
        for register in registers_read(&insn) {
            if register >= FRAME_POINTER || self.knowledge.kind(slot, register).is_some() {
                continue;
            }
            if let Some(differing) = Differing::of(Location::Register(register), edges.as_slice()) {
                write!(output, "; {differing}")?;
            }
        }
        Ok(())
    }
}
