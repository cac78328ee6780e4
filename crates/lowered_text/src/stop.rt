//! What stopped a lowering.

use crate::loops::is_in_loop;
use advice::{Advice, advice_on_text, on_endless_loop, on_load_in_loop, on_unlowered_jump};
use bpf_decode::{Insn, Operation};
use disassembly::Assembly;
use engines::check::{CheckRequest, answer_request};
use engines::written;
use host_file::FileFault;
use host_types::Refused;
use host_types::rule::{BACK_JUMP, OUTSIDE_CONTEXT};
use lowering::{NotLowered, Stop};
use std::alloc::Global;
use std::io::{self, Write};

/// Writes what `check` writes of a text that isn't lowered. Of a jump back it doesn't advise the lowering that was stopped.
pub fn write_refused<W: Write, E: Write>(
    alloc: Global,
    asked: &CheckRequest,
    stopped: &NotLowered,
    output: &mut W,
    errors: &mut E,
) -> Result<(), FileFault> {
    if stopped.refused.number == BACK_JUMP && !is_own(stopped) {
        written(writeln!(output, "{}", stopped.refused.fault()))?;
        return written(write_jump(asked.text.as_slice(), stopped.refused, errors));
    }
    let _status = answer_request(alloc, asked, output, errors)?;
    Ok(())
}

/// Writes the jump back at which a text that isn't lowered is refused.
fn write_jump<E: Write>(text: &[u8], refused: Refused, errors: &mut E) -> io::Result<()> {
    write!(errors, "slot {}", refused.slot)?;
    write_insn(text, refused, errors)?;
    let advice = on_unlowered_jump(text, refused.slot);
    writeln!(errors, ": {}; {}", advice.wrong, advice.fix)
}

/// Writes what stopped the lowering of a text, if that isn't the text's own refusal. Its slots are the text's.
pub fn write_stop<E: Write>(text: &[u8], stopped: &NotLowered, errors: &mut E) -> io::Result<()> {
    if is_own(stopped) {
        return Ok(());
    }
    write!(errors, "not lowered: ")?;
    match stopped.stop {
        Stop::Rule { refused, copy } => write_rule(text, refused, copy, errors)?,
        Stop::Endless {
            header,
            first,
            last,
            copies,
        } => write!(
            errors,
            "no range ends the loop of slots {first} to {last}, entered at {header}, within 4096 slots: {copies} copies of it fill them; {}",
            on_endless_loop()
        )?,
        Stop::TooLong => write!(
            errors,
            "with its blocks in order it has more than 4096 slots"
        )?,
        Stop::Nested { slot } => write!(errors, "the loops at slot {slot} are nested too deep")?,
        Stop::Uncovered => write!(errors, "the lowered text doesn't cover it")?,
        Stop::OutOfMemory => write!(errors, "out of memory")?,
    }
    writeln!(errors)
}

/// Writes the rule that a copy of a slot of a text breaks where its blocks are in order and its loops are copied.
fn write_rule<E: Write>(
    text: &[u8],
    refused: Refused,
    copy: u32,
    errors: &mut E,
) -> io::Result<()> {
    write!(errors, "copy {copy} of the slot is {}", refused.fault())?;
    write_insn(text, refused, errors)?;
    match advice_on_copy(text, refused, copy) {
        Some(advice) => write!(errors, ": {}; {}", advice.wrong, advice.fix),
        None => Ok(()),
    }
}

/// Writes the instruction at a refused slot, if there is one.
fn write_insn<E: Write>(text: &[u8], refused: Refused, errors: &mut E) -> io::Result<()> {
    match Insn::at(text, refused.slot as usize) {
        Some(insn) => {
            let insn = Assembly(insn);
            write!(errors, ": {insn}")
        }
        None => Ok(()),
    }
}

/// The advice on a rule that a copy of a slot breaks.
fn advice_on_copy(text: &[u8], refused: Refused, copy: u32) -> Option<Advice> {
    let is_further_load = copy > 1
        && refused.number == OUTSIDE_CONTEXT
        && loads(text, refused.slot);
    if is_further_load && is_in_loop(text, refused.slot) {
        Some(on_load_in_loop())
    } else {
        advice_on_text(refused, text)
    }
}

/// Whether the instruction at a slot loads from memory.
fn loads(text: &[u8], slot: u32) -> bool {
    match Insn::at(text, slot as usize) {
        Some(insn) => matches!(Operation::of(insn.opcode), Some(Operation::Load { .. })),
        None => false,
    }
}

/// Whether the text's own refusal is what stopped its lowering.
fn is_own(stopped: &NotLowered) -> bool {
    matches!(stopped.stop, Stop::Rule { refused, .. } if refused == stopped.refused)
}
