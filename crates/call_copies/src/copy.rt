//! A copy of a function's text where it is called: its stack lies below that of the caller, and it ends where the copy ends.

use crate::expansion::{Begins, offset_to};
use crate::inlined::{Inlined, Origin};
use crate::instruction::{FRAME_POINTER, Insn};
use crate::stop::{NotInlined, Stop};
use std::alloc::Global;

/// A copy of a text without calls of functions, whose stack lies so many bytes lower. Its exits lead to its end.
pub(crate) fn copied(alloc: Global, called: &Inlined, shift: i16) -> Result<Inlined, NotInlined> {
    let text = called.text.as_slice();
    let begins = begins_of(alloc, text)?;
    let mut copy = Inlined::new(alloc);
    let mut is_second = false;
    for (slot, origin) in called.origins.iter().enumerate() {
        let Some(insn) = Insn::at(text, slot) else {
            continue;
        };
        if is_second {
            is_second = false;
            copy.push(&insn, *origin)?;
            continue;
        }
        is_second = insn.is_wide();
        if insn.is_exit() {
            push_exit(&begins, slot, *origin, &mut copy)?;
        } else {
            push_lower(&begins, insn, slot, shift, *origin, &mut copy)?;
        }
    }
    Ok(copy)
}

/// Where the slots of a text begin in a copy: a copy of R10 takes two, and the exit at the end none.
fn begins_of(alloc: Global, text: &[u8]) -> Result<Begins, NotInlined> {
    let slots = text.len() / 8;
    let mut begins = Begins::new(alloc);
    let mut is_second = false;
    for slot in 0..slots {
        let Some(insn) = Insn::at(text, slot) else {
            continue;
        };
        if is_second {
            is_second = false;
            begins.add(1)?;
            continue;
        }
        is_second = insn.is_wide();
        begins.add(slots_of(&insn, slot + 1 == slots))?;
    }
    Ok(begins)
}

/// How many slots stand for an instruction.
fn slots_of(insn: &Insn, is_last: bool) -> usize {
    if insn.copies_frame_pointer() {
        2
    } else if insn.is_exit() && is_last {
        0
    } else {
        1
    }
}

/// Appends what stands for an exit: a jump to the end of the copy, where more follows.
fn push_exit(
    begins: &Begins,
    slot: usize,
    origin: Origin,
    copy: &mut Inlined,
) -> Result<(), NotInlined> {
    let at = copy.slots();
    if at == begins.end() {
        return Ok(());
    }
    match offset_to(at, begins.end()) {
        Some(offset) => copy.push(&Insn::jump(offset), origin),
        None => Err(Stop::TooLong.at(slot)),
    }
}

/// Appends an instruction whose stack lies lower.
fn push_lower(
    begins: &Begins,
    insn: Insn,
    slot: usize,
    shift: i16,
    origin: Origin,
    copy: &mut Inlined,
) -> Result<(), NotInlined> {
    if insn.copies_frame_pointer() {
        copy.push(&insn, origin)?;
        let lower = Insn::addition(insn.dst, i32::from(shift).saturating_neg());
        return copy.push(&lower, origin);
    }
    if insn.base() != Some(FRAME_POINTER) {
        let at = copy.slots();
        return copy.push(&begins.moved(insn, slot, at)?, origin);
    }
    match insn.offset.checked_sub(shift) {
        Some(offset) => copy.push(&Insn { offset, ..insn }, origin),
        None => Err(Stop::StackSize.at(slot)),
    }
}
