//! Calls of functions, and instructions that clang emits and this host doesn't have, in words that say how to do without them.

use crate::field::{part_at, u32_at};
use object_error::Cause;

/// The opcode of the wide instruction, which takes two slots.
pub(crate) const WIDE: u8 = 0x18;

/// The opcode of calls: of a helper with source 0, of a function with 1, of a kernel function with 2.
pub(crate) const CALL: u8 = 0x85;

/// The distance of the call of a function at an offset of a text, in slots: one more than its immediate.
pub(crate) fn call_at(text: &[u8], at: usize) -> Option<i64> {
    let slot = part_at(text, at, 8)?;
    if slot[0] != CALL || slot[1] / 16 != 1 {
        return None;
    }
    Some(i64::from(u32_at(slot, 4)?.cast_signed()) + 1)
}

/// An offset as many slots away.
pub(crate) fn moved(offset: usize, slots: i64) -> Option<usize> {
    let offset = i64::try_from(offset).ok()?;
    usize::try_from(offset.checked_add(slots.checked_mul(8)?)?).ok()
}

/// What is wrong with the instruction of an opcode and a source, if there is none of it here.
pub(crate) fn missing(opcode: u8, source: u8) -> Option<Cause> {
    match (opcode, source) {
        (CALL, 2) => Some(Cause::HelperByBtf),
        (0xc3 | 0xdb, _) => Some(Cause::Atomic),
        (0x20 | 0x28 | 0x30 | 0x40 | 0x48 | 0x50, _) => Some(Cause::PacketAccess),
        _ => None,
    }
}

/// The first instruction of a text that isn't here: its offset, and what is wrong.
pub(crate) fn first_missing(text: &[u8]) -> Option<(usize, Cause)> {
    let mut is_second = false;
    for (slot, bytes) in text.chunks_exact(8).enumerate() {
        let opcode = bytes[0];
        if is_second {
            is_second = false;
            continue;
        }
        if let Some(cause) = missing(opcode, bytes[1] / 16) {
            return Some((8 * slot, cause));
        }
        is_second = opcode == WIDE;
    }
    None
}
