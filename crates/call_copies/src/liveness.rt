//! Which registers are read later.

use crate::instruction::Insn;
use crate::stop::{NotInlined, Stop};
use std::alloc::Global;

/// How often registers are followed through a text before it is given up: jumps back are seldom nested deeper.
pub(crate) const ROUNDS: u32 = 64;

/// R6 to R9, which a call keeps.
pub(crate) const KEPT: u16 = 0x3c0;

pub(crate) const KEPT_REGISTERS: [u8; 4] = [6, 7, 8, 9];

/// Of each slot of a text, the registers among R6 to R9 that may be read from it on before they are written, a bit each.
pub(crate) fn live(alloc: Global, text: &[u8]) -> Result<Vec<u16>, NotInlined> {
    let slots = text.len() / 8;
    let mut live: Vec<u16> = Vec::new(alloc);
    for _slot in 0..=slots {
        live.push(0)?;
    }
    for _round in 0..ROUNDS {
        if !add_live(text, live.as_mut_slice()) {
            return Ok(live);
        }
    }
    Err(Stop::Tangled.at(0))
}

/// Adds what is live by what is live after it. Answers whether something was added.
fn add_live(text: &[u8], live: &mut [u16]) -> bool {
    let mut added = false;
    for slot in (0..text.len() / 8).rev() {
        let Some(insn) = Insn::at(text, slot) else {
            continue;
        };
        let before = (insn.reads() | live_after(&insn, slot, live) & !insn.writes()) & KEPT;
        if let Some(known) = live.get_mut(slot) {
            added = added || *known != before;
            *known = before;
        }
    }
    added
}

/// What is live after an instruction.
pub(crate) fn live_after(insn: &Insn, slot: usize, live: &[u16]) -> u16 {
    if insn.is_exit() {
        return 0;
    }
    let jumped = match insn.target(slot) {
        Some(target) => live_at(live, target),
        None => 0,
    };
    if insn.is_jump() {
        return jumped;
    }
    jumped | live_at(live, insn.next(slot))
}

fn live_at(live: &[u16], slot: usize) -> u16 {
    live.get(slot).copied().unwrap_or(0)
}

/// The registers among R6 to R9 that a text writes.
pub(crate) fn written(text: &[u8]) -> u16 {
    let mut written = 0;
    for slot in 0..text.len() / 8 {
        if let Some(insn) = Insn::at(text, slot) {
            written |= insn.writes() & KEPT;
        }
    }
    written
}
