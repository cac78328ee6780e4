//! Texts that are built of instructions: a beginning that gives most registers a meaning, a few instructions that are
//! drawn, and an end.

use crate::choices::{immediate, rarely};
use crate::instructions::{Slot, instruction};
use std::alloc::{AllocError, Global};
use tests_inputs::Draws;

/// The most instructions that are drawn.
const BODY: u32 = 10;

/// Appends a slot.
fn push(text: &mut Vec<u8>, slot: Slot) -> Result<(), AllocError> {
    text.extend_from_slice(&slot.bytes())
}

/// Appends a wide instruction.
fn push_wide(text: &mut Vec<u8>, dst: u8, src: u8, imm: i32, next: i32) -> Result<(), AllocError> {
    push(text, Slot::new(0x18, dst, src).with(imm))?;
    push(text, Slot::new(0, 0, 0).with(next))
}

/// A word of the context, the context's address, and a key on the stack.
fn begin(text: &mut Vec<u8>) -> Result<(), AllocError> {
    push(text, Slot::new(0x79, 6, 1))?;
    push(text, Slot::new(0xbf, 7, 1))?;
    push(text, Slot::new(0x7a, 10, 0).at(-8).with(1))
}

/// The address of the key, and a map's name.
fn begin_call(text: &mut Vec<u8>, map: i32) -> Result<(), AllocError> {
    push(text, Slot::new(0xbf, 2, 10))?;
    push(text, Slot::new(0x07, 2, 0).with(-8))?;
    push_wide(text, 1, 1, map, 0)
}

/// A value's address that a lookup answers; where it answers 0 the program ends.
fn look_up(text: &mut Vec<u8>) -> Result<(), AllocError> {
    push(text, Slot::new(0x85, 0, 0).with(1))?;
    push(text, Slot::new(0x55, 0, 0).at(2))?;
    push(text, Slot::new(0xb7, 0, 0))?;
    push(text, Slot::new(0x95, 0, 0))?;
    push(text, Slot::new(0xbf, 9, 0))
}

/// The address of a value of a map in R9, by a lookup or that of the first one.
fn begin_value(text: &mut Vec<u8>, map: i32, draws: &mut Draws) -> Result<(), AllocError> {
    if rarely(draws, 3) {
        begin_call(text, map)?;
        look_up(text)
    } else {
        push_wide(text, 9, 2, map, draws.below(5) as i32 * 4)
    }
}

/// All that a call needs, numbers, and in R0 sometimes what a lookup answers.
fn begin_others(text: &mut Vec<u8>, map: i32, draws: &mut Draws) -> Result<(), AllocError> {
    push(text, Slot::new(0xb7, 0, 0).with(draws.below(9) as i32))?;
    push(text, Slot::new(0xb7, 8, 0).with(12))?;
    begin_call(text, map)?;
    if rarely(draws, 12) {
        push(text, Slot::new(0x85, 0, 0).with(1))?;
        begin_call(text, map)?;
    }
    push(text, Slot::new(0xbf, 3, 2))?;
    push(text, Slot::new(0xb7, 4, 0))
}

/// Bounds R6 by a mask, or by a comparison on one of two branches.
fn bound(text: &mut Vec<u8>, draws: &mut Draws) -> Result<(), AllocError> {
    match draws.below(3) {
        0 => push(text, Slot::new(0x57, 6, 0).with(immediate(draws))),
        1 => push(
            text,
            Slot::new(0x25, 6, 0).at(1).with(draws.below(64) as i32),
        ),
        _ => Ok(()),
    }
}

/// A text that is drawn.
pub(crate) fn built_text(alloc: Global, draws: &mut Draws) -> Result<Vec<u8>, AllocError> {
    let mut text = Vec::new(alloc);
    let map = if rarely(draws, 64) {
        1
    } else {
        draws.below(2) as i32 * 2
    };
    begin(&mut text)?;
    begin_value(&mut text, map, draws)?;
    begin_others(&mut text, map, draws)?;
    bound(&mut text, draws)?;
    for _ in 0..draws.below(BODY) + 1 {
        push(&mut text, instruction(draws))?;
    }
    if !rarely(draws, 16) {
        push(&mut text, Slot::new(0xb7, 0, 0))?;
        push(&mut text, Slot::new(0x95, 0, 0))?;
    }
    Ok(text)
}
