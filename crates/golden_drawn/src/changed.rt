//! Texts that programs become by a few changes.

use crate::choices::{immediate, index_offset, one_of};
use crate::instructions::instruction;
use std::alloc::{AllocError, Global};
use tests_inputs::texts::{COUNTER, GUARDED, MASKED, RETURN, STORES, UPDATE};
use tests_inputs::{BITS, Draws, flip};

/// A program that is accepted.
fn program(draws: &mut Draws) -> &'static [u8] {
    match draws.below(16) {
        0 => &RETURN,
        1..=3 => &COUNTER,
        4..=5 => &STORES,
        6..=9 => &MASKED,
        10..=12 => &GUARDED,
        _ => &UPDATE,
    }
}

/// Overwrites bytes of a text from one on, as far as it has them.
fn put(text: &mut [u8], at: usize, bytes: &[u8]) {
    for number_of_byte in 0..bytes.len() {
        if let Some(byte) = text.get_mut(at.saturating_add(number_of_byte)) {
            *byte = bytes[number_of_byte];
        }
    }
}

/// Changes the slot that begins at a byte.
fn change(text: &mut [u8], at: usize, draws: &mut Draws) {
    match draws.below(8) {
        0 => flip(
            text,
            at.saturating_add(draws.below(8) as usize),
            one_of(draws, &BITS),
        ),
        1 | 2 => put(text, at.saturating_add(4), &immediate(draws).to_le_bytes()),
        3 => put(
            text,
            at.saturating_add(2),
            &index_offset(draws, 0).to_le_bytes(),
        ),
        _ => put(text, at, &instruction(draws).bytes()),
    }
}

/// A text that is changed from a program in one or two slots.
pub(crate) fn changed_text(alloc: Global, draws: &mut Draws) -> Result<Vec<u8>, AllocError> {
    let mut text = program(draws).to_vec(alloc)?;
    let slots = u32::try_from(text.len() / 8).unwrap_or(1).max(1);
    for _ in 0..draws.below(2) + 1 {
        let slot = draws.below(slots) as usize;
        change(text.as_mut_slice(), slot.saturating_mul(8), draws);
    }
    Ok(text)
}
