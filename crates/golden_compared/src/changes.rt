use crate::row::Row;
use crate::runs::{Outcome, on_the_host, on_the_plain_machine};
use std::alloc::{AllocError, Global};
use tests_inputs::{BITS, flip};

/// Whether the texts that a row's program becomes by a change are refused or go as they do on the plain
/// machine: cut at any byte, or with one bit of any byte flipped.
pub(crate) fn all_agree(alloc: Global, row: &Row, number: usize) -> Result<bool, AllocError> {
    let text = row.text.as_slice();
    let context = row.context.as_slice();
    Ok(cuts_agree(alloc, text, context) && flips_agree(alloc, text, context, number)?)
}

/// Whether each beginning of a program is refused or goes as on the plain machine.
fn cuts_agree(alloc: Global, text: &[u8], context: &[u8]) -> bool {
    (0..text.len()).all(|length| is_refused_or_agrees(alloc, &text[..length], context, true))
}

/// Whether a program is refused or goes as on the plain machine with one bit of any byte flipped: from byte
/// to byte, from slot to slot and from row to row the next bit, so that eight rows flip all bits of a byte.
/// With one byte of each slot, from row to row the next one, the text is verified by the plain verifier too.
fn flips_agree(alloc: Global, text: &[u8], context: &[u8], row: usize) -> Result<bool, AllocError> {
    let mut changed = text.to_vec(alloc)?;
    for at in 0..text.len() {
        let bit = BITS[(at % 8 + at / 8 + row % 8) % BITS.len()];
        flip(changed.as_mut_slice(), at, bit);
        if !is_refused_or_agrees(alloc, changed.as_slice(), context, at % 8 == row % 8) {
            return Ok(false);
        }
        flip(changed.as_mut_slice(), at, bit);
    }
    Ok(true)
}

/// Whether a text is refused, or goes as it does on the plain machine.
fn is_refused_or_agrees(alloc: Global, text: &[u8], context: &[u8], verdicts_twice: bool) -> bool {
    match on_the_host(alloc, text, context, verdicts_twice) {
        Outcome::Refused => true,
        outcome => outcome == on_the_plain_machine(alloc, text, context),
    }
}
