//! Texts that a program becomes by a change.

use crate::fixture::Fixture;
use crate::runs::is_refused_or_agrees;
use std::alloc::{AllocError, Global};
use tests_inputs::{BITS, flip};

/// The most bytes of maps whose programs are changed.
const SMALL: usize = 65536;

/// Whether the maps are so small that a program is changed in every way.
pub(crate) fn is_small(fixture: &Fixture) -> bool {
    let mut bytes: usize = 0;
    for shape in fixture.shapes() {
        if let Some(shape) = shape {
            let size = (shape.value_size as usize).saturating_mul(shape.entries as usize);
            bytes = bytes.saturating_add(size);
        }
    }
    bytes <= SMALL
}

/// How many texts a program becomes by a cut at a byte or by the flip of a bit, where each of them is
/// refused or goes as on the plain machine; else `None`.
pub(crate) fn texts_that_agree(
    alloc: Global,
    fixture: &Fixture,
    text: &[u8],
) -> Result<Option<usize>, AllocError> {
    if !cuts_agree(alloc, fixture, text) || !flips_agree(alloc, fixture, text)? {
        return Ok(None);
    }
    Ok(Some(text.len().saturating_mul(1 + BITS.len())))
}

/// Whether each beginning of a program is refused or goes as on the plain machine.
fn cuts_agree(alloc: Global, fixture: &Fixture, text: &[u8]) -> bool {
    (0..text.len()).all(|length| is_refused_or_agrees(alloc, fixture, &text[..length]))
}

/// Whether a program is refused or goes as on the plain machine with any bit flipped.
fn flips_agree(alloc: Global, fixture: &Fixture, text: &[u8]) -> Result<bool, AllocError> {
    let mut changed = text.to_vec(alloc)?;
    for at in 0..text.len() {
        for bit in BITS {
            flip(changed.as_mut_slice(), at, bit);
            if !is_refused_or_agrees(alloc, fixture, changed.as_slice()) {
                return Ok(false);
            }
            flip(changed.as_mut_slice(), at, bit);
        }
    }
    Ok(true)
}
