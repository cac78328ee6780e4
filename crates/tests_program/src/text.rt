//! Texts of programs, written slot by slot.

use std::alloc::{AllocError, Global};

/// Returns R0.
pub(crate) const EXIT: u64 = 0x95000000_00000000;

/// A text of whole slots, each of which is written as a dump shows its bytes.
pub(crate) fn text_of(alloc: Global, slots: &[u64]) -> Result<Vec<u8>, AllocError> {
    let mut text = Vec::new(alloc);
    for slot in slots {
        text.extend_from_slice(&slot.to_be_bytes())?;
    }
    Ok(text)
}

/// A context of two double words.
pub(crate) fn context_of(numbers: [u64; 2]) -> [u8; 16] {
    let mut bytes = [0; 16];
    bytes[..8].copy_from_slice(&numbers[0].to_le_bytes());
    bytes[8..].copy_from_slice(&numbers[1].to_le_bytes());
    bytes
}
