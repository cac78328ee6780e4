use crate::checked::{CheckedText, is_within_limits};
use bpf_decode::decode;
use host_types::limits::MAX_MAPS;
use std::alloc::{AllocError, Global};
use verifier::{Verified, is_context_size, verify};

/// `r0 = 0`.
pub const CLEAR: [u8; 8] = [0xb7, 0, 0, 0, 0, 0, 0, 0];

const EXIT: [u8; 8] = [0x95, 0, 0, 0, 0, 0, 0, 0];

/// A refused text, of which all that stands before the refused slot breaks no rule.
#[derive(Clone, Copy)]
pub struct Cut<'a> {
    pub alloc: Global,
    pub checked: CheckedText<'a>,
    pub slot: usize,
}

impl<'a> Cut<'a> {
    /// The text with another instruction at the slot, where that is accepted. What was known at the slot is known
    /// of it too.
    pub fn with(&self, there: [u8; 8]) -> Option<Verified> {
        let CheckedText {
            shapes,
            context_size,
            ..
        } = self.checked;
        if shapes.len() > MAX_MAPS
            || !shapes.iter().all(|shape| is_within_limits(shape))
            || !is_context_size(context_size)
        {
            return None;
        }
        let text = self.text(there).ok()?;
        let program = decode(self.alloc, text.as_slice()).ok()?;
        verify(self.alloc, program, shapes, context_size).ok()
    }

    /// The slots before the refused one, this instruction, and after it as many as there were that break no rule,
    /// so that each jump finds its target.
    fn text(&self, there: [u8; 8]) -> Result<Vec<u8>, AllocError> {
        let whole = self.checked.text;
        let mut text = Vec::new(self.alloc);
        text.extend_from_slice(whole.get(..self.slot.saturating_mul(8)).unwrap_or(whole))?;
        text.extend_from_slice(&there)?;
        for _following in (self.slot..whole.len() / 8).skip(1) {
            text.extend_from_slice(&CLEAR)?;
        }
        text.extend_from_slice(&EXIT)?;
        Ok(text)
    }
}
