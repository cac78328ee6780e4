//! Texts that a program becomes by a few changes that are drawn.

use crate::fixture::Fixture;
use crate::runs::{Found, found_of};
use std::alloc::{AllocError, Global};
use std::io;
use tests_inputs::{BITS, Draws, flip};

/// How many bytes a slot has.
const SLOT: usize = 8;

/// How many changes a text has at most.
const CHANGES: u32 = 3;

/// Where the offset and the number of an instruction stand in its slot.
const OFFSET: usize = 2;

const NUMBER: usize = 4;

/// Bytes at which a number or an offset is at an end of what it may be, or near it.
const EDGES: [u8; 12] = [0, 1, 2, 3, 4, 7, 8, 16, 63, 127, 128, 255];

/// How many drawn texts were verified, by what was found.
#[derive(Drop)]
pub(crate) struct Drawn {
    draws: Draws,
    refused_by_decoder: u64,
    refused_by_verifier: u64,
    ran: u64,
}

/// What becomes of a slot.
#[derive(Clone, Copy, PartialEq, Eq)]
enum Change {
    Removed,
    Doubled,
    /// Another one stands in place of it.
    Replaced,
}

/// A text of which a slot is changed.
fn spliced(
    alloc: Global,
    text: &[u8],
    at: usize,
    other: usize,
    change: Change,
) -> Result<Vec<u8>, AllocError> {
    let mut changed = Vec::new(alloc);
    for (number, slot) in text.chunks(SLOT).enumerate() {
        if number != at {
            changed.extend_from_slice(slot)?;
        } else if change == Change::Replaced {
            changed.extend_from_slice(text.chunks(SLOT).nth(other).unwrap_or(slot))?;
        } else if change == Change::Doubled {
            changed.extend_from_slice(slot)?;
            changed.extend_from_slice(slot)?;
        }
    }
    Ok(changed)
}

/// Puts a byte into a text, if the text is so long.
fn put(text: &mut [u8], at: usize, byte: u8) {
    if let Some(there) = text.get_mut(at) {
        *there = byte;
    }
}

impl Drawn {
    pub(crate) fn new() -> Drawn {
        Drawn {
            draws: Draws::new(1),
            refused_by_decoder: 0,
            refused_by_verifier: 0,
            ran: 0,
        }
    }

    /// An index below a count, which is at least 1.
    fn index_below(&mut self, count: usize) -> usize {
        let most = u32::try_from(count).unwrap_or(1).max(1);
        self.draws.below(most) as usize
    }

    /// A byte, mostly one at an edge.
    fn byte(&mut self) -> u8 {
        let any = (self.draws.below(256) & 0xff) as u8;
        let at = self.index_below(2 * EDGES.len());
        EDGES.get(at).copied().unwrap_or(any)
    }

    /// A register that is written, and mostly none that is read.
    fn registers(&mut self) -> u8 {
        let read = self.draws.below(33).saturating_sub(22);
        let both = self.draws.below(11) + 16 * read;
        (both & 0xff) as u8
    }

    /// A bit of an opcode that leaves its class.
    fn operation(&mut self) -> u8 {
        let at = self.index_below(5).saturating_add(3);
        BITS.get(at).copied().unwrap_or(8)
    }

    /// Changes a byte of one of a text's slots.
    fn change_byte(&mut self, text: &mut [u8]) {
        let slot = self.index_below(text.len() / SLOT).saturating_mul(SLOT);
        let byte = self.byte();
        match self.draws.below(8) {
            0 => {
                let operation = self.operation();
                flip(text, slot, operation);
            }
            1 => {
                let registers = self.registers();
                put(text, slot.saturating_add(1), registers);
            }
            2 => put(text, slot.saturating_add(OFFSET), byte),
            3..=5 => put(text, slot.saturating_add(NUMBER), byte),
            _ => {
                let at = slot.saturating_add(self.index_below(SLOT));
                let bit = BITS.get(self.index_below(BITS.len())).copied().unwrap_or(1);
                flip(text, at, bit);
            }
        }
    }

    /// A text with one change more.
    fn changed(&mut self, alloc: Global, mut text: Vec<u8>) -> Result<Vec<u8>, AllocError> {
        let slots = text.len() / SLOT;
        let at = self.index_below(slots);
        let other = self.index_below(slots);
        let change = match self.draws.below(12) {
            0 => Change::Removed,
            1 => Change::Doubled,
            2 => Change::Replaced,
            _ => {
                self.change_byte(text.as_mut_slice());
                return Ok(text);
            }
        };
        spliced(alloc, text.as_slice(), at, other, change)
    }

    /// A text that a program becomes by one change or a few.
    fn text(&mut self, alloc: Global, text: &[u8]) -> Result<Vec<u8>, AllocError> {
        let mut changed = text.to_vec(alloc)?;
        for _ in 0..=self.draws.below(CHANGES) {
            changed = self.changed(alloc, changed)?;
        }
        Ok(changed)
    }

    /// Verifies so many texts that a program becomes. It answers whether each is verified as by the plain verifier,
    /// and goes as on the plain machine where it is accepted.
    pub(crate) fn agree(
        &mut self,
        alloc: Global,
        fixture: &Fixture,
        text: &[u8],
        count: u32,
    ) -> Result<bool, AllocError> {
        for _ in 0..count {
            let drawn = self.text(alloc, text)?;
            match found_of(alloc, fixture, drawn.as_slice()) {
                Found::RefusedByDecoder => {
                    self.refused_by_decoder = self.refused_by_decoder.saturating_add(1);
                }
                Found::RefusedByVerifier => {
                    self.refused_by_verifier = self.refused_by_verifier.saturating_add(1);
                }
                Found::Ran => self.ran = self.ran.saturating_add(1),
                Found::Differs => return Ok(false),
            }
        }
        Ok(true)
    }

    /// Prints what was found.
    pub(crate) fn print(&self, rt: &impl Print) -> io::Result<()> {
        let refused = self
            .refused_by_decoder
            .saturating_add(self.refused_by_verifier);
        println!(rt;
            "{} drawn texts: {} refused by the decoder, {} by the verifier, {} run alike",
            refused.saturating_add(self.ran),
            self.refused_by_decoder,
            self.refused_by_verifier,
            self.ran
        )
    }
}
