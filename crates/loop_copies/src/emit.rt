//! The text of a row.

use crate::blocks::{Block, Blocks};
use crate::row::{Item, Row};
use crate::stop::Stop;
use std::alloc::{AllocError, Global};

/// The most slots of a text.
pub(crate) const MAX_SLOTS: u16 = 4096;

/// The opcodes of jumps that are always taken (RFC 9669, section 4.3): the distance of the first is in `offset`, that
/// of the second in `imm`.
const JA: u8 = 0x05;

const JA32: u8 = 0x06;

/// A text that is written, with the slot of the original for which each of its slots stands, and the slot at which
/// each item of its row begins.
#[derive(Drop)]
pub struct Emitted {
    pub text: Vec<u8>,
    pub origins: Vec<u16>,
    starts: Vec<u16>,
}

/// How many slots an item takes: a copy of a block that falls through to another item than the next one is followed by
/// a jump.
fn size(blocks: &Blocks, row: &Row, index: usize, item: Item) -> u16 {
    match item {
        Item::Jump { .. } => 1,
        Item::Block { slot, .. } => match blocks.at(slot) {
            Some(block) => block
                .slots()
                .wrapping_add(u16::from(row.needs_jump(blocks, index))),
            None => 0,
        },
    }
}

/// The slot at which each item begins; `None` if there are more slots than a text may have.
fn starts(alloc: Global, blocks: &Blocks, row: &Row) -> Result<Option<Vec<u16>>, AllocError> {
    let mut starts = Vec::new(alloc);
    let mut slot: u16 = 0;
    for (index, item) in row.items.iter().enumerate() {
        starts.push(slot)?;
        slot = slot.saturating_add(size(blocks, row, index, *item));
        if slot > MAX_SLOTS {
            return Ok(None);
        }
    }
    Ok(Some(starts))
}

/// The text of a row, unless it has more slots than a text may have.
pub(crate) fn emit(
    alloc: Global,
    blocks: &Blocks,
    text: &[u8],
    row: &Row,
) -> Result<Emitted, Stop> {
    let Some(starts) = starts(alloc, blocks, row)? else {
        return Err(Stop::TooLong);
    };
    let mut emitted = Emitted {
        text: Vec::new(alloc),
        origins: Vec::new(alloc),
        starts,
    };
    for (index, item) in row.items.iter().enumerate() {
        match *item {
            Item::Block { slot, next, jump } => {
                if let Some(block) = blocks.at(slot) {
                    emitted.block(text, block, emitted.start(Some(index)), emitted.start(jump))?;
                    if row.needs_jump(blocks, index) {
                        emitted.jump(emitted.start(next), block.next.unwrap_or(0))?;
                    }
                }
            }
            Item::Jump { slot, to } => emitted.jump(emitted.start(Some(to)), slot)?,
        }
    }
    Ok(emitted)
}

impl Emitted {
    /// The slot at which an item begins.
    fn start(&self, index: Option<usize>) -> u16 {
        let Some(index) = index else {
            return 0;
        };
        match self.starts.get(index) {
            Some(start) => *start,
            None => 0,
        }
    }

    /// Writes a slot.
    fn slot(&mut self, bytes: [u8; 8], origin: u16) -> Result<(), Stop> {
        self.text.extend_from_slice(&bytes)?;
        self.origins.push(origin)?;
        Ok(())
    }

    /// Writes a jump to a slot, which stands for the slot to which it leads.
    fn jump(&mut self, to: u16, origin: u16) -> Result<(), Stop> {
        let [low, high] = distance(self.here(), to);
        self.slot([JA, 0, low, high, 0, 0, 0, 0], origin)
    }

    /// The slot that is written next.
    fn here(&self) -> u16 {
        match u16::try_from(self.origins.len()) {
            Ok(slot) => slot,
            Err(_) => u16::MAX,
        }
    }

    /// Writes a copy of a block, whose last instruction jumps to a slot if it jumps.
    fn block(&mut self, text: &[u8], block: Block, start: u16, to: u16) -> Result<(), Stop> {
        for slot in block.first..block.last {
            self.slot(bytes_at(text, slot), slot)?;
        }
        let at = start.wrapping_add(block.last.wrapping_sub(block.first));
        self.last(text, block, at, to)
    }

    /// Writes a copy of a block's last instruction, which jumps to a slot if it jumps.
    fn last(&mut self, text: &[u8], block: Block, at: u16, to: u16) -> Result<(), Stop> {
        let bytes = bytes_at(text, block.last);
        let bytes = match block.jump {
            Some(_) => directed(bytes, at, to),
            None => bytes,
        };
        self.slot(bytes, block.last)?;
        for slot in block.last.wrapping_add(1)..block.end {
            self.slot(bytes_at(text, slot), slot)?;
        }
        Ok(())
    }
}

/// The distance of a jump from a slot to another, as the two bytes of a signed number.
fn distance(at: u16, to: u16) -> [u8; 2] {
    to.wrapping_sub(at).wrapping_sub(1).to_le_bytes()
}

/// An instruction that jumps from a slot to another.
pub(crate) fn directed(bytes: [u8; 8], at: u16, to: u16) -> [u8; 8] {
    let [low, high] = distance(at, to);
    let [opcode, registers, _, _, third, fourth, fifth, sixth] = bytes;
    if opcode == JA32 {
        let sign = if high < 128 { 0 } else { 255 };
        [opcode, registers, 0, 0, low, high, sign, sign]
    } else {
        [opcode, registers, low, high, third, fourth, fifth, sixth]
    }
}

/// The bytes of a slot of a text.
pub(crate) fn bytes_at(text: &[u8], slot: u16) -> [u8; 8] {
    let mut bytes = [0; 8];
    let from = 8 * usize::from(slot);
    for (index, byte) in bytes.iter_mut().enumerate() {
        if let Some(value) = text.get(from + index) {
            *byte = *value;
        }
    }
    bytes
}
