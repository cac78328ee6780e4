//! Rows of blocks: which copies stand in a lowered text, one after another.

use crate::blocks::{Block, Blocks};
use crate::stop::Stop;
use std::alloc::{AllocError, Global};

/// The most items that are added after the copies.
const MOST_ADDED: u32 = 16_384;

/// An item of a row.
#[derive(Clone, Copy)]
pub(crate) enum Item {
    /// A copy of the block at a slot, with the items to which it falls through and jumps, by their indices.
    Block {
        slot: u16,
        next: Option<usize>,
        jump: Option<usize>,
    },
    /// A jump to another item, which is a copy of the block at a slot.
    Jump {
        slot: u16,
        to: usize,
    },
}

/// Whether a block of a copy falls through or jumps.
#[derive(Clone, Copy, PartialEq, Eq)]
pub(crate) enum Edge {
    Next,
    Jump,
}

impl Item {
    /// The item where a copy leads to another item on one of its edges.
    fn leading(self, edge: Edge, to: usize) -> Item {
        match (self, edge) {
            (Item::Block { slot, jump, .. }, Edge::Next) => Item::Block {
                slot,
                next: Some(to),
                jump,
            },
            (Item::Block { slot, next, .. }, Edge::Jump) => Item::Block {
                slot,
                next,
                jump: Some(to),
            },
            (Item::Jump { .. }, _) => self,
        }
    }
}

/// The items of a row, and of each block one of its copies, by the block's slot. The first items are the copies that
/// runs reach.
#[derive(Drop)]
pub(crate) struct Row {
    pub items: Vec<Item>,
    reached: usize,
    copies: Vec<Option<usize>>,
    jumps: Vec<Option<usize>>,
}

/// So many indices that aren't known.
fn no_indices(alloc: Global, count: usize) -> Result<Vec<Option<usize>>, AllocError> {
    let mut indices = Vec::new(alloc);
    for _ in 0..count {
        indices.push(None)?;
    }
    Ok(indices)
}

/// The index that is known of a slot.
fn index_of(indices: &[Option<usize>], slot: u16) -> Option<usize> {
    *indices.get(usize::from(slot))?
}

/// Notes the index of a slot.
fn note(indices: &mut Vec<Option<usize>>, slot: u16, index: usize) {
    if let Some(known) = indices.get_mut(usize::from(slot)) {
        *known = Some(index);
    }
}

impl Row {
    /// A row without items, for a text of so many slots.
    pub fn new(alloc: Global, slots: usize) -> Result<Row, AllocError> {
        Ok(Row {
            items: Vec::new(alloc),
            reached: 0,
            copies: no_indices(alloc, slots)?,
            jumps: no_indices(alloc, slots)?,
        })
    }

    /// Puts a copy of a block after the others. It answers its index.
    pub fn push_block(&mut self, slot: u16) -> Result<usize, Stop> {
        let index = self.items.len();
        self.items.push(Item::Block {
            slot,
            next: None,
            jump: None,
        })?;
        note(&mut self.copies, slot, index);
        Ok(index)
    }

    /// Lets a copy lead to an item.
    pub fn link(&mut self, index: usize, edge: Edge, to: usize) {
        if let Some(item) = self.items.get_mut(index) {
            *item = item.leading(edge, to);
        }
    }

    /// Whether the last copy falls through to another item than the next one.
    pub fn needs_jump(&self, blocks: &Blocks, index: usize) -> bool {
        let Some(Item::Block { slot, next, .. }) = self.items.get(index).copied() else {
            return false;
        };
        match blocks.at(slot) {
            Some(block) => block.next.is_some() && next != Some(index.wrapping_add(1)),
            None => false,
        }
    }

    /// Adds what the copies lead to where no run goes on: copies of blocks that have none, and, as the verifier checks
    /// both edges of a jump, jumps back to copies after all that runs reach.
    pub fn finish(&mut self, blocks: &Blocks) -> Result<(), Stop> {
        self.reached = self.items.len();
        for index in 0..usize::MAX {
            let Some(item) = self.items.get(index).copied() else {
                return Ok(());
            };
            if index >= self.reached.saturating_add(MOST_ADDED as usize) {
                return Err(Stop::TooLong);
            }
            if let Item::Block { slot, next, jump } = item {
                if let Some(block) = blocks.at(slot) {
                    self.lead_on(index, block, next, jump)?;
                }
            }
        }
        Ok(())
    }

    /// Lets a copy lead somewhere on each of its edges.
    fn lead_on(
        &mut self,
        index: usize,
        block: Block,
        next: Option<usize>,
        jump: Option<usize>,
    ) -> Result<(), Stop> {
        if let (Some(slot), None) = (block.next, next) {
            let to = self.any_copy(slot)?;
            self.link(index, Edge::Next, to);
        }
        if let (Some(slot), None) = (block.jump, jump) {
            let to = self.ahead(index, slot)?;
            self.link(index, Edge::Jump, to);
        }
        Ok(())
    }

    /// A copy of the block at a slot.
    fn any_copy(&mut self, slot: u16) -> Result<usize, Stop> {
        match index_of(&self.copies, slot) {
            Some(index) => Ok(index),
            None => self.push_block(slot),
        }
    }

    /// An item to which the copy at an index may jump, for the block at a slot: if runs reach the copy, one after it.
    fn ahead(&mut self, index: usize, slot: u16) -> Result<usize, Stop> {
        let to = self.any_copy(slot)?;
        if index >= self.reached || to > index {
            return Ok(to);
        }
        if let Some(jump) = index_of(&self.jumps, slot) {
            return Ok(jump);
        }
        let jump = self.items.len();
        self.items.push(Item::Jump { slot, to })?;
        note(&mut self.jumps, slot, jump);
        Ok(jump)
    }
}
