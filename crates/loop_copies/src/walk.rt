//! The copies of blocks that runs reach, found in one pass over an order in which only loops lead back. What is known
//! flows on from copy to copy, as the verifier lets it flow from slot to slot. Where something flows back to a loop's
//! header, the loop is copied once more.

use crate::blocks::{Block, Blocks};
use crate::emit::MAX_SLOTS;
use crate::flows::{Edges, Flows, Known};
use crate::order::Position;
use crate::row::{Edge, Row};
use crate::stop::Stop;
use crate::values::{Keeping, Values};
use host_types::Refused;
use std::alloc::{AllocError, Global};

/// How many positions are passed at most.
const MOST_PASSED: u32 = 16_777_216;

/// How many copies of one block may wait, each for values of its own.
const MOST_WAITING: usize = 128;

/// A copy that leads on, by its index.
#[derive(Clone, Copy)]
struct Source {
    index: usize,
    edge: Edge,
}

/// What is known where copies lead to the next copy of a block.
#[derive(Drop)]
struct Arrival {
    known: Box<Known>,
    values: Values,
    sources: Vec<Source>,
}

/// What is known of a block.
#[derive(Drop)]
struct Waiting {
    arrivals: Vec<Arrival>,
    /// The position in the order.
    position: usize,
    /// Whether it is the header of a loop, and how many copies that has since it was entered.
    is_header: bool,
    copies: u32,
    /// How many copies there are in all.
    total: u32,
    /// With which values the loop was entered.
    entered: Values,
}

/// The pass.
#[derive(Drop)]
pub(crate) struct Walk {
    alloc: Global,
    row: Row,
    waiting: Vec<Waiting>,
    slots: u16,
    calls: u32,
}

impl Waiting {
    /// Nothing is known.
    fn none(alloc: Global) -> Waiting {
        Waiting {
            arrivals: Vec::new(alloc),
            position: 0,
            is_header: false,
            copies: 0,
            total: 0,
            entered: Values::NONE,
        }
    }

    /// The index of the arrival with the same values.
    fn with_values(&self, values: &Values) -> Option<usize> {
        for (index, arrival) in self.arrivals.iter().enumerate() {
            if arrival.values.is_same(values) {
                return Some(index);
            }
        }
        if self.arrivals.len() >= MOST_WAITING {
            Some(0)
        } else {
            None
        }
    }

    /// Lets something arrive.
    fn arrive(
        &mut self,
        alloc: Global,
        known: Known,
        values: Values,
        source: Option<Source>,
    ) -> Result<(), AllocError> {
        if let Some(index) = self.with_values(&values) {
            if let Some(arrival) = self.arrivals.get_mut(index) {
                *arrival.known = arrival.known.joined(&known);
                if let Some(source) = source {
                    arrival.sources.push(source)?;
                }
                return Ok(());
            }
        }
        let mut sources = Vec::new(alloc);
        if let Some(source) = source {
            sources.push(source)?;
        }
        self.arrivals.push(Arrival {
            known: Box::new(alloc, known)?,
            values,
            sources,
        })?;
        Ok(())
    }

    /// The index of the arrival that is nearest to the values with which the loop was entered.
    fn nearest(&self) -> usize {
        let mut nearest = 0;
        let mut least = u64::MAX;
        for (index, arrival) in self.arrivals.iter().enumerate() {
            let distance = arrival.values.distance_from(&self.entered);
            if distance < least {
                least = distance;
                nearest = index;
            }
        }
        nearest
    }

    /// Takes the arrival for the next copy.
    fn take(&mut self) -> Option<Arrival> {
        let index = self.nearest();
        if index < self.arrivals.len() {
            Some(self.arrivals.swap_remove(index))
        } else {
            None
        }
    }
}

impl Walk {
    /// Before the first block.
    pub fn begin(alloc: Global, blocks: &Blocks, order: &[Position]) -> Result<Walk, AllocError> {
        let mut waiting = Vec::new(alloc);
        for _ in 0..blocks.slots() {
            waiting.push(Waiting::none(alloc))?;
        }
        let mut walk = Walk {
            alloc,
            row: Row::new(alloc, blocks.slots())?,
            waiting,
            slots: 0,
            calls: 0,
        };
        walk.note_positions(order);
        walk.arrive(0, Known::start(), Values::NONE, None)?;
        Ok(walk)
    }

    /// Notes where blocks stand in the order, and which of them are headers.
    fn note_positions(&mut self, order: &[Position]) {
        for (index, position) in order.iter().enumerate() {
            match *position {
                Position::Block(slot) => {
                    if let Some(waiting) = self.waiting.get_mut(usize::from(slot)) {
                        waiting.position = index;
                    }
                }
                Position::End(slot) => {
                    if let Some(waiting) = self.waiting.get_mut(usize::from(slot)) {
                        waiting.is_header = true;
                    }
                }
            }
        }
    }

    /// Lets something arrive at a block.
    fn arrive(
        &mut self,
        slot: u16,
        known: Known,
        values: Values,
        source: Option<Source>,
    ) -> Result<(), AllocError> {
        match self.waiting.get_mut(usize::from(slot)) {
            Some(waiting) => waiting.arrive(self.alloc, known, values, source),
            None => Ok(()),
        }
    }

    /// Goes over the order until nothing waits. It answers the row of the copies that are reached.
    pub fn pass(
        mut self,
        blocks: &Blocks,
        flows: &Flows,
        order: &[Position],
        keeping: &Keeping,
    ) -> Result<Row, Stop> {
        let mut index = 0;
        for _ in 0..MOST_PASSED {
            let Some(position) = order.get(index) else {
                return Ok(self.row);
            };
            let next = match *position {
                Position::Block(slot) => {
                    let again = self.copy(blocks, flows, keeping, slot)?;
                    if again { index } else { index.wrapping_add(1) }
                }
                Position::End(header) => self.again(header).unwrap_or(index.wrapping_add(1)),
            };
            if self.slots > MAX_SLOTS {
                return Err(self.full(blocks, order, index));
            }
            index = next;
        }
        Err(self.full(blocks, order, index))
    }

    /// The position of a loop's header, if something waits there; else the loop is left.
    fn again(&mut self, header: u16) -> Option<usize> {
        let waiting = self.waiting.get_mut(usize::from(header))?;
        if waiting.arrivals.is_empty() {
            waiting.copies = 0;
            None
        } else {
            Some(waiting.position)
        }
    }

    /// Puts a copy of a block into the row, if something waits there. It answers whether the next copy follows at once.
    fn copy(
        &mut self,
        blocks: &Blocks,
        flows: &Flows,
        keeping: &Keeping,
        slot: u16,
    ) -> Result<bool, Stop> {
        let Some(block) = blocks.at(slot) else {
            return Ok(false);
        };
        let Some(waiting) = self.waiting.get_mut(usize::from(slot)) else {
            return Ok(false);
        };
        let Some(arrival) = waiting.take() else {
            return Ok(false);
        };
        if waiting.copies == 0 {
            waiting.entered = arrival.values;
        }
        waiting.copies = waiting.copies.saturating_add(1);
        waiting.total = waiting.total.saturating_add(1);
        let copy = waiting.total;
        let again = !waiting.is_header;
        self.put(blocks, flows, keeping, block, arrival, copy)?;
        Ok(again)
    }

    /// Puts a copy of a block into the row, and lets what is known after it flow on.
    fn put(
        &mut self,
        blocks: &Blocks,
        flows: &Flows,
        keeping: &Keeping,
        block: Block,
        arrival: Arrival,
        copy: u32,
    ) -> Result<(), Stop> {
        let index = self.row.push_block(block.first)?;
        let Arrival { known, sources, .. } = arrival;
        for source in sources.iter() {
            self.row.link(source.index, source.edge, index);
        }
        if index > 0 && self.row.needs_jump(blocks, index - 1) {
            self.slots = self.slots.saturating_add(1);
        }
        self.slots = self.slots.saturating_add(block.slots());
        let calls = self.calls;
        self.calls = calls.wrapping_add(u32::from(block.slots()));
        match flows.through(block, Box::into_inner(known), calls) {
            Ok(edges) => Ok(self.lead_on(keeping, block, index, edges)?),
            Err(refused) => Err(broken(refused, copy)),
        }
    }

    /// Lets what is known after a copy flow on.
    fn lead_on(
        &mut self,
        keeping: &Keeping,
        block: Block,
        index: usize,
        edges: Edges,
    ) -> Result<(), AllocError> {
        if let (Some(slot), Some(known)) = (block.jump, edges.jump) {
            let source = Source {
                index,
                edge: Edge::Jump,
            };
            let values = keeping.values(slot, &known);
            self.arrive(slot, known, values, Some(source))?;
        }
        if let (Some(slot), Some(known)) = (block.next, edges.next) {
            let source = Source {
                index,
                edge: Edge::Next,
            };
            let values = keeping.values(slot, &known);
            self.arrive(slot, known, values, Some(source))?;
        }
        Ok(())
    }

    /// What stops the pass at a position where the text is full: of the loops around the position the one with the most
    /// copies.
    fn full(&self, blocks: &Blocks, order: &[Position], at: usize) -> Stop {
        let mut most = 1;
        let mut stop = Stop::TooLong;
        for (index, position) in order.iter().enumerate() {
            let Position::End(header) = *position else {
                continue;
            };
            let Some(waiting) = self.waiting.get(usize::from(header)) else {
                continue;
            };
            if waiting.copies > most && index >= at {
                most = waiting.copies;
                stop = endless(blocks, order.get(waiting.position..index), header, most);
            }
        }
        stop
    }
}

/// A rule that an instruction breaks in a copy.
fn broken(refused: Refused, copy: u32) -> Stop {
    if refused == Refused::OUT_OF_MEMORY {
        Stop::OutOfMemory
    } else {
        Stop::Rule { refused, copy }
    }
}

/// A loop that no range ends, by the positions of its blocks.
fn endless(blocks: &Blocks, positions: Option<&[Position]>, header: u16, copies: u32) -> Stop {
    let mut first = u32::from(header);
    let mut last = u32::from(header);
    for position in positions.unwrap_or(&[]) {
        if let Position::Block(slot) = *position {
            if let Some(block) = blocks.at(slot) {
                first = first.min(u32::from(block.first));
                last = last.max(u32::from(block.last));
            }
        }
    }
    Stop::Endless {
        header: u32::from(header),
        first,
        last,
        copies,
    }
}
