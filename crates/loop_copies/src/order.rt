//! An order of blocks in which only loops lead back: the weak topological order of F. Bourdoncle, "Efficient chaotic
//! iteration strategies with widenings" (1993). A loop's blocks stand side by side, its header first.

use crate::blocks::Blocks;
use crate::stop::Stop;
use std::alloc::Global;

/// A position in an order of blocks.
#[derive(Clone, Copy)]
pub(crate) enum Position {
    /// Where the block at a slot stands.
    Block(u16),
    /// The end of the loop whose header is the block at a slot.
    End(u16),
}

/// The number of a block that stands in the order.
const IN_ORDER: u32 = u32::MAX;

/// How often blocks are visited at most. A block is visited once more for each loop that it is in.
const MAX_VISITS: u32 = 262_144;

/// How many steps these visits take at most.
const MAX_STEPS: u32 = 6 * MAX_VISITS;

/// What is left of a visit to a block.
#[derive(Clone, Copy)]
enum Stage {
    /// To follow its jump, and then what it falls through to.
    Jump,
    Next,
    /// To see whether a way from it leads back to it or to a block before it.
    Judge,
    /// To follow both once more, of the header of a loop, whose end stands in the order.
    LoopJump,
    LoopNext,
    /// To put it into the order.
    Place,
}

/// A visit to a block that isn't at its end.
#[derive(Clone, Copy)]
struct Visit {
    slot: u16,
    jump: Option<u16>,
    next: Option<u16>,
    number: u32,
    /// The least number to which a way from the block led.
    least: u32,
    stage: Stage,
}

/// A walk over the blocks, depth first. The visits that aren't at their end are in a list, so that the stack doesn't grow with the text.
#[derive(Drop)]
struct Walk {
    /// The number of each block by its slot, in the order in which they were visited; 0 of one that wasn't.
    numbers: Vec<u32>,
    visited: u32,
    visits: Vec<Visit>,
    /// The least number to which the way led that was followed last.
    answer: u32,
    /// The blocks that were visited and don't stand in the order.
    path: Vec<u16>,
    /// The order, its last position first.
    order: Vec<Position>,
}

/// The blocks in an order in which only loops lead back. The blocks of each loop are followed by its end.
pub(crate) fn in_loop_order(alloc: Global, blocks: &Blocks) -> Result<Vec<Position>, Stop> {
    let mut numbers = Vec::new(alloc);
    for _ in 0..blocks.slots() {
        numbers.push(0)?;
    }
    let mut walk = Walk {
        numbers,
        visited: 0,
        visits: Vec::new(alloc),
        answer: IN_ORDER,
        path: Vec::new(alloc),
        order: Vec::new(alloc),
    };
    walk.begin(blocks, 0)?;
    walk.finish(blocks)?;
    walk.order.reverse();
    Ok(walk.order)
}

/// Gives a block a number.
fn set_number(numbers: &mut Vec<u32>, slot: u16, number: u32) {
    if let Some(old) = numbers.get_mut(usize::from(slot)) {
        *old = number;
    }
}

impl Walk {
    /// The number of a block.
    fn number(&self, slot: u16) -> u32 {
        match self.numbers.get(usize::from(slot)) {
            Some(number) => *number,
            None => IN_ORDER,
        }
    }

    /// Begins a visit to a block.
    fn begin(&mut self, blocks: &Blocks, slot: u16) -> Result<(), Stop> {
        let Some(block) = blocks.at(slot) else {
            self.answer = IN_ORDER;
            return Ok(());
        };
        if self.visited >= MAX_VISITS {
            return Err(Stop::Nested {
                slot: u32::from(slot),
            });
        }
        self.visited += 1;
        set_number(&mut self.numbers, slot, self.visited);
        self.path.push(slot)?;
        self.visits.push(Visit {
            slot,
            jump: block.jump,
            next: block.next,
            number: self.visited,
            least: IN_ORDER,
            stage: Stage::Jump,
        })?;
        Ok(())
    }

    /// Goes on with all visits to their ends.
    fn finish(&mut self, blocks: &Blocks) -> Result<(), Stop> {
        for _step in 0..MAX_STEPS {
            let Some(visit) = self.visits.pop() else {
                return Ok(());
            };
            self.go_on(blocks, visit)?;
        }
        Err(Stop::Nested { slot: 0 })
    }

    /// Makes the step of a visit that is left, and leaves the others in the list.
    fn go_on(&mut self, blocks: &Blocks, visit: Visit) -> Result<(), Stop> {
        let least = visit.least.min(self.answer);
        match visit.stage {
            Stage::Jump => self.follow(
                blocks,
                visit.jump,
                Visit {
                    stage: Stage::Next,
                    ..visit
                },
            ),
            Stage::Next => self.follow(
                blocks,
                visit.next,
                Visit {
                    stage: Stage::Judge,
                    least,
                    ..visit
                },
            ),
            Stage::Judge => self.judge(Visit { least, ..visit }),
            Stage::LoopJump => self.follow(
                blocks,
                visit.jump,
                Visit {
                    stage: Stage::LoopNext,
                    ..visit
                },
            ),
            Stage::LoopNext => self.follow(
                blocks,
                visit.next,
                Visit {
                    stage: Stage::Place,
                    ..visit
                },
            ),
            Stage::Place => self.place(visit),
        }
    }

    /// Follows a way, and goes on with a visit after that.
    fn follow(&mut self, blocks: &Blocks, to: Option<u16>, visit: Visit) -> Result<(), Stop> {
        self.visits.push(visit)?;
        self.answer = match to {
            None => IN_ORDER,
            Some(to) => match self.number(to) {
                0 => return self.begin(blocks, to),
                number => number,
            },
        };
        Ok(())
    }

    /// What becomes of a block from which all ways were followed: one that leads to a block before it stays on the path; else its
    /// loop, if it is the header of one, is followed once more.
    fn judge(&mut self, visit: Visit) -> Result<(), Stop> {
        self.answer = visit.least;
        if visit.least < visit.number {
            return Ok(());
        }
        self.leave(visit.slot);
        if visit.least > visit.number {
            return self.place(visit);
        }
        self.order.push(Position::End(visit.slot))?;
        self.visits.push(Visit {
            stage: Stage::LoopJump,
            ..visit
        })?;
        Ok(())
    }

    /// Puts a block into the order.
    fn place(&mut self, visit: Visit) -> Result<(), Stop> {
        self.order.push(Position::Block(visit.slot))?;
        self.answer = visit.number;
        Ok(())
    }

    /// Marks a block as one of the order, and forgets the blocks of its loop, which are visited once more without the way
    /// to it.
    fn leave(&mut self, slot: u16) {
        while let Some(top) = self.path.pop() {
            if top == slot {
                set_number(&mut self.numbers, slot, IN_ORDER);
                return;
            }
            set_number(&mut self.numbers, top, 0);
        }
    }
}
