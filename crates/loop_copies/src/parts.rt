//! What a text's copies are made of, and the text of them.

ghost use Rattle.verifier.specs.Subject.{IsContextSize};
ghost use Rattle.verifier.specs.Verified.{AreShapes};

use crate::blocks::Blocks;
use crate::deciding_registers::DecidingRegisters;
use crate::emit::{Emitted, emit};
use crate::flows::Flows;
use crate::order::{Position, in_loop_order};
use crate::row::Row;
use crate::stop::Stop;
use crate::values::Keeping;
use crate::walk::Walk;
use bpf_decode::Program;
use host_types::Shape;
use std::alloc::{AllocError, Global};

/// What a text's copies are made of: its blocks, an order of them, and what is known along them.
#[derive(Drop)]
pub struct Parts {
    blocks: Blocks,
    order: Vec<Position>,
    flows: Flows,
}

impl Parts {
    /// The parts of a text, for maps of these shapes and a context of so many bytes.
    pub fn of(
        alloc: Global,
        text: &[u8],
        program: &Program,
        shapes: &[Option<Shape>],
        context_size: u32,
    ) -> Result<Parts, Stop>
        requires shapes { AreShapes shapes.now }
        requires context { IsContextSize context_size }
    {
        let blocks = Blocks::of(alloc, program)?;
        let order = in_loop_order(alloc, &blocks)?;
        let flows = Flows::of(alloc, text, program, shapes, context_size)?;
        Ok(Parts {
            blocks,
            order,
            flows,
        })
    }

    /// Keeps copies of the text's blocks apart by constants.
    pub fn by_constants(&self, alloc: Global, program: &Program) -> Result<Keeping, AllocError> {
        Ok(Keeping::Constants(DecidingRegisters::of(alloc, program, &self.blocks)?))
    }

    /// The text of the copies that runs reach, kept apart in a way, and of what they lead to.
    pub fn copies(&self, alloc: Global, text: &[u8], keeping: &Keeping) -> Result<Emitted, Stop> {
        let row = self.row(alloc, keeping)?;
        emit(alloc, &self.blocks, text, &row)
    }

    /// The row of the copies that are reached, and what they lead to.
    fn row(&self, alloc: Global, keeping: &Keeping) -> Result<Row, Stop> {
        let walk = Walk::begin(alloc, &self.blocks, &self.order)?;
        let mut row = walk.pass(&self.blocks, &self.flows, &self.order, keeping)?;
        row.finish(&self.blocks)?;
        Ok(row)
    }
}
