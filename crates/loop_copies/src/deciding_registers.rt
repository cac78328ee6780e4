//! Which registers decide, from the beginning of each block on, where a run goes or which memory it reaches.

use crate::blocks::{Block, Blocks};
use crate::slots::begins;
use bpf_decode::{AluCode, Insn, Operation, Program, Source};
use std::alloc::{AllocError, Global};

/// How often all blocks are gone over at most.
const ROUNDS: u32 = 32;

/// A set of registers, by a bit each.
pub(crate) type Registers = u16;

/// All registers.
pub(crate) const ALL: Registers = 0x7ff;

/// The registers that a call reads and forgets.
const OF_CALLS: Registers = 0x3e;

/// The set of one register.
fn only(register: u8) -> Registers {
    match register {
        0 => 0x001,
        1 => 0x002,
        2 => 0x004,
        3 => 0x008,
        4 => 0x010,
        5 => 0x020,
        6 => 0x040,
        7 => 0x080,
        8 => 0x100,
        9 => 0x200,
        _ => 0x400,
    }
}

/// The register of the second operand, if that is in one.
fn second(source: Source, insn: &Insn) -> Registers {
    match source {
        Source::Register => only(insn.src),
        Source::Immediate => 0,
    }
}

/// The registers that decide something before an instruction, by those that do after it.
fn before_insn(insn: &Insn, after: Registers) -> Registers {
    let dst = only(insn.dst);
    let others = after & (ALL ^ dst);
    match Operation::of(insn.opcode) {
        Some(Operation::Alu { code, source, .. }) => {
            if after & dst == 0 {
                after
            } else if code == AluCode::Mov {
                others | second(source, insn)
            } else {
                after | second(source, insn)
            }
        }
        Some(Operation::Load { .. }) => others | only(insn.src),
        Some(Operation::LoadImmediate) => others,
        Some(Operation::Store { .. }) => after | dst,
        Some(Operation::Branch { source, .. }) => after | dst | second(source, insn),
        Some(Operation::Call) => (after & (ALL ^ OF_CALLS ^ 1)) | OF_CALLS,
        Some(Operation::Exit | Operation::Jump { .. }) | None => after,
    }
}

/// The registers that decide something at the beginning of each block, by its slot.
#[derive(Drop)]
pub struct DecidingRegisters {
    by_slot: Vec<Registers>,
}

impl DecidingRegisters {
    /// The deciding registers of the blocks of a text; all, if that takes too many rounds.
    pub(crate) fn of(
        alloc: Global,
        program: &Program,
        blocks: &Blocks,
    ) -> Result<DecidingRegisters, AllocError> {
        let mut deciding = DecidingRegisters::each(alloc, blocks.slots(), 0)?;
        for _ in 0..ROUNDS {
            if !deciding.round(program, blocks) {
                return Ok(deciding);
            }
        }
        DecidingRegisters::each(alloc, blocks.slots(), ALL)
    }

    /// The same registers for each of so many slots.
    fn each(
        alloc: Global,
        slots: usize,
        registers: Registers,
    ) -> Result<DecidingRegisters, AllocError> {
        let mut by_slot = Vec::new(alloc);
        for _ in 0..slots {
            by_slot.push(registers)?;
        }
        Ok(DecidingRegisters { by_slot })
    }

    /// The deciding registers at the beginning of the block at a slot.
    pub(crate) fn at(&self, slot: u16) -> Registers {
        match self.by_slot.get(usize::from(slot)) {
            Some(registers) => *registers,
            None => 0,
        }
    }

    /// The deciding registers where an edge leads.
    fn on(&self, edge: Option<u16>) -> Registers {
        match edge {
            Some(slot) => self.at(slot),
            None => 0,
        }
    }

    /// Goes over all blocks once, the last first. It answers whether anything changed.
    fn round(&mut self, program: &Program, blocks: &Blocks) -> bool {
        let mut changed = false;
        for slot in (0..=u16::MAX).rev() {
            if let Some(block) = blocks.at(slot) {
                let registers = before(program, block, self.on(block.next) | self.on(block.jump));
                if let Some(known) = self.by_slot.get_mut(usize::from(slot)) {
                    changed = changed || *known != registers;
                    *known = registers;
                }
            }
        }
        changed
    }
}

/// The deciding registers before a block, by those after it.
fn before(program: &Program, block: Block, after: Registers) -> Registers {
    let mut registers = after;
    for slot in (block.first..=block.last).rev() {
        if begins(program, u32::from(slot)) {
            registers = before_insn(&program.insn(u32::from(slot)), registers);
        }
    }
    registers
}

/// Whether a register is one of a set.
pub(crate) fn in_set(registers: Registers, register: u8) -> bool {
    registers & only(register) != 0
}
