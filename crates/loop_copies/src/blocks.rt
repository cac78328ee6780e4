//! The basic blocks of a text.

use crate::slots::{begins, falls_through, is_jump, jump_from, slot_after};
use crate::stop::Stop;
use bpf_decode::Program;
use host_types::Refused;
use host_types::rule::{FALLS_OFF, JUMP_OUT};
use std::alloc::{AllocError, Global};

/// A basic block: instructions that run one after another, the last of which alone may jump.
#[derive(Clone, Copy)]
pub(crate) struct Block {
    /// The slot of its first instruction.
    pub first: u16,
    /// The slot of its last instruction.
    pub last: u16,
    /// The slot after its last instruction.
    pub end: u16,
    /// The slot of the block to which it falls through.
    pub next: Option<u16>,
    /// The slot of the block to which it may jump.
    pub jump: Option<u16>,
}

impl Block {
    /// How many slots it has.
    pub fn slots(&self) -> u16 {
        self.end.saturating_sub(self.first)
    }
}

/// The basic blocks of a text that may be reached from its beginning, by the slots of their first instructions.
#[derive(Drop)]
pub(crate) struct Blocks {
    by_slot: Vec<Option<Block>>,
}

/// The slots to which an instruction leads.
#[derive(Clone, Copy)]
struct Edges {
    after: u16,
    next: Option<u16>,
    jump: Option<u16>,
}

/// Which instructions may be reached, and which of them begin a block.
#[derive(Drop)]
struct Flow {
    reached: Vec<bool>,
    leaders: Vec<bool>,
    pending: Vec<u16>,
}

/// Sets a flag, if there is one with that number.
fn set_flag(flags: &mut Vec<bool>, slot: u16) {
    if let Some(flag) = flags.get_mut(usize::from(slot)) {
        *flag = true;
    }
}

/// Whether a flag is set.
fn is_set(flags: &[bool], slot: u16) -> bool {
    matches!(flags.get(usize::from(slot)), Some(true))
}

/// So many flags, none of them set.
fn no_flags(alloc: Global, count: u32) -> Result<Vec<bool>, AllocError> {
    let mut flags = Vec::new(alloc);
    for _ in 0..count {
        flags.push(false)?;
    }
    Ok(flags)
}

/// The slot to which the instruction at a slot leads, if an instruction begins there; else it breaks a rule.
fn landing(program: &Program, at: u16, to: Option<u32>, rule: u32) -> Result<u16, Refused> {
    let refused = Refused {
        number: rule,
        slot: u32::from(at),
    };
    let Some(to) = to else {
        return Err(refused);
    };
    match u16::try_from(to) {
        Ok(slot) if begins(program, to) => Ok(slot),
        _ => Err(refused),
    }
}

/// The slots to which the instruction at a slot leads.
fn edges_from(program: &Program, at: u16) -> Result<Edges, Refused> {
    let slot = u32::from(at);
    if !begins(program, slot) {
        return Err(Refused {
            number: JUMP_OUT,
            slot,
        });
    }
    let insn = program.insn(slot);
    let next = if falls_through(&insn) {
        Some(landing(program, at, Some(slot_after(program, slot)), FALLS_OFF)?)
    } else {
        None
    };
    let jump = if is_jump(&insn) {
        Some(landing(program, at, jump_from(program, slot), JUMP_OUT)?)
    } else {
        None
    };
    Ok(Edges {
        after: at.wrapping_add(if insn.slots() == 2 { 2 } else { 1 }),
        next,
        jump,
    })
}

impl Flow {
    /// What is reached from the first instruction.
    fn of(alloc: Global, program: &Program) -> Result<Flow, Stop> {
        let slots = program.slots();
        let mut flow = Flow {
            reached: no_flags(alloc, slots)?,
            leaders: no_flags(alloc, slots)?,
            pending: Vec::new(alloc),
        };
        set_flag(&mut flow.leaders, 0);
        flow.pending.push(0)?;
        for _ in 0..=2 * slots {
            let Some(slot) = flow.pending.pop() else {
                return Ok(flow);
            };
            flow.reach(program, slot)?;
        }
        Ok(flow)
    }

    /// Notes that an instruction is reached, and to which others it leads.
    fn reach(&mut self, program: &Program, slot: u16) -> Result<(), Stop> {
        if is_set(&self.reached, slot) {
            return Ok(());
        }
        set_flag(&mut self.reached, slot);
        let edges = edges_from(program, slot)?;
        if let Some(next) = edges.next {
            self.pending.push(next)?;
        }
        if let Some(jump) = edges.jump {
            self.pending.push(jump)?;
            set_flag(&mut self.leaders, jump);
            set_flag(&mut self.leaders, edges.after);
        }
        Ok(())
    }
}

impl Blocks {
    /// The blocks of a text that are reached.
    pub fn of(alloc: Global, program: &Program) -> Result<Blocks, Stop> {
        let flow = Flow::of(alloc, program)?;
        let mut blocks = Blocks {
            by_slot: Vec::new(alloc),
        };
        let mut first = 0;
        for slot in 0..=u16::MAX {
            if u32::from(slot) >= program.slots() {
                return Ok(blocks);
            }
            blocks.by_slot.push(None)?;
            if is_set(&flow.reached, slot) {
                first = if is_set(&flow.leaders, slot) {
                    slot
                } else {
                    first
                };
                blocks.end_at(program, &flow, first, slot)?;
            }
        }
        Ok(blocks)
    }

    /// Notes a block, if its last instruction stands at a slot: one that jumps or exits, or that a leader follows.
    fn end_at(
        &mut self,
        program: &Program,
        flow: &Flow,
        first: u16,
        slot: u16,
    ) -> Result<(), Refused> {
        let edges = edges_from(program, slot)?;
        let ends = match edges.next {
            Some(next) => is_set(&flow.leaders, next),
            None => true,
        };
        if !ends {
            return Ok(());
        }
        if let Some(block) = self.by_slot.get_mut(usize::from(first)) {
            *block = Some(Block {
                first,
                last: slot,
                end: edges.after,
                next: edges.next,
                jump: edges.jump,
            });
        }
        Ok(())
    }

    /// The block that begins at a slot.
    pub fn at(&self, slot: u16) -> Option<Block> {
        *self.by_slot.get(usize::from(slot))?
    }

    /// How many slots the text has.
    pub fn slots(&self) -> usize {
        self.by_slot.len()
    }
}
