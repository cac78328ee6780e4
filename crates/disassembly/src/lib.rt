//! The text of an instruction, in the syntax of LLVM's assembler for BPF, which the Linux kernel's
//! documents use too.
#![tactic(auto)]

mod arithmetic;
mod jump;
mod memory;
mod operand;

use arithmetic::write_arithmetic;
use bpf_decode::{Insn, Operation};
use host_types::MapHelper;
use jump::{write_branch, write_jump};
use memory::{write_load, write_load_immediate, write_store};
use std::fmt;

/// An instruction that is shown as text: `r0 = 42`, `*(u32 *)(r10 - 4) = r1`, `if r1 == 0 goto +1`. A
/// distance counts slots from the next instruction. Of an opcode that isn't known just its number is
/// shown.
#[derive(Clone, Copy)]
pub struct Assembly(pub Insn);

impl fmt::Display for Assembly {
    fn fmt<W: fmt::Write>(&self, f: &mut fmt::Formatter<W>) -> fmt::Result {
        write_insn(f, &self.0, None)
    }
}

/// An instruction at a slot of a text. A jump is shown with the slot to which it leads, `if r1 == 0 goto 7`, and
/// a call with the name of its helper; else it is shown as `Assembly` does.
#[derive(Clone, Copy)]
pub struct AssemblyAt {
    pub insn: Insn,
    pub slot: u32,
}

impl fmt::Display for AssemblyAt {
    fn fmt<W: fmt::Write>(&self, f: &mut fmt::Formatter<W>) -> fmt::Result {
        match (
            Operation::of(self.insn.opcode),
            MapHelper::of(self.insn.immediate()),
        ) {
            (Some(Operation::Call), Some(helper)) => write!(f, "call {}", helper_name(helper)),
            _ => write_insn(f, &self.insn, Some(self.slot)),
        }
    }
}

/// The name that Linux gives a helper.
fn helper_name(helper: MapHelper) -> &'static str {
    match helper {
        MapHelper::Lookup => "map_lookup_elem",
        MapHelper::Update => "map_update_elem",
        MapHelper::Delete => "map_delete_elem",
    }
}

/// Writes an instruction. Where its slot is given, a jump is written with the slot to which it leads.
fn write_insn<W: fmt::Write>(
    f: &mut fmt::Formatter<W>,
    insn: &Insn,
    slot: Option<u32>,
) -> fmt::Result {
    let Some(operation) = Operation::of(insn.opcode) else {
        return write!(f, "opcode {:02x}", insn.opcode);
    };
    match operation {
        Operation::Alu {
            code,
            width,
            source,
        } => write_arithmetic(f, insn, code, width, source),
        Operation::Load { size, extension } => write_load(f, insn, size, extension),
        Operation::Store { size, source } => write_store(f, insn, size, source),
        Operation::LoadImmediate => write_load_immediate(f, insn),
        Operation::Jump { distance } => write_jump(f, insn, distance, slot),
        Operation::Branch {
            comparison,
            width,
            source,
        } => write_branch(f, insn, comparison, width, source, slot),
        Operation::Call => write!(f, "call {}", insn.imm),
        Operation::Exit => write!(f, "exit"),
    }
}
