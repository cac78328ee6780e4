//! Where one instruction leads, and with what is known there.

use crate::arithmetic::{alu, load_immediate};
use crate::calls::{call, exit};
use crate::description::Description;
use crate::given::Given;
use crate::jumps::{always, branch, fall_to};
use crate::memory::{load, store};
use crate::rules::Rules;
use bpf_decode::{Insn, Operation};

/// A slot to which an instruction leads, and what is known there.
#[derive(Drop)]
pub(crate) struct Target {
    pub(crate) slot: u32,
    pub(crate) description: Description,
}

/// Where an instruction leads: to the next one, to where it jumps, to both or to neither.
#[derive(Drop)]
pub(crate) struct Onward {
    pub(crate) next: Option<Target>,
    pub(crate) jump: Option<Target>,
}

impl Onward {
    /// The end of a run.
    pub(crate) const NOWHERE: Onward = Onward {
        next: None,
        jump: None,
    };
}

/// What is known after an instruction that is no jump and no exit.
fn straight_on(
    given: &Given,
    slot: u32,
    insn: &Insn,
    operation: Operation,
    known: &mut Description,
    rules: &mut Rules,
) {
    match operation {
        Operation::Alu {
            code,
            width,
            source,
        } => alu(code, width, source, insn, known, rules),
        Operation::Load { size, extension } => load(given, size, extension, insn, known, rules),
        Operation::Store { size, source } => store(given, size, source, insn, known, rules),
        Operation::LoadImmediate => load_immediate(given, insn, known, rules),
        Operation::Call => call(given, slot, insn, known, rules),
        _ => {}
    }
}

/// Where an instruction leads that is no jump and no exit.
fn falls_on(
    given: &Given,
    slot: u32,
    insn: &Insn,
    operation: Operation,
    known: &Description,
    rules: &mut Rules,
) -> Onward {
    let mut description = *known;
    straight_on(given, slot, insn, operation, &mut description, rules);
    let width = match operation {
        Operation::LoadImmediate => 2,
        _ => 1,
    };
    let slot = fall_to(given, slot.saturating_add(width), rules);
    Onward {
        next: Some(Target { slot, description }),
        jump: None,
    }
}

/// Where an instruction leads, whether or not it breaks a rule.
fn led(
    given: &Given,
    slot: u32,
    insn: &Insn,
    operation: Operation,
    known: &Description,
    rules: &mut Rules,
) -> Onward {
    match operation {
        Operation::Jump { distance } => always(given, slot, distance, insn, known, rules),
        Operation::Branch {
            comparison,
            width,
            source,
        } => branch(given, slot, comparison, width, source, known, rules),
        Operation::Exit => {
            exit(known, rules);
            Onward::NOWHERE
        }
        _ => falls_on(given, slot, insn, operation, known, rules),
    }
}

/// Where the instruction at a slot leads from what is known there; the error is the smallest number of the rules
/// that it breaks.
pub(crate) fn flow(given: &Given, slot: u32, known: &Description) -> Result<Onward, u32> {
    let Some(insn) = given.insn(slot) else {
        return Ok(Onward::NOWHERE);
    };
    let Some(operation) = Operation::of(insn.opcode) else {
        return Ok(Onward::NOWHERE);
    };
    let mut rules = Rules::new();
    let onward = led(given, slot, &insn, operation, known, &mut rules);
    match rules.smallest {
        Some(number) => Err(number),
        None => Ok(onward),
    }
}
