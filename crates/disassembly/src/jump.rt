use crate::operand::{Operand, Register};
use bpf_decode::{Comparison, Distance, Insn, Source, Width};
use std::fmt;

/// Where a jump leads, as it is shown.
#[derive(Clone, Copy)]
pub enum Goal {
    /// So many slots after the next instruction.
    Distance(i32),
    /// To this slot.
    Slot(i64),
}

impl Goal {
    /// That of a distance, and where the jump's own slot is given the slot to which it leads.
    fn of(distance: i32, slot: Option<u32>) -> Goal {
        match slot {
            Some(slot) => Goal::Slot(i64::from(slot) + 1 + i64::from(distance)),
            None => Goal::Distance(distance),
        }
    }
}

impl fmt::Display for Goal {
    fn fmt<W: fmt::Write>(&self, f: &mut fmt::Formatter<W>) -> fmt::Result {
        match self {
            Goal::Distance(distance) => write!(f, "{distance:+}"),
            Goal::Slot(slot) => write!(f, "{slot}"),
        }
    }
}

/// Writes a jump that is always taken.
pub fn write_jump<W: fmt::Write>(
    f: &mut fmt::Formatter<W>,
    insn: &Insn,
    stands: Distance,
    slot: Option<u32>,
) -> fmt::Result {
    let goal = Goal::of(insn.distance(stands), slot);
    match stands {
        Distance::Offset => write!(f, "goto {goal}"),
        Distance::Imm => write!(f, "gotol {goal}"),
    }
}

/// Writes a conditional jump.
pub fn write_branch<W: fmt::Write>(
    f: &mut fmt::Formatter<W>,
    insn: &Insn,
    comparison: Comparison,
    width: Width,
    source: Source,
    slot: Option<u32>,
) -> fmt::Result {
    let dst = Register {
        width,
        number: insn.dst,
    };
    let sign = sign_of(comparison);
    let operand = Operand::of(insn, width, source);
    let goal = Goal::of(i32::from(insn.offset), slot);
    write!(f, "if {dst} {sign} {operand} goto {goal}")
}

fn sign_of(comparison: Comparison) -> &'static str {
    match comparison {
        Comparison::Equal => "==",
        Comparison::NotEqual => "!=",
        Comparison::Greater => ">",
        Comparison::GreaterOrEqual => ">=",
        Comparison::Less => "<",
        Comparison::LessOrEqual => "<=",
        Comparison::AnyBit => "&",
        Comparison::SignedGreater => "s>",
        Comparison::SignedGreaterOrEqual => "s>=",
        Comparison::SignedLess => "s<",
        Comparison::SignedLessOrEqual => "s<=",
    }
}
