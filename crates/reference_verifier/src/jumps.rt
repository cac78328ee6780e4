//! Jumps: where they lead, and what a comparison gives.

use crate::description::Description;
use crate::flow::{Onward, Target};
use crate::given::Given;
use crate::kind::Kind;
use crate::range::{Range, WORD};
use crate::rules::Rules;
use crate::scalars::immediate;
use bpf_decode::{Comparison, Distance, Insn, Source, Width};
use host_types::rule::{BACK_JUMP, FALLS_OFF, JUMP_OUT, NULL_NOT_CHECKED, WRONG_KIND};

/// What holds of dst and of the other operand on a way.
#[derive(Clone, Copy)]
enum Relation {
    Equal,
    NotEqual,
    Greater,
    GreaterOrEqual,
    Less,
    LessOrEqual,
}

impl Relation {
    /// What a comparison says where it holds; `None` where it says nothing of a range.
    fn of(comparison: Comparison) -> Option<Relation> {
        match comparison {
            Comparison::Equal => Some(Relation::Equal),
            Comparison::NotEqual => Some(Relation::NotEqual),
            Comparison::Greater => Some(Relation::Greater),
            Comparison::GreaterOrEqual => Some(Relation::GreaterOrEqual),
            Comparison::Less => Some(Relation::Less),
            Comparison::LessOrEqual => Some(Relation::LessOrEqual),
            _ => None,
        }
    }

    /// What holds where the relation doesn't.
    fn opposite(self) -> Relation {
        match self {
            Relation::Equal => Relation::NotEqual,
            Relation::NotEqual => Relation::Equal,
            Relation::Greater => Relation::LessOrEqual,
            Relation::GreaterOrEqual => Relation::Less,
            Relation::Less => Relation::GreaterOrEqual,
            Relation::LessOrEqual => Relation::Greater,
        }
    }

    /// The numbers of a range of which the relation to another may hold.
    fn refined(self, a: Range, b: Range) -> Option<Range> {
        let mut low = a.low;
        let mut high = a.high;
        match self {
            Relation::Equal => {
                low = low.max(b.low);
                high = high.min(b.high);
                return Range::normal(low, high, a.factor.max(b.factor));
            }
            Relation::NotEqual if b.low == b.high => {
                low = low.saturating_add(i128::from(a.low == b.low));
                high = high.saturating_sub(i128::from(a.high == b.low));
            }
            Relation::NotEqual => {}
            Relation::Greater => low = low.max(b.low.saturating_add(1)),
            Relation::GreaterOrEqual => low = low.max(b.low),
            Relation::Less => high = high.min(b.high.saturating_sub(1)),
            Relation::LessOrEqual => high = high.min(b.high),
        }
        Range::normal(low, high, a.factor)
    }
}

/// The slot after a jump or another instruction of one slot; past the end nothing stands.
pub(crate) fn fall_to(given: &Given, next: u32, rules: &mut Rules) -> u32 {
    rules.ask(next < given.slots(), FALLS_OFF);
    next
}

/// The slot to which an instruction jumps.
fn jump_to(given: &Given, slot: u32, distance: i32, rules: &mut Rules) -> u32 {
    let target = i64::from(slot)
        .saturating_add(1)
        .saturating_add(i64::from(distance));
    if target <= i64::from(slot) {
        rules.broken(BACK_JUMP);
        return 0;
    }
    let target = u32::try_from(target).unwrap_or(u32::MAX);
    rules.ask(given.insn(target).is_some(), JUMP_OUT);
    target
}

/// Where a jump leads that is always taken.
pub(crate) fn always(
    given: &Given,
    slot: u32,
    distance: Distance,
    insn: &Insn,
    known: &Description,
    rules: &mut Rules,
) -> Onward {
    let distance = match distance {
        Distance::Offset => i32::from(insn.offset),
        Distance::Imm => insn.imm,
    };
    Onward {
        next: None,
        jump: Some(Target {
            slot: jump_to(given, slot, distance, rules),
            description: *known,
        }),
    }
}

/// What is known of dst on a way, if anything goes that way.
fn refined(relation: Option<Relation>, width: Width, a: Range, b: Range) -> Option<Range> {
    match relation {
        Some(relation) if width == Width::Bits64 || (a.high < WORD && b.high < WORD) => {
            relation.refined(a, b)
        }
        _ => Some(a),
    }
}

/// What is known on a way on which dst has these numbers, if it has any.
fn with_range(known: &Description, register: u8, range: Option<Range>) -> Option<Description> {
    let mut after = *known;
    after.set_register(register, Kind::Scalar(range?));
    Some(after)
}

/// What is known on both branches of a comparison.
#[derive(Drop)]
struct Successors {
    taken: Option<Description>,
    not_taken: Option<Description>,
}

/// A way on which nothing goes, both times.
const NO_SUCCESSOR: Successors = Successors {
    taken: None,
    not_taken: None,
};

/// The branches of a comparison of numbers.
fn of_numbers(
    comparison: Comparison,
    width: Width,
    dst: u8,
    known: &Description,
    a: Range,
    b: Range,
) -> Successors {
    let relation = Relation::of(comparison);
    let opposite = match relation {
        Some(relation) => Some(relation.opposite()),
        None => None,
    };
    Successors {
        taken: with_range(known, dst, refined(relation, width, a, b)),
        not_taken: with_range(known, dst, refined(opposite, width, a, b)),
    }
}

/// The branches of a null check of what the call at a slot answered.
fn of_answer(comparison: Comparison, known: &Description, map: u32, call: u32) -> Successors {
    let mut null = *known;
    null.answer(call, Kind::constant(0));
    let mut found = *known;
    let offsets = Range::constant(0);
    found.answer(call, Kind::MapValue { map, offsets });
    if comparison == Comparison::Equal {
        Successors {
            taken: Some(null),
            not_taken: Some(found),
        }
    } else {
        Successors {
            taken: Some(found),
            not_taken: Some(null),
        }
    }
}

/// Whether a comparison is one with the immediate 0 that a null check makes.
fn checks_null(comparison: Comparison, width: Width, source: Source, insn: &Insn) -> bool {
    matches!(comparison, Comparison::Equal | Comparison::NotEqual)
        && width == Width::Bits64
        && source == Source::Immediate
        && insn.imm == 0
}

/// Says that a comparison is of a pointer. Of a kind that isn't set another rule speaks.
fn not_of_numbers(a: Kind, b: Kind, rules: &mut Rules) {
    if matches!(a, Kind::MaybeValue { .. }) || matches!(b, Kind::MaybeValue { .. }) {
        rules.broken(NULL_NOT_CHECKED);
    } else if a.is_pointer() || b.is_pointer() {
        rules.broken(WRONG_KIND);
    }
}

/// The branches of a comparison.
fn compared(
    comparison: Comparison,
    width: Width,
    source: Source,
    insn: &Insn,
    known: &Description,
    rules: &mut Rules,
) -> Successors {
    let a = rules.read(known, insn.dst);
    let b = match source {
        Source::Immediate => Kind::constant(immediate(insn.imm, width)),
        Source::Register => rules.read(known, insn.src),
    };
    match (a, b) {
        (Kind::Scalar(a), Kind::Scalar(b)) => of_numbers(comparison, width, insn.dst, known, a, b),
        (Kind::MaybeValue { map, call }, _) if checks_null(comparison, width, source, insn) => {
            of_answer(comparison, known, map, call)
        }
        _ => {
            not_of_numbers(a, b, rules);
            NO_SUCCESSOR
        }
    }
}

/// What is known at a slot, if anything goes there.
fn target_with(slot: u32, description: Option<Description>) -> Option<Target> {
    let description = description?;
    Some(Target { slot, description })
}

/// Where a conditional jump leads.
pub(crate) fn branch(
    given: &Given,
    slot: u32,
    comparison: Comparison,
    width: Width,
    source: Source,
    known: &Description,
    rules: &mut Rules,
) -> Onward {
    let Some(insn) = given.insn(slot) else {
        return Onward::NOWHERE;
    };
    let next = fall_to(given, slot.saturating_add(1), rules);
    let jump = jump_to(given, slot, i32::from(insn.offset), rules);
    let successors = compared(comparison, width, source, &insn, known, rules);
    Onward {
        next: target_with(next, successors.not_taken),
        jump: target_with(jump, successors.taken),
    }
}
