//! Arithmetic on kinds, and the wide instruction.

use crate::description::Description;
use crate::given::Given;
use crate::kind::Kind;
use crate::range::{DOUBLE_WORD, HALF, Range};
use crate::rules::Rules;
use crate::scalars::{immediate, numbers_made};
use bpf_decode::{AluCode, Insn, Source, Width};
use host_types::rule::{
    NULL_NOT_CHECKED, OUTSIDE_CONTEXT, OUTSIDE_MAP, OUTSIDE_STACK, UNKNOWN_MAP, WRONG_KIND,
};

/// How far from its region's beginning a pointer may go.
const REACH: i128 = 65_536;

/// Whether a pointer may have an offset.
fn is_in_reach(offset: i128) -> bool {
    -REACH <= offset && offset <= REACH
}

/// The numbers by which a pointer moves: a constant of `2^63` or more goes backwards.
fn distances(by: Range) -> Range {
    match by.only() {
        Some(number) if number >= HALF => Range::constant(number.saturating_sub(DOUBLE_WORD)),
        _ => by,
    }
}

/// An offset moved forwards by ADD and backwards by SUB.
fn offset_moved(code: AluCode, offset: i128, by: i128) -> i128 {
    if code == AluCode::Sub {
        offset.saturating_sub(by)
    } else {
        offset.saturating_add(by)
    }
}

/// A pointer to a map's value, moved.
fn value_moved(code: AluCode, map: u32, offsets: Range, by: Range, rules: &mut Rules) -> Kind {
    let low = offset_moved(code, offsets.low, by.low);
    let high = offset_moved(code, offsets.high, by.high);
    rules.ask(is_in_reach(low) && is_in_reach(high), OUTSIDE_MAP);
    match Range::normal(low, high, offsets.factor.min(by.factor)) {
        Some(offsets) => Kind::MapValue { map, offsets },
        None => Kind::Unset,
    }
}

/// A pointer that ADD or SUB of 64 bits moves by a number.
fn moved(code: AluCode, pointer: Kind, by: Range, rules: &mut Rules) -> Kind {
    let by = distances(by);
    match (pointer, by.only()) {
        (Kind::Context(offset), Some(constant)) => {
            let offset = offset_moved(code, offset, constant);
            rules.ask(is_in_reach(offset), OUTSIDE_CONTEXT);
            Kind::Context(offset)
        }
        (Kind::Stack(offset), Some(constant)) => {
            let offset = offset_moved(code, offset, constant);
            rules.ask(is_in_reach(offset), OUTSIDE_STACK);
            Kind::Stack(offset)
        }
        (Kind::MapValue { map, offsets }, constant) if code == AluCode::Add || constant.is_some() =>
            { value_moved(code, map, offsets, by, rules) }
        _ => {
            rules.broken(WRONG_KIND);
            Kind::Unset
        }
    }
}

/// Whether a kind is an answer that wasn't compared with 0.
fn is_unchecked(kind: Kind) -> bool {
    matches!(kind, Kind::MaybeValue { .. })
}

/// What an instruction that is no copy makes of the kinds in dst and of the other operand.
fn made(
    code: AluCode,
    width: Width,
    insn: &Insn,
    dst: Kind,
    operand: Kind,
    rules: &mut Rules,
) -> Kind {
    if is_unchecked(dst) || is_unchecked(operand) {
        rules.broken(NULL_NOT_CHECKED);
        return Kind::Unset;
    }
    let moves = width == Width::Bits64 && (code == AluCode::Add || code == AluCode::Sub);
    match (dst, operand) {
        (Kind::Scalar(a), Kind::Scalar(b)) => numbers_made(code, width, insn, a, b),
        (Kind::Unset, _) | (_, Kind::Unset) => Kind::Unset,
        (pointer, Kind::Scalar(by)) if moves => moved(code, pointer, by, rules),
        _ => {
            rules.broken(WRONG_KIND);
            Kind::Unset
        }
    }
}

/// Whether an operation has dst as its one operand.
fn is_of_dst_alone(code: AluCode) -> bool {
    matches!(
        code,
        AluCode::Neg | AluCode::ToLittleEndian | AluCode::ToBigEndian | AluCode::SwapBytes
    )
}

/// What is known after arithmetic.
pub(crate) fn alu(
    code: AluCode,
    width: Width,
    source: Source,
    insn: &Insn,
    known: &mut Description,
    rules: &mut Rules,
) {
    let dst = if code == AluCode::Mov {
        Kind::constant(0)
    } else {
        rules.read(known, insn.dst)
    };
    let operand = if source == Source::Register && !is_of_dst_alone(code) {
        rules.read(known, insn.src)
    } else {
        Kind::constant(immediate(insn.imm, width))
    };
    rules.write(insn.dst);
    let is_copy = code == AluCode::Mov && width == Width::Bits64 && insn.offset == 0;
    let kind = if is_copy {
        operand
    } else {
        made(code, width, insn, dst, operand, rules)
    };
    known.set_register(insn.dst, kind);
}

/// What the wide instruction loads.
fn wide(given: &Given, insn: &Insn, rules: &mut Rules) -> Kind {
    if insn.src == 0 {
        let low = i128::from(insn.imm.cast_unsigned());
        let high = i128::from(insn.next_imm);
        return Kind::constant(high.saturating_mul(4_294_967_296).saturating_add(low));
    }
    let map = insn.imm.cast_unsigned();
    let Some(value_size) = given.value_size(map) else {
        rules.broken(UNKNOWN_MAP);
        return Kind::Unset;
    };
    if insn.src == 1 {
        return Kind::MapName(map);
    }
    let offset = i128::from(insn.next_imm);
    rules.ask(offset < value_size, OUTSIDE_MAP);
    Kind::MapValue {
        map,
        offsets: Range::constant(offset),
    }
}

/// What is known after the wide instruction.
pub(crate) fn load_immediate(
    given: &Given,
    insn: &Insn,
    known: &mut Description,
    rules: &mut Rules,
) {
    rules.write(insn.dst);
    let kind = wide(given, insn, rules);
    known.set_register(insn.dst, kind);
}
