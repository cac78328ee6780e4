//! What arithmetic makes of kinds, and which uses of a pointer it refuses.

ghost use Rattle.std.specs.Prelude.{◌≡◌, ◌≤ℤ◌, ◌%◌, ◌⊎◌, ℕ, ℤ, pos, IfOk, IfSome, MatchResult, Ok, Err};
ghost use Rattle.bpf_decode.specs.declared.operation.Width.TheVariants.{Bits64};
ghost use Rattle.bpf_decode.specs.declared.operation.AluCode.TheVariants.{Add, Sub};
ghost use Rattle.insn_alu.specs.Arithmetic.{IsArithmetic};
ghost use Rattle.verifier_kinds.specs.Arithmetic.{arith_of, copied, displaced, displaced_value, kind_of, moved_forward, moved_back, moved_number, signed_offset, within_offsets, within_value};
ghost use Rattle.verifier_kinds.specs.Kinds.{AreOffsets, IsKind, IsNormal, IsOffset, factor};

use crate::kind::{Align, GREATEST_OFFSET, Kind, OFFSET_BIAS, Offsets, Range};
use crate::rows::range_of;
use bpf_decode::{AluCode, Insn, Operation, Width};
use host_types::rule::{
    NULL_NOT_CHECKED, OUTSIDE_CONTEXT, OUTSIDE_MAP, OUTSIDE_STACK, UNSET_REGISTER, WRONG_KIND,
};

/// The kind that an arithmetic instruction leaves in dst, of which `a` is known before; `b` is the
/// kind of the second operand. The error is the number of the rule that it breaks: 14 where it
/// reads a dst of which nothing is known, 15 for any use of a pointer but a copy and the addition
/// or subtraction of a constant, or to a pointer into a map's value the addition of any number, 16,
/// 17 or 19 where that moves a pointer of the context, of the stack or of a map more than 65536 bytes
/// away, and 21 for any use of a lookup's answer but a copy.
pub fn arith(insn: &Insn, a: Option<Kind>, b: Kind) -> Result<Kind, u32>
    requires arithmetic { IsArithmetic insn.now }
    requires destination { IfSome a IsKind }
    requires operand { IsKind b }
    ensures result { result ≡ arith_of insn.now a b }
    ensures kind { IfOk result IsKind }
{
    match insn.operation() {
        Operation::Alu {
            code: AluCode::Mov,
            width,
            ..
        } => copied(width, insn.offset, b),
        Operation::Alu { code, width, .. } => match a {
            Some(a) => kind_of(code, width, insn.offset, a, b),
            None => Err(UNSET_REGISTER),
        },
        _ => unreachable!(),
    }
}

/// What a move makes of a kind. One of all 64 bits copies any kind, any other takes a number.
fn copied(width: Width, offset: i16, kind: Kind) -> Result<Kind, u32>
    requires { IsKind kind }
    ensures result { result ≡ copied width offset kind }
    ensures kind { IfOk result IsKind }
{
    match width {
        Width::Bits64 if offset == 0 => Ok(kind),
        _ => moved_number(width, offset, kind),
    }
}

/// What a move of a number makes of its kind.
fn moved_number(width: Width, offset: i16, kind: Kind) -> Result<Kind, u32>
    requires { IsKind kind }
    ensures result { result ≡ moved_number width offset kind }
    ensures kind { IfOk result IsKind }
{
    match kind {
        Kind::Scalar(b) => Ok(Kind::Scalar(range_of(AluCode::Mov, width, offset, b, b))),
        Kind::MaybeValue { .. } => Err(NULL_NOT_CHECKED),
        _ => Err(WRONG_KIND),
    }
}

/// What any other operation makes of the kinds of dst and of the second operand. A pointer is
/// moved as dst alone.
fn kind_of(code: AluCode, width: Width, offset: i16, a: Kind, b: Kind) -> Result<Kind, u32>
    requires left { IsKind a }
    requires right { IsKind b }
    ensures result { result ≡ kind_of code width offset a b }
    ensures kind { IfOk result IsKind }
{
    match (a, b) {
        (Kind::MaybeValue { .. }, _) | (_, Kind::MaybeValue { .. }) => Err(NULL_NOT_CHECKED),
        (Kind::Scalar(a), Kind::Scalar(b)) => Ok(Kind::Scalar(range_of(code, width, offset, a, b))),
        (Kind::Context(offset), Kind::Scalar(by)) => {
            Ok(Kind::Context(displaced(code, width, offset, by, OUTSIDE_CONTEXT)?))
        }
        (Kind::Stack(offset), Kind::Scalar(by)) => {
            Ok(Kind::Stack(displaced(code, width, offset, by, OUTSIDE_STACK)?))
        }
        (Kind::MapValue { map, offsets }, Kind::Scalar(by)) => {
            displaced_value(map, code, width, offsets, by)
        }
        _ => Err(WRONG_KIND),
    }
}

/// The offset of a pointer that an operation moves; `rule` is broken where that is too far.
fn displaced(code: AluCode, width: Width, offset: i32, by: Range, rule: u32) -> Result<i32, u32>
    requires offset { IsOffset offset }
    requires by { IsNormal by }
    ensures result { MatchResult result
        (λ k. (kind : ℤ → Kind) → displaced kind rule code width offset by ≡ Ok (kind k))
        (λ n. (kind : ℤ → Kind) → displaced kind rule code width offset by ≡ Err n) }
    ensures offset { IfOk result IsOffset }
{
    match (code, width) {
        (AluCode::Add, Width::Bits64) => moved_forward(offset, by, rule),
        (AluCode::Sub, Width::Bits64) => moved_back(offset, by, rule),
        _ => Err(WRONG_KIND),
    }
}

/// The offset of a pointer that a number moves.
fn moved_forward(offset: i32, by: Range, rule: u32) -> Result<i32, u32>
    requires offset { IsOffset offset }
    requires by { IsNormal by }
    ensures result { MatchResult result
        (λ k. (kind : ℤ → Kind) → moved_forward kind rule offset by ≡ Ok (kind k))
        (λ n. (kind : ℤ → Kind) → moved_forward kind rule offset by ≡ Err n) }
    ensures offset { IfOk result IsOffset }
{
    if !by.is_constant() {
        return Err(WRONG_KIND);
    }
    match i64::from(offset).checked_add(by.low.cast_signed()) {
        Some(sum) => within_offsets(sum, rule),
        None => Err(rule),
    }
}

/// The offset of a pointer that a number moves back.
fn moved_back(offset: i32, by: Range, rule: u32) -> Result<i32, u32>
    requires offset { IsOffset offset }
    requires by { IsNormal by }
    ensures result { MatchResult result
        (λ k. (kind : ℤ → Kind) → moved_back kind rule offset by ≡ Ok (kind k))
        (λ n. (kind : ℤ → Kind) → moved_back kind rule offset by ≡ Err n) }
    ensures offset { IfOk result IsOffset }
{
    if !by.is_constant() {
        return Err(WRONG_KIND);
    }
    match i64::from(offset).checked_sub(by.low.cast_signed()) {
        Some(difference) => within_offsets(difference, rule),
        None => Err(rule),
    }
}

/// An offset that a pointer may have; beyond that `rule` is broken.
fn within_offsets(offset: i64, rule: u32) -> Result<i32, u32>
    ensures result { MatchResult result
        (λ k. (kind : ℤ → Kind) → within_offsets kind rule offset ≡ Ok (kind k))
        (λ n. (kind : ℤ → Kind) → within_offsets kind rule offset ≡ Err n) }
    ensures offset { IfOk result IsOffset }
{
    let most = i64::from(OFFSET_BIAS);
    if -most <= offset && offset <= most {
        Ok(offset as i32)
    } else {
        Err(rule)
    }
}

/// What an operation makes of a pointer to a map's value. Any number moves it, and a constant moves it
/// back.
fn displaced_value(
    map: u32,
    code: AluCode,
    width: Width,
    offsets: Offsets,
    by: Range,
) -> Result<Kind, u32>
    requires offsets { AreOffsets offsets }
    requires by { IsNormal by }
    ensures result { result ≡ displaced_value map code width offsets by }
    ensures kind { IfOk result IsKind }
{
    match (code, width) {
        (AluCode::Add, Width::Bits64) => moved_value(map, offsets, by),
        (AluCode::Sub, Width::Bits64) => moved_back_value(map, offsets, by),
        _ => Err(WRONG_KIND),
    }
}

/// A number of a range as an offset: of a constant 2^63 or more stands for itself less 2^64.
fn signed_offset(by: Range, n: u64) -> i128
    ensures { result ≡ signed_offset by n }
{
    if by.is_constant() {
        i128::from(n.cast_signed())
    } else {
        i128::from(n)
    }
}

/// A pointer to a map's value that a number moves.
fn moved_value(map: u32, offsets: Offsets, by: Range) -> Result<Kind, u32>
    requires offsets { AreOffsets offsets }
    requires by { IsNormal by }
    ensures result { result ≡ displaced_value map Add Bits64 offsets by }
    ensures kind { IfOk result IsKind }
{
    within_value(
        map,
        offsets.align.least(by.align),
        i128::from(offsets.low) + signed_offset(by, by.low),
        i128::from(offsets.high) + signed_offset(by, by.high),
    )
}

/// A pointer to a map's value that a constant moves back.
fn moved_back_value(map: u32, offsets: Offsets, by: Range) -> Result<Kind, u32>
    requires offsets { AreOffsets offsets }
    requires by { IsNormal by }
    ensures result { result ≡ displaced_value map Sub Bits64 offsets by }
    ensures kind { IfOk result IsKind }
{
    if !by.is_constant() {
        return Err(WRONG_KIND);
    }
    let back = i128::from(by.low.cast_signed());
    within_value(
        map,
        offsets.align.least(by.align),
        i128::from(offsets.low) - back,
        i128::from(offsets.high) - back,
    )
}

/// A pointer to a map's value at the offsets between two ends, if a pointer may have them.
fn within_value(map: u32, align: Align, low: i128, high: i128) -> Result<Kind, u32>
    requires ordered { low ≤ℤ high }
    requires divided { (n : ℕ) → low ≡ pos n → n % factor align ≡ 0 }
    ensures result { result ≡ within_value map align low high }
    ensures kind { IfOk result IsKind }
{
    if low < 0 || high > i128::from(GREATEST_OFFSET) {
        return Err(OUTSIDE_MAP);
    }
    let range = Range {
        low: low as u64,
        high: high as u64,
        align,
    }
    .normalized();
    Ok(Kind::MapValue {
        map,
        offsets: Offsets::of(range),
    })
}
