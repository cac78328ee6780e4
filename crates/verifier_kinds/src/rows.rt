//! What arithmetic makes of ranges: a row for each operation.

ghost use Rattle.std.specs.Prelude.{◌≡◌, ◌-◌, ◌<◌, ◌≤◌};
ghost use Rattle.insn_alu.specs.Arithmetic.{count, modulus};
ghost use Rattle.verifier_kinds.specs.Kinds.{IsNormal};
ghost use Rattle.verifier_kinds.specs.Arithmetic.{all, and_of, computed_range, difference_of, greatest_of_bits, shifted_left, left_shift_of, ones_from, or_of, product_of, quotient_of, range_of, remainder_of, right_shift_of, row, sum_of, swapped_range, range_taken, xor_of};

use crate::kind::{Align, Range};
use bpf_decode::{AluCode, Width};
use insn_alu::computed;

/// The range of what an operation with a number in its field `offset` makes of the numbers of two
/// ranges.
#[tactic(auto, using(crate::proofs::Operands::taken_below))]
pub(crate) fn range_of(code: AluCode, width: Width, offset: i16, a: Range, b: Range) -> Range
    requires left { IsNormal a }
    requires right { IsNormal b }
    ensures range { result ≡ range_of code width offset a b }
    ensures normal { IsNormal result }
{
    computed_range(code, width, offset, taken(width, a), taken(width, b))
}

/// The same of two ranges of the operation's width: of two numbers just theirs.
fn computed_range(code: AluCode, width: Width, offset: i16, a: Range, b: Range) -> Range
    requires left { IsNormal a }
    requires right { IsNormal b }
    requires left_fits { a.high < modulus width }
    requires right_fits { b.high < modulus width }
    ensures range { result ≡ computed_range code width offset a b }
    ensures normal { IsNormal result }
{
    if a.is_constant() && b.is_constant() {
        Range::constant(computed(code, width, offset, a.low, b.low))
    } else {
        row(code, width, offset, a, b).normalized()
    }
}

/// What a width takes of an operand: with 32 bits, of a range with larger numbers the alignment
/// alone.
#[tactic(auto, using(crate::proofs::Operands::all_starts))]
fn taken(width: Width, range: Range) -> Range
    requires { IsNormal range }
    ensures range_taken { result ≡ range_taken width range }
    ensures normal { IsNormal result }
{
    if range.high <= greatest(width) {
        range
    } else {
        all(width, range.align).normalized()
    }
}

/// The greatest number of a width.
fn greatest(width: Width) -> u64
    ensures { result ≡ modulus width - 1 }
{
    match width {
        Width::Bits32 => u64::from(u32::MAX),
        Width::Bits64 => u64::MAX,
    }
}

/// All numbers of a width that an alignment divides.
fn all(width: Width, align: Align) -> Range
    ensures { result ≡ all width align }
{
    Range {
        low: 0,
        high: greatest(width),
        align,
    }
}

/// What an operation makes of two ranges of its width, the ends raw. Where a result may wrap, it is
/// all numbers. The field `offset` gives the signed forms.
#[tactic(auto, unfolding(crate::specs::Arithmetic::row))]
fn row(code: AluCode, width: Width, offset: i16, a: Range, b: Range) -> Range
    requires left { IsNormal a }
    requires right { IsNormal b }
    ensures { result ≡ row code width offset a b }
{
    match code {
        AluCode::Add => sum_of(width, a, b),
        AluCode::Sub => difference_of(width, a, b),
        AluCode::Mul => product_of(width, a, b),
        AluCode::Div if offset == 0 => quotient_of(a, b),
        AluCode::Or => or_of(a, b),
        AluCode::And => and_of(a, b),
        AluCode::Lsh => left_shift_of(width, a, b),
        AluCode::Rsh => right_shift_of(width, a, b),
        AluCode::Mod if offset == 0 => remainder_of(a, b),
        AluCode::Xor => xor_of(a, b),
        AluCode::Mov if offset == 0 => b,
        AluCode::Div | AluCode::Mod | AluCode::Mov | AluCode::Neg | AluCode::Arsh => {
            all(width, Align::One)
        }
        AluCode::ToLittleEndian | AluCode::ToBigEndian | AluCode::SwapBytes => swapped_range(b),
    }
}

fn sum_of(width: Width, a: Range, b: Range) -> Range
    requires left { a.low ≤ a.high }
    requires right { b.low ≤ b.high }
    ensures { result ≡ sum_of width a b }
{
    let align = a.align.least(b.align);
    match a.high.checked_add(b.high) {
        Some(high) if high <= greatest(width) => Range {
            low: a.low + b.low,
            high,
            align,
        },
        _ => all(width, align),
    }
}

/// A difference may wrap where the second number may be the larger one.
fn difference_of(width: Width, a: Range, b: Range) -> Range
    requires left { a.low ≤ a.high }
    requires right { b.low ≤ b.high }
    ensures { result ≡ difference_of width a b }
{
    let align = a.align.least(b.align);
    if b.high <= a.low {
        Range {
            low: a.low - b.high,
            high: a.high - b.low,
            align,
        }
    } else {
        all(width, align)
    }
}

fn product_of(width: Width, a: Range, b: Range) -> Range
    requires left { a.low ≤ a.high }
    requires right { b.low ≤ b.high }
    ensures { result ≡ product_of width a b }
{
    let align = a.align.raised(b.align.rank());
    match a.high.checked_mul(b.high) {
        Some(high) if high <= greatest(width) => Range {
            low: a.low * b.low,
            high,
            align,
        },
        _ => all(width, align),
    }
}

/// A division by zero gives 0.
fn quotient_of(a: Range, b: Range) -> Range
    requires { b.low ≤ b.high }
    ensures { result ≡ quotient_of a b }
{
    let (low, high) = if b.low == 0 {
        (0, a.high)
    } else {
        (a.low / b.high, a.high / b.low)
    };
    Range {
        low,
        high,
        align: Align::One,
    }
}

/// A division by zero leaves all.
fn remainder_of(a: Range, b: Range) -> Range
    requires { b.low ≤ b.high }
    ensures { result ≡ remainder_of a b }
{
    let high = if b.low == 0 {
        a.high
    } else {
        a.high.min(b.high - 1)
    };
    Range {
        low: 0,
        high,
        align: Align::One,
    }
}

/// The bits that both numbers have.
fn and_of(a: Range, b: Range) -> Range
    ensures { result ≡ and_of a b }
{
    Range {
        low: 0,
        high: a.high.min(b.high),
        align: a.align.greatest(b.align),
    }
}

fn or_of(a: Range, b: Range) -> Range
    ensures { result ≡ or_of a b }
{
    Range {
        low: a.low.max(b.low),
        high: ones_from(a.high.max(b.high)),
        align: a.align.least(b.align),
    }
}

fn xor_of(a: Range, b: Range) -> Range
    ensures { result ≡ xor_of a b }
{
    Range {
        low: 0,
        high: ones_from(a.high.max(b.high)),
        align: a.align.least(b.align),
    }
}

/// The least number at or above another whose bits are all ones.
fn ones_from(n: u64) -> u64
    ensures { result ≡ ones_from n }
{
    match n.leading_zeros() {
        64 => 0,
        zeros => u64::MAX >> zeros,
    }
}

/// A shift by a number, of which the low bits count.
fn left_shift_of(width: Width, a: Range, b: Range) -> Range
    requires { a.low ≤ a.high }
    ensures { result ≡ left_shift_of width a b }
{
    if b.is_constant() {
        shifted_left(width, count(width, b.low), a)
    } else {
        all(width, a.align)
    }
}

fn shifted_left(width: Width, bits: u32, a: Range) -> Range
    requires few { bits < 64 }
    requires ordered { a.low ≤ a.high }
    ensures { result ≡ shifted_left width bits a }
{
    let power = 1 << bits;
    let align = a.align.raised(bits);
    match a.high.checked_mul(power) {
        Some(high) if high <= greatest(width) => Range {
            low: a.low * power,
            high,
            align,
        },
        _ => all(width, align),
    }
}

fn right_shift_of(width: Width, a: Range, b: Range) -> Range
    ensures { result ≡ right_shift_of width a b }
{
    let (low, high) = if b.is_constant() {
        let bits = count(width, b.low);
        (a.low >> bits, a.high >> bits)
    } else {
        (0, a.high)
    };
    Range {
        low,
        high,
        align: Align::One,
    }
}

/// The low bits of a shift's count.
fn count(width: Width, n: u64) -> u32
    ensures count { result ≡ count width n }
    ensures small { result < 64 }
{
    match width {
        Width::Bits32 => (n % 32) as u32,
        Width::Bits64 => (n % 64) as u32,
    }
}

/// All numbers of a byte swap's width, which is its second operand.
fn swapped_range(b: Range) -> Range
    ensures { result ≡ swapped_range b }
{
    let bits = if b.is_constant() { b.low } else { 64 };
    Range {
        low: 0,
        high: greatest_of_bits(bits),
        align: Align::One,
    }
}

/// The greatest number of 16, 32 or 64 bits.
fn greatest_of_bits(bits: u64) -> u64
    ensures { result ≡ greatest_of_bits bits }
{
    match bits {
        16 => u64::from(u16::MAX),
        32 => u64::from(u32::MAX),
        _ => u64::MAX,
    }
}
