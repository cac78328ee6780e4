//! What arithmetic makes of numbers.

use crate::kind::Kind;
use crate::range::{DOUBLE_WORD, Range, WORD};
use bpf_decode::{AluCode, Insn, Width};
use insn_alu::computed;

/// The number that is one above all that arithmetic of a width gives.
pub(crate) fn modulus(width: Width) -> i128 {
    match width {
        Width::Bits64 => DOUBLE_WORD,
        Width::Bits32 => WORD,
    }
}

/// An immediate as arithmetic of a width takes it.
pub(crate) fn immediate(imm: i32, width: Width) -> i128 {
    match width {
        Width::Bits64 => i128::from(imm).rem_euclid(DOUBLE_WORD),
        Width::Bits32 => i128::from(imm).rem_euclid(WORD),
    }
}

/// A power of 2.
pub(crate) fn power_of_2(exponent: i128) -> i128 {
    let mut power = 1i128;
    for done in 0..64u8 {
        if i128::from(done) < exponent {
            power = power.saturating_mul(2);
        }
    }
    power
}

/// The least number `2^k - 1` at or above one of 64 bits.
fn ones_above(number: i128) -> i128 {
    let mut ones = 0i128;
    for _ in 0..64u8 {
        if ones < number {
            ones = ones.saturating_mul(2).saturating_add(1);
        }
    }
    ones
}

/// An operand as arithmetic takes it: one that may be too large is any number below the modulus.
fn cut(operand: Range, modulus: i128) -> Range {
    if operand.high >= modulus {
        Range::full(modulus, operand.factor)
    } else {
        operand
    }
}

/// A range, or all numbers if it may be too large.
fn if_below(modulus: i128, low: i128, high: i128, factor: i128) -> Range {
    if high < modulus {
        Range { low, high, factor }
    } else {
        Range::full(modulus, factor)
    }
}

/// What a division makes, where the divisor may be 0 or not.
fn quotient(a: Range, b: Range) -> Range {
    if b.low >= 1 {
        Range {
            low: a.low.checked_div(b.high).unwrap_or(0),
            high: a.high.checked_div(b.low).unwrap_or(0),
            factor: 1,
        }
    } else {
        Range {
            low: 0,
            high: a.high,
            factor: 1,
        }
    }
}

/// What a modulo makes, where the divisor may be 0 or not.
fn rest(a: Range, b: Range) -> Range {
    let high = if b.low >= 1 {
        a.high.min(b.high.saturating_sub(1))
    } else {
        a.high
    };
    Range {
        low: 0,
        high,
        factor: 1,
    }
}

/// The constant by which a shift goes, as its width masks it.
fn count_of(b: Range, modulus: i128) -> Option<i128> {
    let count = b.only()?;
    Some(if modulus == WORD {
        count.rem_euclid(32)
    } else {
        count.rem_euclid(64)
    })
}

/// What a shift to the left makes.
fn shifted_left(a: Range, b: Range, modulus: i128) -> Range {
    match count_of(b, modulus) {
        Some(count) => {
            let by = power_of_2(count);
            let factor = a.factor.saturating_mul(by).min(8);
            let high = a.high.saturating_mul(by);
            if_below(modulus, a.low.saturating_mul(by), high, factor)
        }
        None => Range::full(modulus, a.factor),
    }
}

/// What a shift to the right makes.
fn shifted_right(a: Range, b: Range, modulus: i128) -> Range {
    match count_of(b, modulus) {
        Some(count) => {
            let by = power_of_2(count);
            Range {
                low: a.low.checked_div(by).unwrap_or(0),
                high: a.high.checked_div(by).unwrap_or(0),
                factor: 1,
            }
        }
        None => Range {
            low: 0,
            high: a.high,
            factor: 1,
        },
    }
}

/// What a sum, a difference or a product makes.
fn summed(code: AluCode, modulus: i128, a: Range, b: Range) -> Range {
    let least = a.factor.min(b.factor);
    match code {
        AluCode::Add => if_below(
            modulus,
            a.low.saturating_add(b.low),
            a.high.saturating_add(b.high),
            least,
        ),
        AluCode::Sub if a.low >= b.high => Range {
            low: a.low.saturating_sub(b.high),
            high: a.high.saturating_sub(b.low),
            factor: least,
        },
        AluCode::Mul => if_below(
            modulus,
            a.low.saturating_mul(b.low),
            a.high.saturating_mul(b.high),
            a.factor.saturating_mul(b.factor).min(8),
        ),
        _ => Range::full(modulus, least),
    }
}

/// What an operation on bits makes.
fn combined(code: AluCode, a: Range, b: Range) -> Range {
    let least = a.factor.min(b.factor);
    match code {
        AluCode::And => Range {
            low: 0,
            high: a.high.min(b.high),
            factor: a.factor.max(b.factor),
        },
        AluCode::Or => Range {
            low: a.low.max(b.low),
            high: ones_above(a.high.max(b.high)),
            factor: least,
        },
        _ => Range {
            low: 0,
            high: ones_above(a.high.max(b.high)),
            factor: least,
        },
    }
}

/// The row of the table of an operation, for dst and the other operand. A division with the field `offset` is
/// signed, and a move with it extends a sign.
fn row(code: AluCode, insn: &Insn, modulus: i128, a: Range, b: Range) -> Range {
    match code {
        AluCode::Add | AluCode::Sub | AluCode::Mul => summed(code, modulus, a, b),
        AluCode::Div if insn.offset == 0 => quotient(a, b),
        AluCode::Mod if insn.offset == 0 => rest(a, b),
        AluCode::And | AluCode::Or | AluCode::Xor => combined(code, a, b),
        AluCode::Lsh => shifted_left(a, b, modulus),
        AluCode::Rsh => shifted_right(a, b, modulus),
        AluCode::Mov if insn.offset == 0 => b,
        AluCode::ToLittleEndian | AluCode::ToBigEndian | AluCode::SwapBytes => Range {
            low: 0,
            high: power_of_2(i128::from(insn.imm)).saturating_sub(1),
            factor: 1,
        },
        _ => Range::full(modulus, 1),
    }
}

/// The constant that an instruction computes of two.
fn constant_of(code: AluCode, width: Width, insn: &Insn, a: i128, b: i128) -> i128 {
    let a = u64::try_from(a).unwrap_or(0);
    let b = u64::try_from(b).unwrap_or(0);
    i128::from(computed(code, width, insn.offset, a, b))
}

/// What an instruction makes of the numbers in dst and of the other operand. Where it has one operand alone, the
/// other one is given as a constant.
pub(crate) fn numbers_made(code: AluCode, width: Width, insn: &Insn, a: Range, b: Range) -> Kind {
    let modulus = modulus(width);
    let a = cut(a, modulus);
    let b = cut(b, modulus);
    if let (Some(a), Some(b)) = (a.only(), b.only()) {
        return Kind::constant(constant_of(code, width, insn, a, b));
    }
    let made = row(code, insn, modulus, a, b);
    match Range::normal(made.low, made.high, made.factor) {
        Some(range) => Kind::Scalar(range),
        None => Kind::Unset,
    }
}
