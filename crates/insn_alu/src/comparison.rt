//! What conditional jumps ask (RFC 9669, section 4.3).

ghost use Rattle.std.specs.Prelude.{◌≡◌};
ghost use Rattle.bpf_decode.specs.declared.operation.Width.TheVariants.{Bits32, Bits64};
ghost use Rattle.insn_alu.specs.Comparisons.{IsBranch, compared, holds, holds_of};

use crate::WORD;
use bpf_decode::{Comparison, Insn, Operation, Width};

/// Whether the comparison of a conditional jump holds of dst, whose number is `a`. `b` is the number
/// of src, or imm sign-extended. With 32 bits only the low halves count.
pub fn holds(insn: &Insn, a: u64, b: u64) -> bool
    requires { IsBranch insn.now }
    ensures { result ≡ holds_of insn.now a b }
{
    match insn.operation() {
        Operation::Branch {
            comparison,
            width,
            ..
        } => compares(comparison, width, a, b),
        _ => unreachable!(),
    }
}

/// Whether a comparison holds of the numbers of dst and of the second operand.
#[inline(always)]
#[tactic(auto, unfolding(crate::specs::Comparisons::holds))]
pub fn compares(comparison: Comparison, width: Width, a: u64, b: u64) -> bool
    ensures { result ≡ holds comparison width a b }
{
    match width {
        Width::Bits64 => compared_64(comparison, a, b),
        Width::Bits32 => compared_32(comparison, (a % WORD) as u32, (b % WORD) as u32),
    }
}

// What is written alike for both widths.
macro_rules! compared {
    ($comparison:expr, $a:expr, $b:expr) => {
        match $comparison {
            Comparison::Equal => $a == $b,
            Comparison::NotEqual => $a != $b,
            Comparison::Greater => $a > $b,
            Comparison::GreaterOrEqual => $a >= $b,
            Comparison::Less => $a < $b,
            Comparison::LessOrEqual => $a <= $b,
            Comparison::AnyBit => $a & $b != 0,
            Comparison::SignedGreater => $a.cast_signed() > $b.cast_signed(),
            Comparison::SignedGreaterOrEqual => $a.cast_signed() >= $b.cast_signed(),
            Comparison::SignedLess => $a.cast_signed() < $b.cast_signed(),
            Comparison::SignedLessOrEqual => $a.cast_signed() <= $b.cast_signed(),
        }
    };
}

/// Whether a comparison holds of two numbers of 64 bits.
#[inline(always)]
#[tactic(auto, using(crate::proofs::Halves::low_of_small))]
fn compared_64(comparison: Comparison, a: u64, b: u64) -> bool
    ensures { result ≡ compared comparison Bits64 a b }
{
    compared!(comparison, a, b)
}

/// Whether a comparison holds of two numbers of 32 bits.
#[inline(always)]
fn compared_32(comparison: Comparison, a: u32, b: u32) -> bool
    ensures { result ≡ compared comparison Bits32 a b }
{
    compared!(comparison, a, b)
}
