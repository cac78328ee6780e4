//! What arithmetic instructions compute, and what conditional jumps ask (RFC 9669, sections 4.1 to 4.3).
#![tactic(auto)]

ghost use Rattle.std.specs.Prelude.{◌≡◌};
ghost use Rattle.insn_alu.specs.Arithmetic.{IsArithmetic, alu, alu_of};

mod comparison;
mod either;
mod swap;
mod wide;
mod word;

use crate::swap::{cut_to, swapped};
use crate::wide::computed_64;
use crate::word::computed_32;
use bpf_decode::{AluCode, Insn, Operation, Width};
pub use comparison::{compares, holds};

/// How many numbers a word has.
const WORD: u64 = 1 << 32;

/// The number that an arithmetic instruction leaves in dst, whose number is `a`. `b` is the number
/// of src, or imm sign-extended. With 32 bits only the low halves count, and the upper half of the
/// result is zero.
pub fn alu(insn: &Insn, a: u64, b: u64) -> u64
    requires { IsArithmetic insn.now }
    ensures { result ≡ alu_of insn.now a b }
{
    match insn.operation() {
        Operation::Alu { code, width, .. } => computed(code, width, insn.offset, a, b),
        _ => unreachable!(),
    }
}

/// What an operation with a number in its field `offset` makes of the numbers of dst and of the
/// second operand.
#[inline(always)]
#[tactic(auto, unfolding(crate::specs::Arithmetic::alu))]
pub fn computed(code: AluCode, width: Width, offset: i16, a: u64, b: u64) -> u64
    ensures { result ≡ alu code width offset a b }
{
    match (code, width) {
        (AluCode::ToLittleEndian, _) => cut_to(b, a),
        (AluCode::ToBigEndian | AluCode::SwapBytes, _) => swapped(b, a),
        (_, Width::Bits64) => computed_64(code, offset, a, b),
        (_, Width::Bits32) => u64::from(computed_32(
            code,
            offset,
            (a % WORD) as u32,
            (b % WORD) as u32,
        )),
    }
}
