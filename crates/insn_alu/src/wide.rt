//! Arithmetic on 64 bits (RFC 9669, section 4.1).

ghost use Rattle.std.specs.Prelude.{◌≡◌, ◌<◌, false};
ghost use Rattle.bpf_decode.specs.declared.operation.Width.TheVariants.{Bits64};
ghost use Rattle.insn_alu.specs.Arithmetic.{alu, count, quotient, remainder, moved, is_swap};

use crate::either::{computed, quotient, remainder};
use bpf_decode::AluCode;

/// What an operation on 64 bits makes of two numbers.
#[inline(always)]
#[tactic(auto, unfolding(crate::specs::Arithmetic::alu))]
pub(crate) fn computed_64(code: AluCode, offset: i16, a: u64, b: u64) -> u64
    requires { is_swap code ≡ false }
    ensures { result ≡ alu code Bits64 offset a b }
{
    computed!(code, offset, a, b)
}

/// A shift's count: its low bits.
#[inline(always)]
fn count(b: u64) -> u32
    ensures count { result ≡ count Bits64 b }
    ensures small { result < 64 }
{
    (b % 64) as u32
}

/// A division truncates. By zero it gives 0; the least signed number divided by -1 gives itself.
#[inline(always)]
fn quotient(offset: i16, a: u64, b: u64) -> u64
    ensures { result ≡ quotient Bits64 offset a b }
{
    quotient!(offset, a, b)
}

/// What a division leaves. By zero it leaves all.
#[inline(always)]
fn remainder(offset: i16, a: u64, b: u64) -> u64
    ensures { result ≡ remainder Bits64 offset a b }
{
    remainder!(offset, a, b)
}

/// A number that is moved: its low 8, 16 or 32 bits with their sign, or all of it.
#[inline(always)]
fn moved(offset: i16, b: u64) -> u64
    ensures { result ≡ moved Bits64 offset b }
{
    match offset {
        8 => i64::from(((b % 256) as u8).cast_signed()).cast_unsigned(),
        16 => i64::from(((b % 65536) as u16).cast_signed()).cast_unsigned(),
        32 => i64::from(((b % 4294967296) as u32).cast_signed()).cast_unsigned(),
        _ => b,
    }
}
