//! Arithmetic on 32 bits (RFC 9669, section 4.1).

ghost use Rattle.std.specs.Prelude.{◌≡◌, ◌<◌, false};
ghost use Rattle.bpf_decode.specs.declared.operation.Width.TheVariants.{Bits32};
ghost use Rattle.insn_alu.specs.Arithmetic.{alu, count, quotient, remainder, moved, is_swap};

use crate::either::{computed, quotient, remainder};
use bpf_decode::AluCode;

/// What an operation on 32 bits makes of two numbers.
#[inline(always)]
#[tactic(auto, unfolding(crate::specs::Arithmetic::alu))]
pub(crate) fn computed_32(code: AluCode, offset: i16, a: u32, b: u32) -> u32
    requires { is_swap code ≡ false }
    ensures { result ≡ alu code Bits32 offset a b }
{
    computed!(code, offset, a, b)
}

/// A shift's count: its low bits.
#[inline(always)]
fn count(b: u32) -> u32
    ensures count { result ≡ count Bits32 b }
    ensures small { result < 32 }
{
    (b % 32) as u32
}

/// A division truncates. By zero it gives 0; the least signed number divided by -1 gives itself.
#[inline(always)]
fn quotient(offset: i16, a: u32, b: u32) -> u32
    ensures { result ≡ quotient Bits32 offset a b }
{
    quotient!(offset, a, b)
}

/// What a division leaves. By zero it leaves all.
#[inline(always)]
fn remainder(offset: i16, a: u32, b: u32) -> u32
    ensures { result ≡ remainder Bits32 offset a b }
{
    remainder!(offset, a, b)
}

/// A number that is moved: its low 8, 16 or 32 bits with their sign, or all of it.
#[inline(always)]
fn moved(offset: i16, b: u32) -> u32
    ensures { result ≡ moved Bits32 offset b }
{
    match offset {
        8 => i32::from(((b % 256) as u8).cast_signed()).cast_unsigned(),
        16 => i32::from(((b % 65536) as u16).cast_signed()).cast_unsigned(),
        _ => b,
    }
}
