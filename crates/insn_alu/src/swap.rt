//! Byte swaps (RFC 9669, section 4.2), on a little-endian host.

ghost use Rattle.std.specs.Prelude.{◌≡◌};
ghost use Rattle.insn_alu.specs.Arithmetic.{cut_to, swapped};

/// The low 16, 32 or 64 bits of a number.
#[inline(always)]
pub(crate) fn cut_to(bits: u64, a: u64) -> u64
    ensures { result ≡ cut_to bits a }
{
    match bits {
        16 => u64::from((a % 65536) as u16),
        32 => u64::from((a % 4294967296) as u32),
        _ => a,
    }
}

/// The same bits with their bytes in the other order.
#[inline(always)]
pub(crate) fn swapped(bits: u64, a: u64) -> u64
    ensures { result ≡ swapped bits a }
{
    match bits {
        16 => u64::from(((a % 65536) as u16).swap_bytes()),
        32 => u64::from(((a % 4294967296) as u32).swap_bytes()),
        _ => a.swap_bytes(),
    }
}
