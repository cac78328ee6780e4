//! Sixteen bytes folded into a fingerprint at once. Bytes are digits to base 31, and vectors join
//! neighbours to digits of a larger base: four bytes make one to base 31^4, eight one to base 31^8.
ghost use Rattle.std.specs.Prelude.{◌≡◌, fold, length};
ghost use Rattle.host_types.specs.Pages.{folded};
ghost use Rattle.frame_arena.specs.Digits.{digit_pairs};

use std::simd::prelude::*;

/// A fingerprint with sixteen bytes folded in. Only the products by a power of 31 can pass 64 bits,
/// and the sums with them.
pub(crate) fn with_sixteen(fingerprint: u64, bytes: &[u8]) -> u64
    requires { length bytes.now ≡ 16 }
    ensures { result ≡ fold folded fingerprint bytes.now }
{
    let eights = eights_of(fours_of(u8x16::from_slice(bytes))).to_array();
    fingerprint.wrapping_mul(12662688596514954753).wrapping_add(
        eights[0].wrapping_mul(852891037441).wrapping_add(eights[1]),
    )
}

/// Sixteen digits to base 31 as four to base 31^4.
fn fours_of(bytes: u8x16) -> u32x4
    ensures { result ≡ digit_pairs 961 (digit_pairs 31 bytes) }
{
    let high = bytes.dot4(u8x16::from_array([31, 1, 0, 0, 31, 1, 0, 0, 31, 1, 0, 0, 31, 1, 0, 0]));
    let low = bytes.dot4(u8x16::from_array([0, 0, 31, 1, 0, 0, 31, 1, 0, 0, 31, 1, 0, 0, 31, 1]));
    high * u32x4::splat(961) + low
}

/// Four digits to base 31^4 as two to base 31^8.
fn eights_of(fours: u32x4) -> u64x2
    ensures { result ≡ digit_pairs 923521 fours }
{
    let first = fours.swizzle([0, 2]).cast::<u64>();
    let second = fours.swizzle([1, 3]).cast::<u64>();
    first * u64x2::splat(923521) + second
}
