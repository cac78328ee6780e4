//! Bytes of a block by their offset, and pages of a block by the offset of their first byte.
ghost use Rattle.std.specs.Prelude.{◌≡◌, ◌+◌, ◌<◌, ◌≤◌, ◌⊎◌, All, fold, length, replicate};
ghost use Rattle.host_types.specs.Bytes.{bytes_of, part_of, with_part};
ghost use Rattle.host_types.specs.Pages.{zero_page, folded, fingerprint_of};
ghost use Rattle.frame_arena.specs.Pages.{IsAccessSize};

use crate::number::write_number;
use crate::sixteen::with_sixteen;
use host_types::limits::PAGE_SIZE;

/// Each byte is below 256, which its type says.
pub(crate) fn bytes_are_small(block: &[u8])
    ensures { All (λ byte. byte < 256) block.now }
{}

/// Some bytes of a block.
pub(crate) fn part(block: &[u8], start: usize, size: usize) -> &[u8]
    requires { start + size ≤ length block.now }
    ensures bytes { result.now ≡ part_of block.now start size }
    ensures sized { length result.now ≡ size }
{
    &block[start..start + size]
}

/// Writes bytes over others.
pub(crate) fn put(block: &mut [u8], start: usize, bytes: &[u8])
    requires { start + length bytes.now ≤ length block.old }
    ensures { block.new ≡ with_part block.old start bytes.now }
{
    block[start..start + bytes.len()].copy_from_slice(bytes);
}

/// Writes the lowest bytes of a number over others.
pub(crate) fn put_number(block: &mut [u8], start: usize, size: usize, value: u64)
    requires size { IsAccessSize size }
    requires within { start + size ≤ length block.old }
    ensures { block.new ≡ with_part block.old start (bytes_of size value) }
{
    write_number(&mut block[start..start + size], value);
}

/// Fills a page with zeros.
pub(crate) fn clear(block: &mut [u8], start: usize)
    requires { start + PAGE_SIZE ≤ length block.old }
    ensures { block.new ≡ with_part block.old start zero_page }
{
    block[start..start + PAGE_SIZE as usize].fill(0);
}

/// Copies a page to another offset. The two don't overlap, or are one.
pub(crate) fn copy(block: &mut [u8], from: usize, to: usize)
    requires from { from + PAGE_SIZE ≤ length block.old }
    requires to { to + PAGE_SIZE ≤ length block.old }
    requires apart { (from ≡ to) ⊎ (from + PAGE_SIZE ≤ to) ⊎ (to + PAGE_SIZE ≤ from) }
    ensures { block.new ≡ with_part block.old to (part_of block.old from 4096) }
{
    let size = PAGE_SIZE as usize;
    if from < to {
        let (low, high) = block.split_at_mut(to);
        put(high, 0, part(low, from, size));
    } else if to < from {
        let (low, high) = block.split_at_mut(from);
        put(low, to, part(high, 0, size));
    }
}

/// The fingerprint of a page's bytes. Sixteen bytes are folded in at once.
#[tactic(auto, unfolding(host_types::specs::Pages::fingerprint_of))]
pub(crate) fn fingerprint(page: &[u8]) -> u64
    ensures { result ≡ fingerprint_of page.now }
{
    let mut fingerprint = 0u64;
    let mut rest = page;
    while rest.len() >= 16 {
        let (sixteen, later) = rest.split_at(16);
        fingerprint = with_sixteen(fingerprint, sixteen);
        rest = later;
    }
    with_each(fingerprint, rest)
}

/// A fingerprint with bytes folded in one by one.
fn with_each(fingerprint: u64, bytes: &[u8]) -> u64
    ensures { result ≡ fold folded fingerprint bytes.now }
{
    let mut fingerprint = fingerprint;
    for byte in bytes {
        fingerprint = fingerprint.wrapping_mul(31).wrapping_add(u64::from(*byte));
    }
    fingerprint
}
