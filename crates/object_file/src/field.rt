//! Little-endian numbers at an offset of bytes.

ghost use Rattle.std.specs.Prelude.{◌≡◌, ◌+◌, ◌<◌, ◌≤◌, length, MatchOption};
ghost use Rattle.object_file.specs.Numbers.{IsPartOfFile, file_number_at};

use byteorder::{ByteOrder, LittleEndian};

/// The number of two bytes, if they are there.
#[tactic(auto, unfolding(crate::specs::Numbers::file_number_at))]
pub(crate) fn u16_at(bytes: &[u8], at: usize) -> Option<u16>
    ensures { MatchOption result (length bytes.now < at + 2) (λ n. (at + 2 ≤ length bytes.now) × (n ≡ file_number_at 2 bytes.now at)) }
{
    if bytes.len() < 2 || at > bytes.len() - 2 {
        return None;
    }
    Some(LittleEndian::read_u16(&bytes[at..]))
}

/// The number of four bytes, if they are there.
#[tactic(auto, unfolding(crate::specs::Numbers::file_number_at))]
pub(crate) fn u32_at(bytes: &[u8], at: usize) -> Option<u32>
    ensures { MatchOption result (length bytes.now < at + 4) (λ n. (at + 4 ≤ length bytes.now) × (n ≡ file_number_at 4 bytes.now at)) }
{
    if bytes.len() < 4 || at > bytes.len() - 4 {
        return None;
    }
    Some(LittleEndian::read_u32(&bytes[at..]))
}

/// The number of eight bytes, if they are there.
#[tactic(auto, unfolding(crate::specs::Numbers::file_number_at))]
pub(crate) fn u64_at(bytes: &[u8], at: usize) -> Option<u64>
    ensures { MatchOption result (length bytes.now < at + 8) (λ n. (at + 8 ≤ length bytes.now) × (n ≡ file_number_at 8 bytes.now at)) }
{
    if bytes.len() < 8 || at > bytes.len() - 8 {
        return None;
    }
    Some(LittleEndian::read_u64(&bytes[at..]))
}

/// An offset or a size of a file. This host has 64 bits.
pub(crate) fn usize_at(bytes: &[u8], at: usize) -> Option<usize>
    ensures { MatchOption result (length bytes.now < at + 8) (λ n. (at + 8 ≤ length bytes.now) × (n ≡ file_number_at 8 bytes.now at)) }
{
    match u64_at(bytes, at) {
        Some(number) => Some(number as usize),
        None => None,
    }
}

/// As many bytes from an offset on, if they are there.
#[tactic(auto, using(crate::proofs::Parts::part_of_range))]
pub(crate) fn part_at(bytes: &[u8], at: usize, size: usize) -> Option<&[u8]>
    ensures { MatchOption result (length bytes.now < at + size) (λ part. (length part.now ≡ size) × IsPartOfFile bytes.now at part.now) }
{
    if bytes.len() < size || at > bytes.len() - size {
        return None;
    }
    Some(&bytes[at..at + size])
}
