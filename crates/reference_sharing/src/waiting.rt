//! The pages that wait, each by its index and its recorded fingerprint.
ghost use Rattle.std.specs.Prelude.{◌≡◌, ◌+◌, ◌<◌, ◌^◌, ◌++◌, ◌∷◌, [], find, IfOk};
ghost use Rattle.host_types.specs.Sharing.{waiting_without};
ghost use Rattle.host_types.specs.Visits.{is_partner, waiting_outside};
ghost use Rattle.reference_sharing.specs.View.{plain_contents};

use crate::contents;
use std::alloc::AllocError;

/// Puts a page after all others.
pub(crate) fn insert(
    waiting: &mut Vec<(usize, u64)>,
    page_index: usize,
    fingerprint: u64,
) -> Result<(), AllocError>
    ensures { IfOk result (λ _. waiting.new.items ≡ waiting.old.items ++ (page_index, fingerprint) ∷ []) }
{
    waiting.push((page_index, fingerprint))?;
    Ok(())
}

/// Takes a page off the list, if it waits.
pub(crate) fn forget(waiting: &mut Vec<(usize, u64)>, page_index: usize)
    ensures { waiting.new.items ≡ waiting_without page_index waiting.old.items }
{
    waiting.retain(|entry| entry.0 != page_index);
}

/// Takes the pages at so many indices from one on off the list.
pub(crate) fn forget_all(waiting: &mut Vec<(usize, u64)>, first: usize, count: usize)
    requires { first + count < 2 ^ 64 }
    ensures { waiting.new.items ≡ waiting_outside first count waiting.old.items }
{
    let end = first + count;
    waiting.retain(|entry| !(first <= entry.0 && entry.0 < end));
}

/// The page that waits longest of those that had a fingerprint, and have some bytes now.
pub(crate) fn find_partner(
    waiting: &[(usize, u64)],
    contents: &[Vec<u8>],
    fingerprint: u64,
    bytes: &[u8],
) -> Option<(usize, u64)>
    ensures { result ≡ find (is_partner (plain_contents contents.now) fingerprint bytes.now) waiting.now }
{
    for entry in waiting {
        if is_partner(*entry, contents, fingerprint, bytes) {
            return Some(*entry);
        }
    }
    None
}

/// Whether a waiting page had a fingerprint, and has some bytes now.
fn is_partner(entry: (usize, u64), contents: &[Vec<u8>], fingerprint: u64, bytes: &[u8]) -> bool
    ensures { result ≡ is_partner (plain_contents contents.now) fingerprint bytes.now entry }
{
    entry.1 == fingerprint && contents::bytes_at(contents, entry.0) == bytes
}
