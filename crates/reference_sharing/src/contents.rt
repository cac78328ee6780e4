//! The bytes of pages by index.
ghost use Rattle.std.specs.Prelude.{◌≡◌, bytes_eq};
ghost use Rattle.host_types.specs.Pages.{fingerprint_of, zero_page};
ghost use Rattle.host_types.specs.Visits.{group_bytes};
ghost use Rattle.reference_sharing.specs.View.{plain_contents};

/// The bytes of the page at an index, none past the list's end.
pub(crate) fn bytes_at(contents: &[Vec<u8>], page_index: usize) -> &[u8]
    ensures { result.now ≡ plain_contents contents.now page_index }
{
    match contents.get(page_index) {
        Some(bytes) => bytes.as_slice(),
        None => &[],
    }
}

/// The bytes of a group's pages, which are those of its first one.
pub(crate) fn group_bytes<'a>(contents: &'a [Vec<u8>], group: &[usize]) -> &'a [u8]
    ensures { result.now ≡ group_bytes (plain_contents contents.now) group.now }
{
    match group.first() {
        Some(page_index) => bytes_at(contents, *page_index),
        None => &[],
    }
}

/// The fingerprint of some bytes, folded in one after another.
#[tactic(auto, unfolding(host_types::specs::Pages::fingerprint_of))]
pub(crate) fn fingerprint(bytes: &[u8]) -> u64
    ensures { result ≡ fingerprint_of bytes.now }
{
    let mut fingerprint = 0u64;
    for byte in bytes {
        fingerprint = fingerprint.wrapping_mul(31).wrapping_add(u64::from(*byte));
    }
    fingerprint
}

/// Whether some bytes are a page of zeros.
pub(crate) fn is_zeros(bytes: &[u8]) -> bool
    ensures { result ≡ bytes_eq bytes.now zero_page }
{
    are_same(bytes, [0; 4096].as_slice())
}

/// Whether some bytes are the same ones as others.
pub(crate) fn are_same(one: &[u8], other: &[u8]) -> bool
    ensures { result ≡ bytes_eq one.now other.now }
{
    one == other
}
