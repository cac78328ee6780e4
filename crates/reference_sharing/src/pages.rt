//! Pages by index.
ghost use Rattle.std.specs.Prelude.{◌≡◌, ◌+◌, ◌<◌, ◌≤◌, length, slice_index_or, slice_set, sum_by, option_map, None, drop};
ghost use Rattle.host_types.specs.Visits.{first_mergeable, is_mergeable};
ghost use Rattle.host_types.specs.Sharing.{with_status};
ghost use Rattle.host_types.specs.Pages.{page_bytes};
ghost use Rattle.reference_sharing.specs.View.{page_of, page_states, one_of};

use crate::sharing::PlainPage;
use host_types::Status;

/// The page at an index, if there is one.
pub(crate) fn at(pages: &[Option<PlainPage>], page_index: usize) -> Option<PlainPage>
    ensures { result ≡ slice_index_or pages.now page_index None }
{
    match pages.get(page_index) {
        Some(page) => *page,
        None => None,
    }
}

/// Puts a page at an index, if the index is there.
pub(crate) fn put(pages: &mut [Option<PlainPage>], page_index: usize, page: Option<PlainPage>)
    ensures { page_states pages.new ≡ slice_set (page_states pages.old) page_index (option_map page_of page) }
{
    if page_index < pages.len() {
        pages[page_index] = page;
    }
}

/// Gives the page at an index, if there is one, another status.
pub(crate) fn set_status(pages: &mut [Option<PlainPage>], page_index: usize, status: Status)
    ensures { page_states pages.new ≡ slice_set (page_states pages.old) page_index (option_map (with_status status) (slice_index_or (page_states pages.old) page_index None)) }
{
    let page = match at(pages, page_index) {
        Some(page) => Some(PlainPage { status, ..page }),
        None => None,
    };
    put(pages, page_index, page);
}

/// Which pages are counted.
#[derive(Clone, Copy)]
pub(crate) enum Sort {
    /// Those with a frame of their own.
    Own,
    /// Those on the frame of zeros.
    Zeros,
    /// Those that wait for another one of their bytes.
    Waiting,
    /// Those that changed since they were visited last.
    Volatile,
}

/// How many pages are of a sort.
pub(crate) fn count(pages: &[Option<PlainPage>], sort: Sort) -> usize
    ensures count { result ≡ sum_by (one_of sort) (page_states pages.now) }
    ensures few { result ≤ length pages.now }
{
    let mut count = 0;
    for page in pages {
        count += sort.one(*page);
    }
    count
}

impl Sort {
    /// One for a page of this sort.
    fn one(self, page: Option<PlainPage>) -> usize
        ensures value { result ≡ one_of self (option_map page_of page) }
        ensures small { result ≤ 1 }
    {
        let Some(page) = page else {
            return 0;
        };
        let is_counted = match self {
            Sort::Own => !page.status.is_shared(),
            Sort::Zeros => page.status == Status::Zero,
            Sort::Waiting => page.status == Status::Waiting,
            Sort::Volatile => page.status == Status::Volatile,
        };
        usize::from(is_counted)
    }
}

/// The index of the first page from an index on that may be merged.
pub(crate) fn next_from(pages: &[Option<PlainPage>], from: usize) -> Option<usize>
    ensures { result ≡ first_mergeable from (drop from (page_states pages.now)) }
{
    for page_index in from..pages.len() {
        if is_mergeable(pages[page_index]) {
            return Some(page_index);
        }
    }
    None
}

/// The index of the first page after an index that may be merged.
pub(crate) fn next_following(pages: &[Option<PlainPage>], page_index: usize) -> Option<usize>
    ensures { result ≡ first_mergeable (page_index + 1) (drop (page_index + 1) (page_states pages.now)) }
{
    if page_index < pages.len() {
        next_from(pages, page_index + 1)
    } else {
        None
    }
}

/// Whether a page is there and may be merged.
fn is_mergeable(page: Option<PlainPage>) -> bool
    ensures { result ≡ is_mergeable (option_map page_of page) }
{
    match page {
        Some(page) => page.mergeable,
        None => false,
    }
}

/// Reads the content of a map's page: 4096 bytes of the map from the page's first one on, zeros after
/// the map's last one.
pub fn page_content(bytes: &[u8], number: usize, into: &mut [u8])
    requires number { number < 256 }
    requires size { length into.old ≡ 4096 }
    ensures { into.new ≡ page_bytes bytes.now number }
{
    into.fill(0);
    let rest = &bytes[usize::min(number * 4096, bytes.len())..];
    let size = usize::min(4096, rest.len());
    into[..size].copy_from_slice(&rest[..size]);
}
