//! Groups of pages, each a list of indices.
ghost use Rattle.std.specs.Prelude.{◌≡◌, ◌&&◌, ◌<◌, ◌≤◌, ◌^◌, nat_lt, bytes_eq, map, length, take, slice_index_or, [], ◌∷◌, IfOk, insert, sum_by};
ghost use Rattle.std.specs.List.{list_any};
ghost use Rattle.host_types.specs.Counters.{times_among, repeated_among, seconds_following};
ghost use Rattle.host_types.specs.Sharing.{is_among, without, left_by, joined_by};
ghost use Rattle.host_types.specs.Visits.{group_bytes, join_first};
ghost use Rattle.reference_sharing.specs.View.{indices_in, plain_contents, bytes_of_each, is_open_below};

use crate::contents;
use std::alloc::{AllocError, Global};

/// The group of two indices, in their order.
#[tactic(auto, unfolding(host_types::specs::Sharing::joined_by))]
pub(crate) fn pair(alloc: Global, first: usize, second: usize) -> Result<Vec<usize>, AllocError>
    ensures { IfOk result (λ group. group.items ≡ joined_by first (second ∷ [])) }
{
    if first < second {
        Ok(vec![in alloc; first, second]?)
    } else {
        Ok(vec![in alloc; second, first]?)
    }
}

/// Whether an index is in a group with another one.
pub(crate) fn in_company(groups: &[Vec<usize>], page_index: usize) -> bool
    ensures { result ≡ list_any (λ group. is_among page_index group && nat_lt 1 (length group)) (indices_in groups.now) }
{
    for group in groups {
        if has_company(group, page_index) {
            return true;
        }
    }
    false
}

/// Whether an index is in a group, and another one too.
fn has_company(group: &[usize], page_index: usize) -> bool
    ensures { result ≡ (is_among page_index group.now && nat_lt 1 (length group.now)) }
{
    group.contains(&page_index) && group.len() > 1
}

/// Takes an index out of its group. A group without indices disappears.
pub(crate) fn leave(groups: &mut Vec<Vec<usize>>, page_index: usize)
    ensures { indices_in groups.new.items ≡ left_by page_index (indices_in groups.old.items) }
{
    take_from_each(groups, page_index);
    groups.retain(|group| !group.is_empty());
}

/// Takes an index out of each group.
fn take_from_each(groups: &mut [Vec<usize>], page_index: usize)
    ensures { indices_in groups.new ≡ map (without page_index) (indices_in groups.old) }
{
    for group in groups.iter_mut() {
        take_out(group, page_index);
    }
}

/// Takes an index out of a group.
fn take_out(group: &mut Vec<usize>, page_index: usize)
    ensures { group.new.items ≡ without page_index group.old.items }
{
    group.retain(|other| *other != page_index);
}

/// Puts an index into the first group that has its page's bytes, and fewer pages than the limit. It
/// answers whether there is one.
pub(crate) fn join_first(
    groups: &mut [Vec<usize>],
    contents: &[Vec<u8>],
    page_index: usize,
    limit: usize,
) -> Result<bool, AllocError>
    ensures answered { IfOk result (λ is_joined. is_joined
        ≡ list_any (is_open_below limit (plain_contents contents.now) (plain_contents contents.now page_index)) (indices_in groups.old)) }
    ensures joined { IfOk result (λ _. indices_in groups.new
        ≡ join_first (is_open_below limit (plain_contents contents.now) (plain_contents contents.now page_index)) page_index (indices_in groups.old)) }
{
    for group in groups.iter_mut() {
        if is_open(group, contents, page_index, limit) {
            join(group, page_index)?;
            return Ok(true);
        }
    }
    Ok(false)
}

/// Whether a group has the bytes of the page at an index, and fewer pages than the limit.
fn is_open(group: &[usize], contents: &[Vec<u8>], page_index: usize, limit: usize) -> bool
    ensures { result ≡ is_open_below limit (plain_contents contents.now) (plain_contents contents.now page_index) group.now }
{
    let bytes = contents::bytes_at(contents, page_index);
    contents::are_same(contents::group_bytes(contents, group), bytes) && group.len() < limit
}

/// Puts an index into a group, in its order.
pub(crate) fn join(group: &mut Vec<usize>, page_index: usize) -> Result<(), AllocError>
    ensures { IfOk result (λ _. group.new.items ≡ joined_by page_index group.old.items) }
{
    let index = index_for(group, page_index);
    group.insert(index, page_index)?;
    Ok(())
}

/// Where an index goes in a group.
fn index_for(group: &[usize], page_index: usize) -> usize
    ensures value { insert group.now result page_index ≡ joined_by page_index group.now }
    ensures inside { result ≤ length group.now }
{
    for index in 0..group.len() {
        if page_index < group[index] {
            return index;
        }
    }
    group.len()
}

/// How many indices all groups have together.
pub(crate) fn members(groups: &[Vec<usize>]) -> u128
    ensures sum { result ≡ sum_by (λ group. length group) (indices_in groups.now) }
    ensures small { result < 2 ^ 127 }
{
    let mut members = 0;
    for group in groups {
        members += size(group);
    }
    members
}

/// How many indices a group has.
fn size(group: &[usize]) -> u128
    ensures value { result ≡ length group.now }
    ensures small { result < 2 ^ 64 }
{
    group.len() as u128
}

/// Whether a group has some bytes.
fn has_bytes(group: &[usize], contents: &[Vec<u8>], bytes: &[u8]) -> bool
    ensures { result ≡ bytes_eq (group_bytes (plain_contents contents.now) group.now) bytes.now }
{
    contents::are_same(contents::group_bytes(contents, group), bytes)
}

/// How many groups have some bytes.
fn count_alike(groups: &[Vec<usize>], contents: &[Vec<u8>], bytes: &[u8]) -> usize
    ensures { result ≡ times_among bytes.now (bytes_of_each (plain_contents contents.now) groups.now) }
{
    let mut count = 0;
    for group in groups {
        count += usize::from(has_bytes(group, contents, bytes));
    }
    count
}

/// How many of the groups before one have its bytes.
fn count_before(groups: &[Vec<usize>], contents: &[Vec<u8>], index: usize) -> usize
    requires { index < length groups.now }
    ensures { result ≡ times_among (slice_index_or (bytes_of_each (plain_contents contents.now) groups.now) index [])
        (take index (bytes_of_each (plain_contents contents.now) groups.now)) }
{
    let bytes = contents::group_bytes(contents, &groups[index]);
    count_alike(&groups[..index], contents, bytes)
}

/// How many groups are the second one of their bytes.
pub(crate) fn count_seconds(groups: &[Vec<usize>], contents: &[Vec<u8>]) -> usize
    ensures { result ≡ seconds_following [] (bytes_of_each (plain_contents contents.now) groups.now) }
{
    let mut count = 0;
    for index in 0..groups.len() {
        count += usize::from(count_before(groups, contents, index) == 1);
    }
    count
}

/// Whether a group's bytes are those of another group too.
fn is_repeated(groups: &[Vec<usize>], contents: &[Vec<u8>], group: &[usize]) -> bool
    ensures { result ≡ nat_lt 1 (times_among (group_bytes (plain_contents contents.now) group.now)
        (bytes_of_each (plain_contents contents.now) groups.now)) }
{
    count_alike(groups, contents, contents::group_bytes(contents, group)) > 1
}

/// How many groups have bytes that another group has too.
pub(crate) fn count_repeated(groups: &[Vec<usize>], contents: &[Vec<u8>]) -> usize
    ensures { result ≡ repeated_among (bytes_of_each (plain_contents contents.now) groups.now)
        (bytes_of_each (plain_contents contents.now) groups.now) }
{
    let mut count = 0;
    for group in groups {
        count += usize::from(is_repeated(groups, contents, group));
    }
    count
}
