//! The search for the next page that may be merged: map by map, and in each map that is there its pages.
ghost use Rattle.std.specs.Prelude.{◌≡◌, ◌+◌, ◌*◌, ◌<◌, ◌≤◌, false, drop, length, slice_index_or, IfSome, MatchOption, Option, None, Some, ℕ};
ghost use Rattle.host_types.specs.Visits.{ended_at, first_mergeable, is_mergeable};
ghost use Rattle.page_table.specs.Table.{AreMaps, contents_of, sharing_of, states_of};
ghost use Rattle.page_table.specs.View.{IsAhead, IsPass};

use crate::memory::pages;
use crate::pass::Pass;
use crate::table::Table;
use host_types::Shape;
use host_types::limits::MAX_PAGES;

/// The first page from an index on that may be merged. No index is looked at where there is no map, or
/// after a map's pages.
pub(crate) fn next_mergeable(table: &Table, shapes: &[Option<Shape>], from: usize) -> Option<usize>
    requires maps { AreMaps shapes.now (contents_of table.now) }
    requires few { length shapes.now ≤ 128 }
    ensures { result ≡ first_mergeable from (drop from (states_of table.now.entries)) }
{
    let mut at = from;
    for index in from / MAX_PAGES..shapes.len() {
        if let Some(page_index) = next_in_map(table, shapes, index, at) {
            return Some(page_index);
        }
        at = (index + 1) * MAX_PAGES;
    }
    None
}

/// The first page of a map from an index on that may be merged.
fn next_in_map(table: &Table, shapes: &[Option<Shape>], index: usize, from: usize) -> Option<usize>
    requires maps { AreMaps shapes.now (contents_of table.now) }
    requires map { index < length shapes.now }
    requires few { length shapes.now ≤ 128 }
    requires first { index * 256 ≤ from }
    ensures { MatchOption result
        ((i : ℕ) → from ≤ i → i < index * 256 + 256 → is_mergeable (slice_index_or (states_of table.now.entries) i None) ≡ false)
        (λ i. first_mergeable from (drop from (states_of table.now.entries)) ≡ Some i) }
{
    table.facts();
    let Some(shape) = &shapes[index] else {
        return None;
    };
    table.next_mergeable(from, index * MAX_PAGES + pages(shape) as usize)
}

/// Ends the pass where no page after the cursor may be merged.
pub(crate) fn end_if_done(table: &Table, shapes: &[Option<Shape>], pass: &mut Pass)
    requires maps { AreMaps shapes.now (contents_of table.now) }
    requires few { length shapes.now ≤ 128 }
    requires cursor { IfSome pass.old.cursor (λ c. c < 32768) }
    ensures ended { sharing_of table.now pass.new ≡ ended_at (sharing_of table.now pass.old) pass.old.cursor }
    ensures ahead { IsAhead (states_of table.now.entries) pass.new.cursor }
    ensures kept { IsPass table.now pass.old → IsPass table.now pass.new }
{
    let Some(cursor) = pass.cursor else {
        return;
    };
    if next_mergeable(table, shapes, cursor + 1).is_some() {
        return;
    }
    pass.end();
}
