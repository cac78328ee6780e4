//! What is done to single pages, where it may be done.

ghost use Rattle.std.specs.Prelude.{◌≡◌, ◌≢◌, IsTrue};
ghost use Rattle.host_types.specs.Pages.{page_bytes, zero_page};
ghost use Rattle.page_table.specs.State.{bytes_of_map};
ghost use Rattle.page_table.specs.Changes.{IsPageOf, MayMerge};

use crate::there::{has, is_there};
use host_types::{Fault, Page};
use page_table::Memory;
use std::alloc::{AllocError, Global};
use write_break::{load, needs, store_bytes};

/// The most bytes that a map has.
const MOST: u32 = 1 << 20;

/// A page of a tenant's first map.
pub(crate) fn page(tenant: u32, number: u32) -> Page {
    Page {
        tenant,
        map: 0,
        number,
    }
}

/// Whether a page may be merged, has a frame of its own and isn't pinned.
fn may_merge(memory: &Memory, page: Page) -> bool
    requires { IsPageOf memory.now page }
    ensures { IsTrue result → MayMerge memory.now page }
{
    let entry = memory.entry(page);
    entry.mergeable && !entry.protected && !memory.is_pinned(page)
}

/// Whether two pages have the same bytes.
fn are_same(memory: &Memory, first: Page, second: Page) -> bool
    requires first { IsPageOf memory.now first }
    requires second { IsPageOf memory.now second }
    ensures { IsTrue result → page_bytes (bytes_of_map memory.now first) first.number
        ≡ page_bytes (bytes_of_map memory.now second) second.number }
{
    let one = memory.entry(first);
    let other = memory.entry(second);
    memory.arena().same(one.frame, other.frame)
}

/// Whether a page holds zeros.
fn is_zero(memory: &Memory, page: Page) -> bool
    requires { IsPageOf memory.now page }
    ensures { IsTrue result → page_bytes (bytes_of_map memory.now page) page.number ≡ zero_page }
{
    let entry = memory.entry(page);
    memory.arena().is_zero(entry.frame)
}

/// Whether two pages of first maps are different ones.
fn differ(first: Page, second: Page) -> bool
    ensures { IsTrue result → first ≢ second }
{
    first.tenant != second.tenant || first.number != second.number
}

/// Pairs two pages, where that may be.
pub(crate) fn pair(memory: &mut Memory, first: Page, second: Page) -> bool {
    if !is_there(memory, first) || !is_there(memory, second) || !differ(first, second) {
        return false;
    }
    if !may_merge(memory, first) || !may_merge(memory, second) {
        return false;
    }
    if !are_same(memory, first, second) {
        return false;
    }
    memory.pair(first, second);
    true
}

/// Puts a page on the frame of zeros, where that may be.
pub(crate) fn zero(memory: &mut Memory, page: Page) -> bool {
    if !is_there(memory, page) || !may_merge(memory, page) || !is_zero(memory, page) {
        return false;
    }
    memory.zero(page);
    true
}

/// Begins a run of a tenant that has none, where so many frames may be reserved.
pub(crate) fn begin(memory: &mut Memory, tenant: u32, frames: u32) -> bool {
    memory.maps_are_flat();
    if tenant >= memory.tenants() || memory.is_running(tenant) || frames > memory.have() {
        return false;
    }
    memory.begin_run(tenant, frames);
    true
}

/// Ends a tenant's run.
pub(crate) fn end(memory: &mut Memory, tenant: u32) -> bool {
    memory.maps_are_flat();
    if tenant >= memory.tenants() || !memory.is_running(tenant) {
        return false;
    }
    memory.end_run(tenant);
    true
}

/// The number in eight bytes of a tenant's first map.
pub(crate) fn number_at(memory: &Memory, tenant: u32, at: u32) -> Option<u64> {
    if !has(memory, tenant, 0, at, 8) || at % 8 != 0 {
        return None;
    }
    Some(load(memory, tenant, 0, at, 8))
}

/// How many frames a store of some bytes of a tenant's first map takes.
pub(crate) fn cost(memory: &Memory, tenant: u32, at: u32, len: u32) -> Option<u32> {
    if !has(memory, tenant, 0, at, len) {
        return None;
    }
    Some(needs(memory, tenant, 0, at, len))
}

/// Stores a byte at each of some indices of a tenant's first map, where they and the frames are there.
pub(crate) fn fill(
    alloc: Global,
    memory: &mut Memory,
    tenant: u32,
    at: u32,
    len: u32,
    byte: u8,
) -> Result<bool, Fault> {
    if len > MOST || !has(memory, tenant, 0, at, len) {
        return Ok(false);
    }
    if needs(memory, tenant, 0, at, len) > memory.have() {
        return Ok(false);
    }
    match vec![in alloc; byte; len as usize] {
        Ok(bytes) => {
            store_bytes(memory, tenant, 0, at, &bytes);
            Ok(true)
        }
        Err(AllocError) => Err(Fault::OutOfMemory),
    }
}
