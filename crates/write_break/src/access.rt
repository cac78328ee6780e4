ghost use Rattle.std.specs.Prelude.{◌≡◌, ◌⊎◌, ◌+◌, ◌*◌, ◌/◌, ◌<◌, ◌≤◌, ◌%◌, length, true};
ghost use Rattle.host_types.specs.Bytes.{number_of, bytes_of, part_of, with_part};
ghost use Rattle.host_types.specs.Pages.{page_index_of};
ghost use Rattle.host_types.specs.Pins.{broken_for_run};
ghost use Rattle.host_types.specs.Sharing.{break_cost};
ghost use Rattle.frame_arena.specs.Pages.{IsAccessSize};
ghost use Rattle.page_table.specs.State.{part, map_bytes, have_of};
ghost use Rattle.page_table.specs.Changes.{part_written, with_pins, OtherTenantsUnchanged, AreMapsKeptBut, KeepsSettings, IsPageOf, IsOwn};
ghost use Rattle.write_break.specs.Stores.{touched, part_stored, with_pins_of, stored_sharing, store_frames, IsStored};

use host_types::limits::PAGE_SIZE;
use host_types::{MapNo, Page};
use page_table::Memory;

/// The page of a tenant's map that a byte is in.
#[inline(always)]
pub fn page_of(tenant: u32, map: MapNo, at: u32) -> Page
    ensures { result ≡ record { tenant = tenant; map = map; number = at / 4096 } }
{
    Page {
        tenant,
        map,
        number: at / PAGE_SIZE,
    }
}

/// The number in `size` bytes of a tenant's map from the byte `at` on, the lowest byte first. A
/// number has 1, 2, 4 or 8 bytes, and stands at a multiple of its size.
pub fn load(memory: &Memory, tenant: u32, map: MapNo, at: u32, size: u32) -> u64
    requires size { IsAccessSize size }
    requires within { at + size ≤ length (map_bytes (part memory.now tenant) map) }
    requires aligned { at % size ≡ 0 }
    ensures { result ≡ number_of (part_of (map_bytes (part memory.now tenant) map) at size) }
{
    let entry = memory.entry(page_of(tenant, map, at));
    memory.arena().read(entry.frame, at % PAGE_SIZE, size)
}

/// How many pages some bytes of a map lie on.
fn touched_pages(at: u32, len: u32) -> u32
    ensures { result ≡ touched at len }
{
    if len == 0 {
        return 0;
    }
    let end = u64::from(at) + u64::from(len);
    let last = (end - 1) / u64::from(PAGE_SIZE);
    last as u32 - at / PAGE_SIZE + 1
}

/// How many frames a store of `len` bytes would take now: one for each of their pages that shares its
/// frame with another, each counted after the breaks before it. Nothing is changed. Whichever pages
/// share frames, it is at most the number of pages that the bytes lie on: one within a page, else at most
/// two for up to 4096 bytes.
pub fn needs(memory: &Memory, tenant: u32, map: MapNo, at: u32, len: u32) -> u32
    requires within { at + len ≤ length (map_bytes (part memory.now tenant) map) }
    ensures cost { result ≡ store_frames memory.now.sharing tenant map at len }
    ensures few { result ≤ touched at len }
    ensures one { at % 4096 + len ≤ 4096 → result ≤ 1 }
    ensures two { len ≤ 4096 → result ≤ 2 }
{
    let count = touched_pages(at, len);
    if count == 0 {
        return 0;
    }
    memory.break_costs(page_of(tenant, map, at), count)
}

/// Writes the lowest `size` bytes of a number to a tenant's map from the byte `at` on, the lowest
/// first. A page that shares its frame is taken out before, and pinned where the tenant has an open run.
/// It is part of each caller, so that of a width that one knows it is one write, after one look at the page.
#[inline(always)]
pub fn store(memory: &mut Memory, tenant: u32, map: MapNo, at: u32, size: u32, value: u64)
    requires size { IsAccessSize size }
    requires within { at + size ≤ length (map_bytes (part memory.old tenant) map) }
    requires aligned { at % size ≡ 0 }
    requires room { store_frames memory.old.sharing tenant map at size ≤ have_of memory.old }
    ensures stored { part memory.new tenant
        ≡ with_pins_of memory.new.sharing tenant (part_stored (part memory.old tenant) map at size value) }
    ensures bytes { map_bytes (part memory.new tenant) map
        ≡ with_part (map_bytes (part memory.old tenant) map) at (bytes_of size value) }
    ensures length { length (map_bytes (part memory.new tenant) map)
        ≡ length (map_bytes (part memory.old tenant) map) }
    ensures other_maps { AreMapsKeptBut map (part memory.old tenant) (part memory.new tenant) }
    ensures others { OtherTenantsUnchanged tenant memory.old memory.new }
    ensures sharing { memory.new.sharing
        ≡ stored_sharing (part memory.old tenant).running memory.old.sharing tenant map at size }
    ensures have { have_of memory.new + store_frames memory.old.sharing tenant map at size ≡ have_of memory.old }
    ensures settings { KeepsSettings memory.old memory.new }
{
    let page = page_of(tenant, map, at);
    take_out_shared(memory, page);
    memory.put_number(page, at % PAGE_SIZE, size, value);
}

/// Takes a page out if it shares its frame, as `take_out` does: most pages have a frame of their own, and are only looked at.
#[inline(always)]
fn take_out_shared(memory: &mut Memory, page: Page)
    requires there { IsPageOf memory.old page }
    requires room { break_cost memory.old.sharing (page_index_of page) ≤ have_of memory.old }
    ensures maps { memory.new.maps ≡ memory.old.maps }
    ensures part { part memory.new page.tenant ≡
        with_pins (part_of memory.new.sharing.pins (page.tenant * 2048) 2048) (part memory.old page.tenant) }
    ensures others { OtherTenantsUnchanged page.tenant memory.old memory.new }
    ensures sharing { memory.new.sharing ≡
        broken_for_run (part memory.old page.tenant).running memory.old.sharing (page_index_of page) }
    ensures own { IsOwn memory.new page }
    ensures have { have_of memory.new + break_cost memory.old.sharing (page_index_of page) ≡ have_of memory.old }
    ensures settings { KeepsSettings memory.old memory.new }
{
    if memory.entry(page).protected {
        memory.take_out(page);
    }
}

/// Writes bytes to a tenant's map from the byte `at` on. Each of their pages that shares its frame is
/// taken out before it is written, and pinned where the tenant has an open run. No bytes write nothing.
pub fn store_bytes(memory: &mut Memory, tenant: u32, map: MapNo, at: u32, bytes: &[u8])
    requires within { at + length bytes.now ≤ length (map_bytes (part memory.old tenant) map) }
    requires room { store_frames memory.old.sharing tenant map at (length bytes.now) ≤ have_of memory.old }
    ensures written { part memory.new tenant
        ≡ with_pins_of memory.new.sharing tenant (part_written (part memory.old tenant) map at bytes.now) }
    ensures bytes { map_bytes (part memory.new tenant) map
        ≡ with_part (map_bytes (part memory.old tenant) map) at bytes.now }
    ensures length { length (map_bytes (part memory.new tenant) map)
        ≡ length (map_bytes (part memory.old tenant) map) }
    ensures other_maps { AreMapsKeptBut map (part memory.old tenant) (part memory.new tenant) }
    ensures others { OtherTenantsUnchanged tenant memory.old memory.new }
    ensures sharing { memory.new.sharing
        ≡ stored_sharing (part memory.old tenant).running memory.old.sharing tenant map at (length bytes.now) }
    ensures have { have_of memory.new + store_frames memory.old.sharing tenant map at (length bytes.now)
        ≡ have_of memory.old }
    ensures settings { KeepsSettings memory.old memory.new }
{
    let by_run = memory.is_running(tenant);
    store_bytes_as(memory, tenant, map, at, bytes, by_run);
}

/// Writes bytes as `store_bytes` does, and pins the pages that it takes out only where that is asked: a store
/// that no run makes pins nothing. Only for a tenant that has an open run a pin may be asked.
pub fn store_bytes_as(
    memory: &mut Memory,
    tenant: u32,
    map: MapNo,
    at: u32,
    bytes: &[u8],
    is_pinned: bool,
)
    requires within { at + length bytes.now ≤ length (map_bytes (part memory.old tenant) map) }
    requires room { store_frames memory.old.sharing tenant map at (length bytes.now) ≤ have_of memory.old }
    requires run { is_pinned ≡ true → (part memory.old tenant).running ≡ true }
    ensures { IsStored is_pinned memory.old memory.new tenant map at bytes.now }
{
    map_is_small(memory, tenant, map);
    let mut offset = at;
    let mut rest = bytes;
    while !rest.is_empty() {
        let size = size_in_page(offset, rest);
        let (first, later) = rest.split_at(size);
        store_in_page(memory, tenant, map, offset, first, is_pinned);
        offset += size as u32;
        rest = later;
    }
}

/// A map has few bytes: at most 256 pages, which its shape says.
fn map_is_small(memory: &Memory, tenant: u32, map: MapNo)
    ensures { length (map_bytes (part memory.now tenant) map) ≤ 1048576 }
{
    memory.shape(tenant, map);
}

/// How many of some bytes, which are to lie from the byte `at` on, are in the first one's page.
fn size_in_page(at: u32, bytes: &[u8]) -> usize
    requires { 0 < length bytes.now }
    ensures some { 0 < result }
    ensures within { result ≤ length bytes.now }
    ensures in_page { at % 4096 + result ≤ 4096 }
    ensures all { (result ≡ length bytes.now) ⊎ (at % 4096 + result ≡ 4096) }
{
    let room = (PAGE_SIZE - at % PAGE_SIZE) as usize;
    if bytes.len() < room {
        bytes.len()
    } else {
        room
    }
}

/// Writes bytes that lie in one page, which is taken out before, and pinned where that is asked; one with its
/// own frame stays as it is.
fn store_in_page(
    memory: &mut Memory,
    tenant: u32,
    map: MapNo,
    at: u32,
    bytes: &[u8],
    is_pinned: bool,
)
    requires some { 0 < length bytes.now }
    requires in_page { at % 4096 + length bytes.now ≤ 4096 }
    requires within { at + length bytes.now ≤ length (map_bytes (part memory.old tenant) map) }
    requires room { store_frames memory.old.sharing tenant map at (length bytes.now) ≤ have_of memory.old }
    requires run { is_pinned ≡ true → (part memory.old tenant).running ≡ true }
    ensures { IsStored is_pinned memory.old memory.new tenant map at bytes.now }
{
    let page = page_of(tenant, map, at);
    memory.take_out_as(page, is_pinned);
    memory.put(page, at % PAGE_SIZE, bytes);
}
