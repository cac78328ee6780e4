ghost use Rattle.std.specs.Prelude.{◌≡◌, ◌*◌, ◌<◌, ◌≤◌, if◌then◌else◌, replicate, false};
ghost use Rattle.host_types.specs.Pins.{capped, unpinned_from, unpinned_in};
ghost use Rattle.page_table.specs.State.{part};
ghost use Rattle.page_table.specs.Changes.{pages_of_map};
ghost use Rattle.verifier.specs.Writes.{writes_from};
ghost use Rattle.admission.specs.Reserve.{needed_from, pages_asked, whole_need};

use host_types::MapNo;
use host_types::limits::{MAX_MAPS, PAGE_SIZE};
use page_table::Memory;
use verifier::Verified;

/// How many frames a run of a tenant may need from a slot of its program on, which is what is reserved for it
/// there: the smaller of what its stores may take in all, and of how many pages aren't pinned in the maps that
/// they may write. At most eight numbers are read, and no page is looked at.
#[inline]
pub fn needed(program: &Verified, memory: &Memory, tenant: u32, slot: u32) -> u32
    ensures { result ≡ needed_from program.now (part memory.now tenant) slot }
{
    let total = program.reserve(slot);
    // Most steps have no store ahead of them.
    if total == 0 {
        return 0;
    }
    capped(program, memory, tenant, slot, total)
}

/// How many frames a run may need from a slot on, for a caller that knows a number which that isn't above, as what is recorded for the
/// run: once so many pages are counted, no further map is looked at.
#[inline]
pub fn needed_within(program: &Verified, memory: &Memory, tenant: u32, slot: u32, most: u32) -> u32
    requires { needed_from program.now (part memory.now tenant) slot ≤ most }
    ensures { result ≡ needed_from program.now (part memory.now tenant) slot }
{
    let total = program.reserve(slot).min(most);
    if total == 0 {
        return 0;
    }
    capped(program, memory, tenant, slot, total)
}

/// The smaller of what a run's stores may take in all and of how many pages the rest of it may take out: those that
/// aren't pinned of the maps that it may write. Once these are as many, no further map is looked at.
#[inline(never)]
#[tactic(auto, using(crate::proofs::Counting::unpinned_small))]
fn capped(program: &Verified, memory: &Memory, tenant: u32, slot: u32, total: u32) -> u32
    ensures { result ≡ capped total
        (unpinned_in (writes_from program.now slot) (pages_of_map (part memory.now tenant)) (part memory.now tenant).pins 0 8) }
{
    let mut pages = 0;
    for map in 0..MAX_MAPS as MapNo {
        if program.writes(slot, map) {
            pages += memory.unpinned(tenant, map);
            if pages >= total {
                return total;
            }
        }
    }
    pages
}

/// How many frames a run of a program may need where no page is pinned, by the shapes that the program has for its
/// maps.
pub fn whole_need(program: &Verified) -> u32
    ensures { result ≡ whole_need program.now }
{
    let mut pages = 0;
    for map in 0..MAX_MAPS as MapNo {
        pages += may_write(program, map);
    }
    program.reserve(0).min(pages)
}

/// How many pages a map has, where a run of a program may write it.
fn may_write(program: &Verified, map: MapNo) -> u32
    requires { map < 8 }
    ensures number { result ≡ (if writes_from program.now 0 map
        then unpinned_from (replicate 2048 false) (map * 256) (pages_asked program.now.subject map) else 0) }
    ensures few { result ≤ 2048 }
{
    if program.writes(0, map) {
        pages_asked(program, map)
    } else {
        0
    }
}

/// How many pages a map has that a program has a shape for, and none where it has none.
fn pages_asked(program: &Verified, map: MapNo) -> u32
    ensures number { result ≡ pages_asked program.now.subject map }
    ensures few { result ≤ 256 }
{
    program.facts();
    match program.shapes().get(map as usize) {
        Some(Some(shape)) => shape.byte_len().div_ceil(PAGE_SIZE),
        _ => 0,
    }
}
