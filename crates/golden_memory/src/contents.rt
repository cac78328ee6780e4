//! A thousand contents in 4,096 frames, each on a page of each of two tenants. What is wanted is known without the plain
//! program, beside which so many pages take too long.

ghost use Rattle.std.specs.Prelude.{◌≡◌, ◌≤◌, ◌⊎◌};

use host_types::limits::PAGE_SIZE;
use host_types::{Fault, Options, Visited};
use page_table::Memory;
use scanner::visit;
use std::alloc::Global;
use std::io;
use write_break::{needs, store};

/// How many contents there are.
const CONTENTS: u32 = 1000;

/// How many of them are in a map.
const IN_A_MAP: u32 = 250;

/// How many tenants have a page of each content.
const TENANTS: u32 = 2;

/// The last eight bytes of a page.
const LAST: u32 = 4088;

/// A memory with a page for each content of each tenant.
fn filled(alloc: Global) -> Result<Memory, Fault> {
    let mut memory = Memory::new(alloc, 4096, TENANTS, Options::standard())?;
    make_maps(&mut memory)?;
    Ok(memory)
}

/// Makes the maps of the contents.
fn make_maps(memory: &mut Memory) -> Result<(), Fault> {
    for map in 0..TENANTS * (CONTENTS / IN_A_MAP) {
        memory.create_map(map % TENANTS, PAGE_SIZE, IN_A_MAP, true)?;
    }
    Ok(())
}

/// Stores a number of eight bytes at an index of a tenant's page; whether the page and what that takes were there.
fn store_number(memory: &mut Memory, tenant: u32, map: u32, page: u32, at: u32, number: u64) -> bool
    requires { at ≡ 0 ⊎ at ≡ LAST }
{
    if page >= memory.byte_len(tenant, map) / PAGE_SIZE {
        return false;
    }
    let page_index = page * PAGE_SIZE + at;
    if needs(memory, tenant, map, page_index, 8) > memory.have() {
        return false;
    }
    store(memory, tenant, map, page_index, 8, number);
    true
}

/// Stores a content at its page of a tenant: the pages of one map differ at their first bytes, those of different maps at
/// their last ones. Whether it was stored.
fn store_content(memory: &mut Memory, tenant: u32, content: u32) -> bool {
    let map = content / IN_A_MAP;
    let page = content % IN_A_MAP;
    store_number(memory, tenant, map, page, 0, u64::from(page))
        && store_number(memory, tenant, map, page, LAST, u64::from(map) + 1)
}

/// Stores all contents of a tenant; whether each was stored.
fn store_all(memory: &mut Memory, tenant: u32) -> bool {
    let mut all = true;
    for content in 0..CONTENTS {
        all &= store_content(memory, tenant, content);
    }
    all
}

/// Visits each page so often. Returns how many visits did what is asked for.
fn visits(memory: &mut Memory, times: u32, wanted: Visited) -> u32
    requires { times ≤ 10 }
{
    let mut found = 0u32;
    for _ in 0..times * TENANTS * CONTENTS {
        found = found.saturating_add(u32::from(visit(memory) == wanted));
    }
    found
}

/// How many contents are paired, and how many are found again after one page of each left its group and was given the
/// same bytes.
fn found_in(memory: &mut Memory) -> [u32; 2] {
    if !store_all(memory, 0) || !store_all(memory, 1) {
        return [0, 0];
    }
    let paired = visits(memory, 2, Visited::Paired);
    if !store_all(memory, 1) {
        return [paired, 0];
    }
    [paired, visits(memory, 1, Visited::Joined)]
}

/// What is found in a new memory.
fn found_again(alloc: Global) -> Result<[u32; 2], Fault> {
    let mut memory = filled(alloc)?;
    Ok(found_in(&mut memory))
}

/// Prints the row of many contents.
pub(crate) fn print_contents(rt: &(impl AllocGlobal + Print)) -> io::Result<()> {
    match found_again(rt.alloc()) {
        Ok(found) => {
            let [paired, joined] = found;
            println!(rt;
                "{CONTENTS} contents on two pages each: {paired} pairs, and {joined} found again"
            )
        }
        Err(_) => println!(rt; "{CONTENTS} contents: a map or a memory is refused"),
    }
}
