//! The memory of two tenants with the same maps, whose pages lie on frames of their own or share them.

use crate::fixture::{Fixture, Value};
use host_types::{MapNo, Shape};
use map_helpers::{update, update_needs};
use page_table::Memory;
use reference_machine::ArrayMap;
use scanner::visit;
use std::alloc::Global;
use tests_inputs::Pages;
use write_break::load;

/// How many tenants there are.
const TENANTS: u32 = 2;

/// How many frames are free beside those of all pages.
const ROOM: usize = 32;

/// How often each page is visited: then all that are alike share frames.
const PASSES: usize = 3;

/// The flag of an update by which the element may be there or not.
const ANY: u64 = 0;

/// How many pages some maps have.
fn page_count(maps: &[Option<ArrayMap>]) -> usize {
    let mut count: usize = 0;
    for map in maps {
        if let Some(map) = map {
            count = count.saturating_add(map.bytes().len().div_ceil(4096));
        }
    }
    count
}

/// How many pages of a map have zeros alone.
fn zero_pages_in(map: &ArrayMap) -> usize {
    let mut count: usize = 0;
    for page in map.bytes().chunks(4096) {
        if page.iter().all(|byte| *byte == 0) {
            count = count.saturating_add(1);
        }
    }
    count
}

/// How many pages of both tenants are to lie on the zero frame.
fn pages_for_zero_frame(maps: &[Option<ArrayMap>], pages: Pages) -> usize {
    let mut count: usize = 0;
    if let Pages::Zero = pages {
        for map in maps {
            if let Some(map) = map {
                count = count.saturating_add(zero_pages_in(map));
            }
        }
    }
    count.saturating_mul(TENANTS as usize)
}

/// A memory in which both tenants have a row's maps, given on flat lists too. `None` where it can't be
/// made so.
pub(crate) fn memory_of(
    alloc: Global,
    fixture: &Fixture,
    maps: &[Option<ArrayMap>],
    pages: Pages,
) -> Option<Memory> {
    let count = page_count(maps).saturating_mul(TENANTS as usize);
    let frames = u32::try_from(count.saturating_add(ROOM).saturating_add(1)).ok()?;
    let mut memory = Memory::new(alloc, frames, TENANTS, pages.options()).ok()?;
    if !fill(&mut memory, fixture) || !share(&mut memory, count, pages) {
        return None;
    }
    if memory.zero_pages() as usize == pages_for_zero_frame(maps, pages) {
        Some(memory)
    } else {
        None
    }
}

/// Makes the maps of both tenants. It answers whether all were made.
fn fill(memory: &mut Memory, fixture: &Fixture) -> bool {
    let mut all = true;
    for tenant in 0..TENANTS {
        all &= make_maps(memory, tenant, fixture.shapes());
        all &= put_values(memory, tenant, fixture.values());
    }
    all
}

/// Makes a tenant's maps. It answers whether all were made.
fn make_maps(memory: &mut Memory, tenant: u32, shapes: &[Option<Shape>]) -> bool {
    let mut all = true;
    for shape in shapes {
        all &= match shape {
            Some(shape) => memory
                .create_map(tenant, shape.value_size, shape.entries, true)
                .is_ok(),
            None => false,
        };
    }
    all
}

/// Puts values into a tenant's maps. It answers whether all elements are there.
fn put_values(memory: &mut Memory, tenant: u32, values: &[Value]) -> bool {
    let mut all = true;
    for value in values {
        all &= put_value(memory, tenant, value);
    }
    all
}

/// Puts a value into a tenant's map. It answers whether the element is there.
fn put_value(memory: &mut Memory, tenant: u32, value: &Value) -> bool {
    let Some(shape) = memory.shape(tenant, value.map) else {
        return false;
    };
    if shape.value_size as usize != value.bytes.len()
        || update_needs(memory, tenant, value.map, value.key, ANY) > memory.have()
    {
        return false;
    }
    update(
        memory,
        tenant,
        value.map,
        value.key,
        value.bytes.as_slice(),
        ANY,
    ) == 0
}

/// Visits so many pages as often as it takes. It answers whether they lie as they should: two pages that
/// are alike, each tenant has one of them, share one frame at least.
fn share(memory: &mut Memory, count: usize, pages: Pages) -> bool {
    match pages {
        Pages::Own => memory.free() as usize == ROOM,
        Pages::Merged | Pages::Zero => {
            for _ in 0..count.saturating_mul(PASSES) {
                visit(memory);
            }
            memory.free() as usize >= (count / 2).saturating_add(ROOM)
        }
    }
}

/// Whether a tenant's map has just these bytes.
fn has_bytes(memory: &Memory, tenant: u32, map: MapNo, bytes: &[u8]) -> bool {
    let len = memory.byte_len(tenant, map);
    if len as usize != bytes.len() {
        return false;
    }
    for at in 0..len {
        if load(memory, tenant, map, at, 1) != u64::from(bytes[at as usize]) {
            return false;
        }
    }
    true
}

/// Whether a tenant's maps are those on flat lists.
pub(crate) fn has_maps(memory: &Memory, tenant: u32, maps: &[Option<ArrayMap>]) -> bool {
    let mut all = true;
    let mut number: MapNo = 0;
    for map in maps {
        all &= match map {
            Some(map) => has_bytes(memory, tenant, number, map.bytes()),
            None => false,
        };
        number = number.saturating_add(1);
    }
    all
}
