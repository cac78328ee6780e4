ghost use Rattle.std.specs.Prelude.{◌≡◌, ◌≢◌, ◌+◌, ◌%◌, ◌<◌, ◌≤◌, length, Some, None, option_map, IfOk, IfErr, IfSome, OnOk, OnErr};
ghost use Rattle.host_types.specs.declared.fault.Fault.TheVariants.{OutOfMemory};
ghost use Rattle.host_types.specs.Bytes.{part_of};
ghost use Rattle.host_types.specs.Memory.{FlatMap, map_at};
ghost use Rattle.host_types.specs.Tenant.{IsFlatMap};
ghost use Rattle.page_table.specs.State.{part, map_bytes};
ghost use Rattle.host_calls.specs.Calls.{IsValue, IsValueIn, RefusesLookup, refused_lookup};

use host_types::limits::PAGE_SIZE;
use host_types::{Fault, MapNo, Shape};
use page_table::Memory;
use std::alloc::Global;
use write_break::page_of;

/// The value of an element of a tenant's map.
///
/// Refusals in their order: `BadTenant` where there is no such tenant, `NoMap` where it has no such map,
/// `NoElement` where the map has no such element, `OutOfMemory` where memory ran out.
#[tactic(auto, using(crate::proofs::Elements::lookup_refuses, crate::proofs::Elements::lookup_lacks))]
pub fn host_lookup(
    alloc: Global,
    memory: &Memory,
    tenant: u32,
    map: MapNo,
    key: u32,
) -> Result<Vec<u8>, Fault>
    ensures allowed { OnOk result (refused_lookup memory.now tenant map key ≡ None) }
    ensures value { IfOk result (λ bytes. IsValue (part memory.now tenant) map key bytes.items) }
    ensures refused { IfErr result (RefusesLookup (part memory.now tenant) map key) }
{
    let shape = shape_with_element(memory, tenant, map, key)?;
    let Ok(mut value) = vec![in alloc; 0; shape.value_size as usize] else {
        return Err(Fault::OutOfMemory);
    };
    copy_value(memory, tenant, map, shape, key, value.as_mut_slice());
    Ok(value)
}

/// Copies the value of an element of a tenant's map to bytes of its length, and returns that length. Bytes of another length stay as
/// they are. It takes no memory.
///
/// Refusals in their order: `BadTenant` where there is no such tenant, `NoMap` where it has no such map,
/// `NoElement` where the map has no such element. A refusal leaves the bytes as they are.
#[tactic(auto, using(crate::proofs::Elements::lookup_takes_none))]
pub fn host_lookup_into(
    memory: &Memory,
    tenant: u32,
    map: MapNo,
    key: u32,
    value: &mut [u8],
) -> Result<u32, Fault>
    ensures allowed { OnOk result (refused_lookup memory.now tenant map key ≡ None) }
    ensures value { IfOk result (λ size. IsValueIn (part memory.now tenant) map key size value.old value.new) }
    ensures first { IfErr result (λ fault. refused_lookup memory.now tenant map key ≡ Some fault) }
    ensures memory { IfErr result (λ fault. fault ≢ OutOfMemory) }
    ensures unchanged { OnErr result (value.new ≡ value.old) }
{
    let shape = shape_with_element(memory, tenant, map, key)?;
    if value.len() == shape.value_size as usize {
        copy_value(memory, tenant, map, shape, key, value);
    }
    Ok(shape.value_size)
}

/// The shape of a tenant's map that has an element.
///
/// Refusals in their order: `BadTenant` where there is no such tenant, `NoMap` where it has no such map,
/// `NoElement` where the map has no such element.
pub(crate) fn shape_with_element(
    memory: &Memory,
    tenant: u32,
    map: MapNo,
    key: u32,
) -> Result<Shape, Fault>
    ensures shape { IfOk result (λ shape.
        option_map (λ (flat : FlatMap). flat.shape) (map_at (part memory.now tenant).maps map) ≡ Some shape) }
    ensures valid { OnOk result (IfSome (map_at (part memory.now tenant).maps map) IsFlatMap) }
    ensures element { IfOk result (λ shape. key < shape.entries) }
    ensures allowed { OnOk result (refused_lookup memory.now tenant map key ≡ None) }
    ensures first { IfErr result (λ fault. refused_lookup memory.now tenant map key ≡ Some fault) }
{
    memory.facts();
    if tenant >= memory.tenants() {
        return Err(Fault::BadTenant);
    }
    let Some(shape) = memory.shape(tenant, map) else {
        return Err(Fault::NoMap);
    };
    if key >= shape.entries {
        return Err(Fault::NoElement);
    }
    Ok(shape)
}

/// Copies the value of an element that is there to bytes of its length.
fn copy_value(memory: &Memory, tenant: u32, map: MapNo, shape: Shape, key: u32, value: &mut [u8])
    requires shape { option_map (λ (flat : FlatMap). flat.shape) (map_at (part memory.now tenant).maps map) ≡ Some shape }
    requires valid { IfSome (map_at (part memory.now tenant).maps map) IsFlatMap }
    requires element { key < shape.entries }
    requires sized { length value.old ≡ shape.value_size }
    ensures value { IsValue (part memory.now tenant) map key value.new }
    ensures sized { length value.new ≡ shape.value_size }
{
    load_bytes(memory, tenant, map, shape.element_at(key), value);
}

/// Copies bytes of a tenant's map from an index on, as many as there is room for. They lie on one page or on two.
fn load_bytes(memory: &Memory, tenant: u32, map: MapNo, at: u32, bytes: &mut [u8])
    requires some { 0 < length bytes.old }
    requires few { length bytes.old ≤ 4096 }
    requires within { at + length bytes.old ≤ length (map_bytes (part memory.now tenant) map) }
    requires small { at + length bytes.old ≤ 1048576 }
    ensures { bytes.new ≡ part_of (map_bytes (part memory.now tenant) map) at (length bytes.old) }
{
    let room = PAGE_SIZE - at % PAGE_SIZE;
    if bytes.len() <= room as usize {
        load_in_page(memory, tenant, map, at, bytes);
    } else {
        let (first, second) = bytes.split_at_mut(room as usize);
        load_in_page(memory, tenant, map, at, first);
        load_in_page(memory, tenant, map, at + room, second);
    }
}

/// Copies bytes of a tenant's map that lie on one page.
fn load_in_page(memory: &Memory, tenant: u32, map: MapNo, at: u32, bytes: &mut [u8])
    requires some { 0 < length bytes.old }
    requires in_page { at % 4096 + length bytes.old ≤ 4096 }
    requires within { at + length bytes.old ≤ length (map_bytes (part memory.now tenant) map) }
    ensures { bytes.new ≡ part_of (map_bytes (part memory.now tenant) map) at (length bytes.old) }
{
    let entry = memory.entry(page_of(tenant, map, at));
    memory.arena().get(entry.frame, at % PAGE_SIZE, bytes);
}
