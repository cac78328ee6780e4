ghost use Rattle.std.specs.Prelude.{◌≡◌, ◌≢◌, ◌+◌, ◌<◌, ◌≤◌, length, true, Some, IfSome, IsSomeAnd};
ghost use Rattle.host_types.specs.declared.helper.MapHelper.TheVariants.{Update};
ghost use Rattle.host_types.specs.Helpers.{helper, lookup_answer, delete_answer, update_charge};
ghost use Rattle.host_types.specs.Memory.{map_at};
ghost use Rattle.host_types.specs.Shapes.{IsShape};
ghost use Rattle.page_table.specs.State.{part, have_of};
ghost use Rattle.page_table.specs.Changes.{OtherTenantsUnchanged, AreMapsKeptBut, KeepsSettings};
ghost use Rattle.write_break.specs.Stores.{with_pins_of};
ghost use Rattle.map_helpers.specs.Updates.{part_updated, update_frames, updated_sharing, updated_sharing_as, LeadsToElement, IsEnough};

use crate::answer::{HelperError, update_error};
use host_types::layout::{MAP_VALUES, REGION};
use host_types::{MapNo, Shape};
use page_table::Memory;
use write_break::{needs, store_bytes_as};

/// What the helper `lookup` answers for a map of this shape: the address of the key's element, at which
/// a program finds just the bytes of its value; or 0 past the end.
#[tactic(auto, unfolding(host_types::specs::Helpers::lookup_answer))]
pub fn lookup(shape: Shape, map: MapNo, key: u32) -> u64
    requires map { map < 8 }
    requires shape { IsShape shape }
    ensures answer { result ≡ lookup_answer shape map key }
    ensures element { key < shape.entries → LeadsToElement shape map key result }
{
    if key >= shape.entries {
        return 0;
    }
    (MAP_VALUES + u64::from(map)) * REGION + u64::from(shape.element_at(key))
}

/// What the helper `delete` answers: -22, as 64 bits. No element of an array map is ever deleted.
pub fn delete() -> u64
    ensures { result ≡ delete_answer }
{
    HelperError::Invalid.answer()
}

/// How many frames an update would take now: those that its store needs, and none where it refuses or
/// where there is no such map. It is at most what is reserved for an update of the map.
pub fn update_needs(memory: &Memory, tenant: u32, map: MapNo, key: u32, flags: u64) -> u32
    ensures needs { result ≡ update_frames (part memory.now tenant) memory.now.sharing tenant map key flags }
    ensures charged { IfSome (map_at (part memory.now tenant).maps map) (λ flat. result ≤ update_charge flat.shape) }
{
    let Some(shape) = memory.shape(tenant, map) else {
        return 0;
    };
    match update_error(shape, key, flags) {
        Some(_) => 0,
        None => needs(memory, tenant, map, shape.element_at(key), shape.value_size),
    }
}

/// How many frames are to be reserved for an update of a map of this shape: 1 where no value crosses
/// the end of a page, since the stride divides a page; else 2. No update of such a map takes more.
pub fn update_charge(shape: Shape) -> u32
    requires { IsShape shape }
    ensures charge { result ≡ update_charge shape }
    ensures enough { IsEnough shape result }
{
    shape.update_charge()
}

/// What the helper `update` answers, and what it does: -22 where there is no such flag, else -7 past the
/// end, else -17 where the flag is 1 (NOEXIST); else 0, and the value is written to the key's element, and
/// each of its pages that shares its frame is taken out before, and pinned where the tenant has an open
/// run. What isn't answered by 0 changes nothing. The value has as many bytes as the map's values, and the
/// frames for the store are there.
pub fn update(
    memory: &mut Memory,
    tenant: u32,
    map: MapNo,
    key: u32,
    value: &[u8],
    flags: u64,
) -> u64
    requires value { IsSomeAnd (map_at (part memory.old tenant).maps map) (λ flat. flat.shape.value_size ≡ length value.now) }
    requires room { update_frames (part memory.old tenant) memory.old.sharing tenant map key flags ≤ have_of memory.old }
    ensures helped { helper Update (part memory.old tenant).maps map key value.now flags
        ≡ Some (result, (part memory.new tenant).maps) }
    ensures part { part memory.new tenant
        ≡ with_pins_of memory.new.sharing tenant (part_updated (part memory.old tenant) map key value.now flags) }
    ensures other_maps { AreMapsKeptBut map (part memory.old tenant) (part memory.new tenant) }
    ensures others { OtherTenantsUnchanged tenant memory.old memory.new }
    ensures sharing { memory.new.sharing
        ≡ updated_sharing (part memory.old tenant) memory.old.sharing tenant map key flags }
    ensures have { have_of memory.new + update_frames (part memory.old tenant) memory.old.sharing tenant map key flags
        ≡ have_of memory.old }
    ensures settings { KeepsSettings memory.old memory.new }
    ensures refused { result ≢ 0 → memory.new ≡ memory.old }
{
    let by_run = memory.is_running(tenant);
    update_as(memory, tenant, map, key, value, flags, by_run)
}

/// Answers and does what `update` does, and pins the pages that it takes out only where that is asked: an update
/// that no run makes pins nothing. Only for a tenant that has an open run a pin may be asked.
pub fn update_as(
    memory: &mut Memory,
    tenant: u32,
    map: MapNo,
    key: u32,
    value: &[u8],
    flags: u64,
    is_pinned: bool,
) -> u64
    requires value { IsSomeAnd (map_at (part memory.old tenant).maps map) (λ flat. flat.shape.value_size ≡ length value.now) }
    requires room { update_frames (part memory.old tenant) memory.old.sharing tenant map key flags ≤ have_of memory.old }
    requires run { is_pinned ≡ true → (part memory.old tenant).running ≡ true }
    ensures helped { helper Update (part memory.old tenant).maps map key value.now flags
        ≡ Some (result, (part memory.new tenant).maps) }
    ensures part { part memory.new tenant
        ≡ with_pins_of memory.new.sharing tenant (part_updated (part memory.old tenant) map key value.now flags) }
    ensures other_maps { AreMapsKeptBut map (part memory.old tenant) (part memory.new tenant) }
    ensures others { OtherTenantsUnchanged tenant memory.old memory.new }
    ensures sharing { memory.new.sharing
        ≡ updated_sharing_as is_pinned (part memory.old tenant) memory.old.sharing tenant map key flags }
    ensures have { have_of memory.new + update_frames (part memory.old tenant) memory.old.sharing tenant map key flags
        ≡ have_of memory.old }
    ensures settings { KeepsSettings memory.old memory.new }
    ensures refused { result ≢ 0 → memory.new ≡ memory.old }
{
    let Some(shape) = memory.shape(tenant, map) else {
        unreachable!()
    };
    if let Some(error) = update_error(shape, key, flags) {
        return error.answer();
    }
    store_bytes_as(memory, tenant, map, shape.element_at(key), value, is_pinned);
    0
}
