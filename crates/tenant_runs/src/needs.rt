ghost use Rattle.std.specs.Prelude.{◌≡◌, ◌+◌, ◌≤◌, length, option_map, unwrap_or, IsSome};
ghost use Rattle.host_types.specs.Helpers.{lookup_answer};
ghost use Rattle.host_types.specs.Memory.{FlatMap, map_at};
ghost use Rattle.page_table.specs.State.{part, have_of};
ghost use Rattle.page_table.specs.Changes.{OtherTenantsUnchanged};
ghost use Rattle.write_break.specs.Stores.{with_pins_of};
ghost use Rattle.tenant_runs.specs.Fulfilment.{MayFulfil, answer_for, frames_fulfilled, part_fulfilled, sharing_fulfilled, KeepsSizes};

use host_types::MapNo;
use interp::Need;
use map_helpers::{delete, lookup, update};
use page_table::Memory;
use write_break::{load, store};

/// Does what a tenant's run asks of its maps, and gives the answer, which is 0 after a store. The frames
/// that it takes are reserved for the run or may be had, so where it may write, all that is reserved may be had while it's done;
/// what is left of the run is to be recorded after it. Pages that share their frames are taken out before
/// they are written, and pinned for the run.
#[inline(always)]
pub fn fulfil(memory: &mut Memory, tenant: u32, need: Need, value: &[u8]) -> u64
    requires there { length (part memory.old tenant).maps ≡ 8 }
    requires may { MayFulfil (part memory.old tenant) need value.now }
    requires room { frames_fulfilled (part memory.old tenant) memory.old.sharing tenant need ≤ have_of memory.old + (part memory.old tenant).reserve }
    ensures answer { result ≡ answer_for (part memory.old tenant) need }
    ensures part { part memory.new tenant ≡ with_pins_of memory.new.sharing tenant (part_fulfilled (part memory.old tenant) need value.now) }
    ensures others { OtherTenantsUnchanged tenant memory.old memory.new }
    ensures sharing { memory.new.sharing ≡ sharing_fulfilled (part memory.old tenant) memory.old.sharing tenant need }
    ensures have { have_of memory.new + (part memory.new tenant).reserve + frames_fulfilled (part memory.old tenant) memory.old.sharing tenant need
        ≡ have_of memory.old + (part memory.old tenant).reserve }
    ensures sizes { KeepsSizes memory.old memory.new }
{
    memory.maps_are_flat();
    match need {
        Need::Load { map, at, size } => load(memory, tenant, map, at, size.bytes()),
        Need::Store {
            map,
            at,
            size,
            value,
        } => {
            memory.record(tenant, 0);
            store(memory, tenant, map, at, size.bytes(), value);
            0
        }
        Need::Lookup { map, key } => look_up(memory, tenant, map, key),
        Need::Update { map, key, flags } => {
            memory.record(tenant, 0);
            update(memory, tenant, map, key, value, flags)
        }
        Need::Delete { .. } => delete(),
        Need::Private | Need::Ended(_) => unreachable!(),
    }
}

/// What the helper `lookup` answers in a map that the tenant has. A verified run looks up in no other.
#[inline(always)]
pub(crate) fn look_up_known(memory: &Memory, tenant: u32, map: MapNo, key: u32) -> u64
    requires eight { length (part memory.now tenant).maps ≡ 8 }
    requires there { IsSome (map_at (part memory.now tenant).maps map) }
    ensures { result ≡ unwrap_or (option_map (λ (flat : FlatMap). lookup_answer flat.shape map key) (map_at (part memory.now tenant).maps map)) 0 }
{
    match memory.shape(tenant, map) {
        Some(shape) => lookup(shape, map, key),
        None => unreachable!(),
    }
}

/// What the helper `lookup` answers in one of the tenant's maps.
#[inline(always)]
pub(crate) fn look_up(memory: &Memory, tenant: u32, map: MapNo, key: u32) -> u64
    requires { length (part memory.now tenant).maps ≡ 8 }
    ensures { result ≡ unwrap_or (option_map (λ (flat : FlatMap). lookup_answer flat.shape map key) (map_at (part memory.now tenant).maps map)) 0 }
{
    match memory.shape(tenant, map) {
        Some(shape) => lookup(shape, map, key),
        None => 0,
    }
}
