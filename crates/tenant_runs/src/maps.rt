ghost use Rattle.std.specs.Prelude.{◌≡◌, ◌≤◌, ◌+◌, ◌%◌, length};
ghost use Rattle.bpf_decode.specs.Opcodes.{byte_count};
ghost use Rattle.page_table.specs.State.{part, map_bytes};
ghost use Rattle.interp.specs.OnMaps.{HasRoomFor};
ghost use Rattle.tenant_runs.specs.Storing.{maps_of_part, HasStoreFrames, HasStored};

use crate::needs::look_up_known;
use bpf_decode::Size;
use host_types::MapNo;
use interp::MapMemory;
use page_table::Memory;
use write_break::{load, store};

/// The loop over a tenant's maps that callers share which make steps up to a limit, or go on with a run.
pub const SHARED_LOOP: u8 = 0;

/// The maps of a tenant, in the memory of all. The parameter tells loops apart that run on them, and means nothing else: where one caller
/// alone has a number, the loop is compiled as part of that caller.
#[derive(Clone, Copy)]
pub struct TenantMaps<const LOOP: u8> {
    pub tenant: u32,
}

impl<const LOOP: u8> MapMemory for TenantMaps<LOOP> {
    type Memory = Memory;

    ghost maps = { λ of memory. maps_of_part of.tenant memory };

    ghost room = { λ of memory total writes. HasStoreFrames of.tenant memory total writes };

    ghost stored = { λ of old map at size number new. HasStored of.tenant old map at size number new };

    #[inline(always)]
    fn load(&self, memory: &Memory, map: MapNo, at: u32, size: Size) -> u64 {
        load(memory, self.tenant, map, at, size.bytes())
    }

    #[inline(always)]
    fn lookup(&self, memory: &Memory, map: MapNo, key: u32) -> u64 {
        look_up_known(memory, self.tenant, map, key)
    }

    #[inline(always)]
    fn store(&self, memory: &mut Memory, map: MapNo, at: u32, size: Size, value: u64) {
        store_number(memory, self.tenant, map, at, size, value);
    }
}

/// Stores the low bytes of a number. A page that shares its frame is taken out before, and pinned.
#[inline(always)]
fn store_number(memory: &mut Memory, tenant: u32, map: MapNo, at: u32, size: Size, value: u64)
    requires within { at + byte_count size ≤ length (map_bytes (part memory.old tenant) map) }
    requires aligned { at % byte_count size ≡ 0 }
    requires room { HasRoomFor (HasStoreFrames tenant) memory.old map }
    ensures { HasStored tenant memory.old map at size value memory.new }
{
    memory.facts();
    memory.maps_are_flat();
    store(memory, tenant, map, at, size.bytes(), value);
    memory.facts();
}
