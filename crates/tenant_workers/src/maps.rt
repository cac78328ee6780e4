ghost use Rattle.std.specs.Prelude.{◌≡◌, Some, OnOk, IfOk, IfErr, OnErr, IsSome};
ghost use Rattle.host_types.specs.Memory.{map_at};
ghost use Rattle.host_types.specs.Tenant.{part_dropped};
ghost use Rattle.page_table.specs.Changes.{part_created, HasMap};
ghost use Rattle.page_table.specs.Limits.{shape_of};
ghost use Rattle.page_table.specs.State.{free_number};
ghost use Rattle.host_types.specs.Helpers.{maps_updated};
ghost use Rattle.map_helpers.specs.Updates.{part_updated};
ghost use Rattle.host_calls.specs.Calls.{FitsNewMap, FitsValue, IsValue, RefusesNewMap, RefusesUpdate, RefusesLookup, NamesHave};
ghost use Rattle.turn.specs.Seats.{IsIdle, own_part};
ghost use Rattle.tenant_workers.specs.Calls.{IsSameSeat, memory_left, HasChanged, HasDropped, HasUpdated, IsUnchanged, LacksMap};
ghost use Rattle.tenant_workers.specs.Runs.{IsResting};

use crate::shared::Shared;
use host_calls::{host_create_map, host_lookup, host_update};
use host_types::{Fault, MapNo};
use std::alloc::Global;
use std::sync::Wait;
use turn::Seat;

impl Shared {
    /// Makes a map of zeros for the seat's tenant, at its first free number.
    ///
    /// Refusals in their order: `TooManyMaps` where the tenant has eight maps, `BadShape` where the shape is out
    /// of limits, `NoFrames` just where the map's pages are more than the frames that may be had; it names both
    /// numbers. `BadTenant` never comes, as a seat's tenant is there. A refusal changes nothing. The call takes no
    /// memory.
    #[tactic(auto, using(crate::proofs::Resting::created_rests))]
    pub fn create_map(
        &self,
        rt: &impl Wait,
        seat: &mut Seat,
        value_size: u32,
        entries: u32,
        mergeable: bool,
    ) -> Result<MapNo, Fault>
        requires idle { IsIdle self.now seat.old }
        ensures idle { IsIdle self.now seat.new }
        ensures same { IsSameSeat seat.old seat.new }
        ensures resting { IsResting (own_part seat.old) → IsResting (own_part seat.new) }
        ensures fits { OnOk result (FitsNewMap (own_part seat.old) (shape_of value_size entries)) }
        ensures number { IfOk result (λ m. free_number (own_part seat.old) ≡ Some m) }
        ensures created { IfOk result (λ m.
            own_part seat.new ≡ part_created (own_part seat.old) m (shape_of value_size entries)) }
        ensures made { IfOk result (λ m.
            HasChanged (HasMap seat.old.view.first m (shape_of value_size entries) mergeable) seat.old seat.new) }
        ensures refused { IfErr result
            (RefusesNewMap (own_part seat.old) (shape_of value_size entries)) }
        ensures reported { IfErr result (NamesHave (memory_left seat.new)) }
        ensures kept { OnErr result (own_part seat.new ≡ own_part seat.old) }
        ensures unchanged { OnErr result (HasChanged IsUnchanged seat.old seat.new) }
    {
        let tenant = seat.tenant();
        let mut held = self.turn.take(rt, seat);
        let answer = host_create_map(held.memory_mut(), tenant, value_size, entries, mergeable);
        self.turn.give(seat, held);
        answer
    }

    /// Takes a map of the seat's tenant away, whatever programs name it; its number is free then. Its pages leave
    /// their groups, the zero frame and the waiting list, and a frame on which no other page lies is free. The call
    /// takes no memory. A run of a program that names the map is answered `NoProgram` from then on, until the tenant
    /// has a map of this number and shape again.
    ///
    /// The one refusal is `NoMap`, just where the tenant has no such map, and it changes nothing; `BadTenant`
    /// never, as a seat's tenant is there.
    #[tactic(auto, using(crate::proofs::Drops::refused_there, crate::proofs::Resting::dropped_rests))]
    pub fn drop_map(&self, rt: &impl Wait, seat: &mut Seat, map: MapNo) -> Result<(), Fault>
        requires idle { IsIdle self.now seat.old }
        ensures idle { IsIdle self.now seat.new }
        ensures same { IsSameSeat seat.old seat.new }
        ensures resting { IsResting (own_part seat.old) → IsResting (own_part seat.new) }
        ensures there { OnOk result (IsSome (map_at (own_part seat.old).maps map)) }
        ensures dropped { OnOk result (own_part seat.new ≡ part_dropped (own_part seat.old) map) }
        ensures made { OnOk result (HasChanged (HasDropped seat.old.view.first map) seat.old seat.new) }
        ensures refused { IfErr result (LacksMap (own_part seat.old) map) }
        ensures kept { OnErr result (own_part seat.new ≡ own_part seat.old) }
        ensures unchanged { OnErr result (HasChanged IsUnchanged seat.old seat.new) }
    {
        seat.facts();
        let tenant = seat.tenant();
        let mut held = self.turn.take(rt, seat);
        held.memory().facts();
        let answer = held.memory_mut().drop_map(tenant, map);
        self.turn.give(seat, held);
        answer
    }

    /// Writes a value to an element of a map of the seat's tenant. The pages that it writes leave their groups and
    /// the zero frame, and none is pinned; nothing else changes.
    ///
    /// Refusals in their order: `NoMap` where the tenant has no such map, `NoElement` where the map has no
    /// such element, `BadShape` where the value has another size than the map's, `NoFrames` just where what
    /// is charged for an update of the map is above the frames that may be had; it names both numbers.
    /// `BadTenant` never comes, as a seat's tenant is there. A refusal changes nothing.
    #[tactic(auto, using(crate::proofs::Resting::updated_rests), unfolding(host_types::specs::Helpers::maps_updated))]
    pub fn update(
        &self,
        rt: &impl Wait,
        seat: &mut Seat,
        map: MapNo,
        key: u32,
        value: &[u8],
    ) -> Result<(), Fault>
        requires idle { IsIdle self.now seat.old }
        ensures idle { IsIdle self.now seat.new }
        ensures same { IsSameSeat seat.old seat.new }
        ensures resting { IsResting (own_part seat.old) → IsResting (own_part seat.new) }
        ensures fits { OnOk result (FitsValue (own_part seat.old) map key value.now) }
        ensures maps { OnOk result
            ((own_part seat.new).maps ≡ maps_updated (own_part seat.old).maps map key value.now 0) }
        ensures updated { OnOk result
            (own_part seat.new ≡ part_updated (own_part seat.old) map key value.now 0) }
        ensures made { OnOk result
            (HasChanged (HasUpdated (own_part seat.old) seat.old.view.first map key value.now) seat.old seat.new) }
        ensures refused { IfErr result (RefusesUpdate (own_part seat.old) map key value.now) }
        ensures reported { IfErr result (NamesHave (memory_left seat.new)) }
        ensures kept { OnErr result (own_part seat.new ≡ own_part seat.old) }
        ensures unchanged { OnErr result (HasChanged IsUnchanged seat.old seat.new) }
    {
        let tenant = seat.tenant();
        let mut held = self.turn.take(rt, seat);
        let answer = host_update(held.memory_mut(), tenant, map, key, value);
        self.turn.give(seat, held);
        answer
    }

    /// The value of an element of a map of the seat's tenant. The memory stays as it is.
    ///
    /// Refusals in their order: `NoMap` where the tenant has no such map, `NoElement` where the map has no
    /// such element, `OutOfMemory` where memory ran out; `BadTenant` never, as a seat's tenant is there.
    pub fn read(
        &self,
        rt: &impl Wait,
        alloc: Global,
        seat: &mut Seat,
        map: MapNo,
        key: u32,
    ) -> Result<Vec<u8>, Fault>
        requires idle { IsIdle self.now seat.old }
        ensures idle { IsIdle self.now seat.new }
        ensures same { IsSameSeat seat.old seat.new }
        ensures kept { own_part seat.new ≡ own_part seat.old }
        ensures value { IfOk result (λ bytes. IsValue (own_part seat.old) map key bytes.items) }
        ensures refused { IfErr result (RefusesLookup (own_part seat.old) map key) }
        ensures unchanged { HasChanged IsUnchanged seat.old seat.new }
    {
        let tenant = seat.tenant();
        let held = self.turn.take(rt, seat);
        let answer = host_lookup(alloc, held.memory(), tenant, map, key);
        self.turn.give(seat, held);
        answer
    }
}
