ghost use Rattle.std.specs.Prelude.{◌≡◌, ◌+◌, ◌≤◌, Some, None, false, OnOk, IfErr, OnErr};
ghost use Rattle.host_types.specs.declared.helper.MapHelper.TheVariants.{Update};
ghost use Rattle.host_types.specs.Helpers.{helper};
ghost use Rattle.page_table.specs.State.{part, have_of};
ghost use Rattle.page_table.specs.Changes.{OtherTenantsUnchanged, AreMapsKeptBut, KeepsSettings};
ghost use Rattle.map_helpers.specs.Updates.{part_updated, update_frames, updated_sharing_as};
ghost use Rattle.host_calls.specs.Calls.{FitsValue, IsCharged, RefusesUpdate, NamesHave, refused_update};

use crate::lookup::shape_with_element;
use host_types::{Fault, MapNo};
use map_helpers::{update_as, update_charge};
use page_table::Memory;

/// The flag of an update by which an element may be there or not.
const ANY: u64 = 0;

/// Writes a value to an element of a tenant's map, as the update helper does without a flag. Each page of the
/// value that shares its frame is taken out before, and none is pinned, whether or not the tenant has an open
/// run. What is recorded for that run stays.
///
/// Refusals in their order: `BadTenant` where there is no such tenant, `NoMap` where it has no such map,
/// `NoElement` where the map has no such element, `BadShape` where the value has another size than the map's,
/// `NoFrames` just where what is charged for an update of the map is above `have()`; it names both numbers. A
/// refusal changes nothing.
#[tactic(auto, using(crate::proofs::Answers::helps, crate::proofs::Elements::update_refuses))]
pub fn host_update(
    memory: &mut Memory,
    tenant: u32,
    map: MapNo,
    key: u32,
    value: &[u8],
) -> Result<(), Fault>
    ensures allowed { OnOk result (refused_update memory.old tenant map key value.now ≡ None) }
    ensures fits { OnOk result (FitsValue (part memory.old tenant) map key value.now) }
    ensures charged { OnOk result (IsCharged (part memory.old tenant) map (have_of memory.old)) }
    ensures updated { OnOk result
        (part memory.new tenant ≡ part_updated (part memory.old tenant) map key value.now 0) }
    ensures helped { OnOk result (helper Update (part memory.old tenant).maps map key value.now 0
        ≡ Some (0, (part memory.new tenant).maps)) }
    ensures other_maps { AreMapsKeptBut map (part memory.old tenant) (part memory.new tenant) }
    ensures others { OtherTenantsUnchanged tenant memory.old memory.new }
    ensures sharing { OnOk result (memory.new.sharing
        ≡ updated_sharing_as false (part memory.old tenant) memory.old.sharing tenant map key 0) }
    ensures have { OnOk result
        (have_of memory.new + update_frames (part memory.old tenant) memory.old.sharing tenant map key 0
        ≡ have_of memory.old) }
    ensures settings { KeepsSettings memory.old memory.new }
    ensures first { IfErr result (λ fault. refused_update memory.old tenant map key value.now ≡ Some fault) }
    ensures refused { IfErr result (RefusesUpdate (part memory.old tenant) map key value.now) }
    ensures answered { IfErr result (NamesHave memory.old) }
    ensures unchanged { OnErr result (memory.new ≡ memory.old) }
{
    may_update(memory, tenant, map, key, value)?;
    update_as(memory, tenant, map, key, value, ANY, false);
    Ok(())
}

/// Whether a value may be written, by the tests in their order.
#[tactic(auto, using(crate::proofs::Elements::update_first, crate::proofs::Elements::lookup_answered, crate::proofs::Elements::value_refused, crate::proofs::Elements::frames_refused, crate::proofs::Elements::update_free))]
fn may_update(memory: &Memory, tenant: u32, map: MapNo, key: u32, value: &[u8]) -> Result<(), Fault>
    ensures allowed { OnOk result (refused_update memory.now tenant map key value.now ≡ None) }
    ensures fits { OnOk result (FitsValue (part memory.now tenant) map key value.now) }
    ensures charged { OnOk result (IsCharged (part memory.now tenant) map (have_of memory.now)) }
    ensures room { OnOk result
        (update_frames (part memory.now tenant) memory.now.sharing tenant map key 0 ≤ have_of memory.now) }
    ensures first { IfErr result (λ fault. refused_update memory.now tenant map key value.now ≡ Some fault) }
    ensures answered { IfErr result (NamesHave memory.now) }
{
    let shape = shape_with_element(memory, tenant, map, key)?;
    if value.len() != shape.value_size as usize {
        return Err(Fault::BadShape);
    }
    let need = update_charge(shape);
    let have = memory.have();
    if have < need {
        return Err(Fault::NoFrames { need, have });
    }
    Ok(())
}
