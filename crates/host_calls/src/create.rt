ghost use Rattle.std.specs.Prelude.{◌≡◌, ◌≤◌, Some, None, IfOk, OnOk, IfErr, OnErr};
ghost use Rattle.page_table.specs.Limits.{page_count, shape_of};
ghost use Rattle.page_table.specs.State.{part, free_number, have_of};
ghost use Rattle.page_table.specs.Changes.{HasMap};
ghost use Rattle.host_calls.specs.Calls.{FitsNewMap, RefusesNewMap, NamesHave, refused_new_map};

use host_types::{Fault, MapNo};
use page_table::Memory;

/// Makes a map of zeros for a tenant, at its first free number. Its pages were never visited.
///
/// Refusals in their order: `BadTenant` where there is no such tenant, `TooManyMaps` where it has eight maps,
/// `BadShape` where the shape is out of limits, `NoFrames` just where the map's pages are more than `have()`;
/// it names both numbers. A refusal changes nothing. The call takes no memory.
#[tactic(auto, using(crate::proofs::NewMaps::new_map_first, crate::proofs::NewMaps::new_map_refused, crate::proofs::NewMaps::new_map_answered))]
pub fn host_create_map(
    memory: &mut Memory,
    tenant: u32,
    value_size: u32,
    entries: u32,
    mergeable: bool,
) -> Result<MapNo, Fault>
    ensures allowed { OnOk result (refused_new_map memory.old tenant (shape_of value_size entries) ≡ None) }
    ensures fits { OnOk result (FitsNewMap (part memory.old tenant) (shape_of value_size entries)) }
    ensures enough { OnOk result (page_count (shape_of value_size entries) ≤ have_of memory.old) }
    ensures number { IfOk result (λ m. free_number (part memory.old tenant) ≡ Some m) }
    ensures made { IfOk result (λ m.
        HasMap tenant m (shape_of value_size entries) mergeable memory.old memory.new) }
    ensures first { IfErr result (λ fault. refused_new_map memory.old tenant (shape_of value_size entries) ≡ Some fault) }
    ensures refused { IfErr result (RefusesNewMap (part memory.old tenant) (shape_of value_size entries)) }
    ensures answered { IfErr result (NamesHave memory.old) }
    ensures unchanged { OnErr result (memory.new ≡ memory.old) }
{
    memory.facts();
    memory.create_map(tenant, value_size, entries, mergeable)
}
