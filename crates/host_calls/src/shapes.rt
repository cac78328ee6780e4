ghost use Rattle.std.specs.Prelude.{◌≡◌};
ghost use Rattle.page_table.specs.State.{part};
ghost use Rattle.verifier.specs.Verified.{AreShapes};
ghost use Rattle.host_calls.specs.Calls.{IsThere};
ghost use Rattle.host_calls.specs.Programs.{shapes_of};

use host_types::limits::MAX_MAPS;
use host_types::{MapNo, Shape};
use page_table::Memory;

/// The shapes of a tenant's maps by number: `None` where it has no such map. They take no memory, so no
/// program is refused for want of it before its text is looked at.
pub fn host_shapes(memory: &Memory, tenant: u32) -> [Option<Shape>; MAX_MAPS]
    requires { IsThere (part memory.now tenant) }
    ensures shapes { result ≡ shapes_of (part memory.now tenant).maps }
    ensures valid { AreShapes result }
{
    memory.maps_are_flat();
    let mut shapes = [None; MAX_MAPS];
    for map in 0..MAX_MAPS as MapNo {
        shapes[map as usize] = memory.shape(tenant, map);
    }
    shapes
}
