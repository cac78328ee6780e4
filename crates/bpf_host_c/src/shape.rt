ghost use Rattle.std.specs.Prelude.{◌≡◌, MatchOption};
ghost use Rattle.host_handle.specs.Shapes.{HasShape};

use host_handle::{BpfHost, BpfHostShape};
use host_types::Shape;
use std::alloc::Global;

/// What a call returns where the handle is closed.
const CLOSED: u32 = 100;

/// What a call returns where the tenant has no such map.
const NO_MAP: u32 = 34;

/// The shape of a tenant's map. A tenant that isn't there has no map.
#[unsafe(no_mangle)]
pub extern "C" fn bpf_host_shape(
    alloc: Global,
    handle: &mut BpfHost,
    tenant: u32,
    map: u32,
    shape: &mut BpfHostShape,
) -> u32
    ensures kept { handle.new.owner.host ≡ handle.old.owner.host }
    ensures shape { HasShape tenant map result shape.old shape.new handle.old.owner.host }
{
    let Some(host) = handle.take(alloc) else {
        return CLOSED;
    };
    let found = host.shape(tenant, map);
    handle.put(host);
    written(found, shape)
}

/// Writes a shape that was found.
fn written(found: Option<Shape>, shape: &mut BpfHostShape) -> u32
    ensures { MatchOption found ((result ≡ 34) × (shape.new ≡ shape.old))
        (λ found. (result ≡ 0) × (shape.new ≡ record { value_size = found.value_size; entries = found.entries })) }
{
    let Some(found) = found else {
        return NO_MAP;
    };
    shape.value_size = found.value_size;
    shape.entries = found.entries;
    0
}
