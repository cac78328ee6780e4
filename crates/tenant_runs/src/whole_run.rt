ghost use Rattle.std.specs.Prelude.{◌≡◌, ◌≤◌, ◌↔◌, true, false, slice_index_or, None, IfSome, IfOk, OnOk, IfErr, OnErr, IsSomeAnd};
ghost use Rattle.host_types.specs.Memory.{map_at};
ghost use Rattle.page_table.specs.State.{part, have_of};
ghost use Rattle.page_table.specs.Changes.{OtherTenantsUnchanged};
ghost use Rattle.verifier.specs.Named.{named_shapes};
ghost use Rattle.admission.specs.Reserve.{needed_from};
ghost use Rattle.interp.specs.Fits.{HaveShapes};
ghost use Rattle.tenant_runs.specs.Fulfilment.{KeepsSizes};
ghost use Rattle.tenant_runs.specs.UnderWay.{HasRun, MayRun, RefusesRun};

use crate::answers::{RunReply, finish};
use crate::begin::open_run;
use admission::release;
use host_types::limits::MAX_MAPS;
use host_types::{Fault, MapNo, Shape};
use page_table::Memory;
use std::alloc::Global;
use verifier::Verified;

/// Whether a tenant has the maps that a program names: each that the program has a shape for is there with
/// that shape.
pub fn has_shapes(memory: &Memory, tenant: u32, program: &Verified) -> bool
    ensures { result ≡ true ↔ HaveShapes (named_shapes program.now.subject) (part memory.now tenant).maps }
{
    program.facts();
    for map in 0..MAX_MAPS as MapNo {
        if !has_named(memory, tenant, program, map) {
            return false;
        }
    }
    true
}

/// Whether a tenant has a map as a program asks for it, where it asks for a map of that number.
fn has_named(memory: &Memory, tenant: u32, program: &Verified, map: MapNo) -> bool
    ensures { result ≡ true ↔ IfSome (slice_index_or (named_shapes program.now.subject) map None)
        (λ shape. IsSomeAnd (map_at (part memory.now tenant).maps map) (λ flat. flat.shape ≡ shape)) }
{
    match named_shape(program, map) {
        Some(shape) => has_shape(memory, tenant, map, shape),
        None => true,
    }
}

/// The shape that a program asks of the map with a number: none where it doesn't name the map, or has no shape
/// for it.
fn named_shape(program: &Verified, map: MapNo) -> Option<Shape>
    ensures { result ≡ slice_index_or (named_shapes program.now.subject) map None }
{
    if program.names(map) {
        shape_at(program.shapes(), map)
    } else {
        None
    }
}

/// The shape of a number, if there is one.
fn shape_at(shapes: &[Option<Shape>], map: MapNo) -> Option<Shape>
    ensures { result ≡ slice_index_or shapes.now map None }
{
    match shapes.get(map as usize) {
        Some(shape) => *shape,
        None => None,
    }
}

/// Whether a tenant has a map of this number and this shape.
fn has_shape(memory: &Memory, tenant: u32, map: MapNo, shape: Shape) -> bool
    ensures { result ≡ true ↔ IsSomeAnd (map_at (part memory.now tenant).maps map) (λ flat. flat.shape ≡ shape) }
{
    match memory.shape(tenant, map) {
        Some(there) => there == shape,
        None => false,
    }
}

/// Runs a program of a tenant from its beginning to its end, on the memory of the tenant's maps: as the
/// standard's machine does on these maps alone, whichever of their pages share frames, and within as many
/// steps as the program has instructions.
///
/// Refusals in their order: `BadTenant` where there is no such tenant, `NoProgram` where a map that the
/// program names and has a shape for isn't the tenant's with that shape, `BadContext` where the context hasn't
/// the program's size, `NoFrames` just where it may need more than `have()`, with both numbers; and
/// `OutOfMemory` where memory ran out and none of these holds. A refusal changes nothing. The tenant has no
/// other open run.
pub fn run(
    alloc: Global,
    memory: &mut Memory,
    tenant: u32,
    program: &Verified,
    context: &[u8],
) -> Result<RunReply, Fault>
    requires none { (part memory.old tenant).running ≡ false }
    requires unreserved { (part memory.old tenant).reserve ≡ 0 }
    ensures admitted { OnOk result (MayRun program.now memory.old tenant) }
    ensures enough { OnOk result (needed_from program.now (part memory.old tenant) 0 ≤ have_of memory.old) }
    ensures ran { IfOk result (HasRun program.now context.now (part memory.old tenant) (part memory.new tenant)) }
    ensures refused { IfErr result (RefusesRun program.now context.now memory.old tenant) }
    ensures unchanged { OnErr result (memory.new ≡ memory.old) }
    ensures others { OtherTenantsUnchanged tenant memory.old memory.new }
    ensures sizes { KeepsSizes memory.old memory.new }
{
    memory.maps_are_flat();
    if tenant >= memory.tenants() {
        return Err(Fault::BadTenant);
    }
    if !has_shapes(memory, tenant, program) {
        return Err(Fault::NoProgram);
    }
    let mut run = open_run(alloc, memory, tenant, program, context)?;
    let reply = finish(memory, tenant, program, &mut run);
    memory.maps_are_flat();
    release(memory, tenant);
    Ok(reply)
}
