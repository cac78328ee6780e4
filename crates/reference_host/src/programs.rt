//! Programs as the plain verifier accepts them, with what each slot may need of frames, and which map it may write.

ghost use Rattle.std.specs.Prelude.{IfSome};
ghost use Rattle.host_types.specs.Shapes.{IsShape};
ghost use Rattle.verifier.specs.Verified.{AreShapes};
ghost use Rattle.verifier.specs.Subject.{IsContextSize};

use bpf_decode::{FRAME_POINTER, Insn, Operation, decode};
use host_types::limits::MAX_MAPS;
use host_types::{Fault, MapHelper, MapNo, Shape};
use reference_machine::ArrayMap;
use reference_verifier::{Order, Table, Verdict, verdict_in};
use std::alloc::{AllocError, Global};
use verifier_kinds::Kind;

/// What the instruction at a slot may need of frames, and the map that it writes, if it may write one.
#[derive(Clone, Copy, Drop)]
struct Cost {
    frames: u32,
    map: Option<MapNo>,
}

/// What an instruction that writes to no map needs.
const NOTHING: Cost = Cost {
    frames: 0,
    map: None,
};

/// An accepted program: its text, the size of its context, and what the instruction at each slot may need.
#[derive(Drop)]
pub(crate) struct PlainProgram {
    pub(crate) text: Vec<u8>,
    pub(crate) context_size: usize,
    costs: Vec<Cost>,
}

/// A tenant's programs by index.
pub(crate) type Programs = Vec<Option<PlainProgram>>;

impl PlainProgram {
    /// What the stores of a run may need in all from a slot on: the sum of what its slots may need.
    pub(crate) fn total(&self, slot: usize) -> u32 {
        let mut sum = 0u32;
        for cost in self.costs.iter().skip(slot) {
            sum = sum.saturating_add(cost.frames);
        }
        sum
    }

    /// Whether a run may write to a map from a slot on.
    pub(crate) fn writes(&self, slot: usize, map: usize) -> bool {
        for cost in self.costs.iter().skip(slot) {
            if cost.map.is_some_and(|written| written as usize == map) {
                return true;
            }
        }
        false
    }

    /// Whether an instruction, reached or not, names a map.
    fn names(&self, map: MapNo) -> bool {
        for slot in 0..self.text.len() / 8 {
            if names_at(&self.text, slot, map) {
                return true;
            }
        }
        false
    }
}

/// Whether the instruction at a slot names a map: it is the wide one, and asks by src 1 for the map's name or by
/// src 2 for an address in its first value. In an accepted text no second slot looks like a wide instruction.
fn names_at(text: &[u8], slot: usize, map: MapNo) -> bool {
    let Some(insn) = Insn::at(text, slot) else {
        return false;
    };
    Operation::of(insn.opcode) == Some(Operation::LoadImmediate)
        && (insn.src == 1 || insn.src == 2)
        && i64::from(insn.imm) == i64::from(map)
}

/// Whether one of a tenant's programs names a map.
pub(crate) fn names_map(programs: &[Option<PlainProgram>], map: MapNo) -> bool {
    programs.iter().flatten().any(|program| program.names(map))
}

/// The shape of a tenant's map, if it is there.
fn shape_at(maps: &[Option<ArrayMap>], map: usize) -> Option<Shape>
    ensures { IfSome result IsShape }
{
    let shape = maps.get(map)?.as_ref()?.shape();
    if shape.is_valid() { Some(shape) } else { None }
}

/// The shapes of a tenant's maps by number.
fn shapes_of(maps: &[Option<ArrayMap>]) -> [Option<Shape>; MAX_MAPS]
    ensures { AreShapes result }
{
    let mut shapes = [None; MAX_MAPS];
    for map in 0..MAX_MAPS {
        shapes[map] = shape_at(maps, map);
    }
    shapes
}

/// The kind of a register before a slot, if the slot is reached and something is known of it.
fn kind_at(table: &Table, slot: usize, register: u8) -> Option<Kind> {
    if register > FRAME_POINTER {
        return None;
    }
    table.kind(u32::try_from(slot).unwrap_or(u32::MAX), register)
}

/// What an update of a map may need.
fn cost_of_update(shapes: &[Option<Shape>], map: u32) -> u32
    requires { AreShapes shapes.now }
{
    match shapes.get(map as usize) {
        Some(Some(shape)) if shape.is_valid() => shape.update_charge(),
        _ => 0,
    }
}

/// What the instruction at a slot may need: a store through a map's value one frame, and an update what is
/// charged for it. A slot that isn't reached needs nothing.
fn cost_at(text: &[u8], shapes: &[Option<Shape>], table: &Table, slot: usize) -> Cost
    requires { AreShapes shapes.now }
{
    let Some(insn) = Insn::at(text, slot) else {
        return NOTHING;
    };
    match Operation::of(insn.opcode) {
        Some(Operation::Store { .. }) => match kind_at(table, slot, insn.dst) {
            Some(Kind::MapValue { map, .. }) => Cost {
                frames: 1,
                map: Some(map),
            },
            _ => NOTHING,
        },
        Some(Operation::Call) => match (MapHelper::of(insn.immediate()), kind_at(table, slot, 1)) {
            (Some(MapHelper::Update), Some(Kind::MapName(map))) => Cost {
                frames: cost_of_update(shapes, map),
                map: Some(map),
            },
            _ => NOTHING,
        },
        _ => NOTHING,
    }
}

/// What the instruction at each slot may need.
fn costs_of(
    alloc: Global,
    text: &[u8],
    shapes: &[Option<Shape>],
    table: &Table,
) -> Result<Vec<Cost>, AllocError>
    requires { AreShapes shapes.now }
{
    let mut costs = Vec::new(alloc);
    for slot in 0..text.len() / 8 {
        costs.push(cost_at(text, shapes, table, slot))?;
    }
    Ok(costs)
}

/// What is known at the slots of a text, or why it isn't accepted.
fn table_of(
    alloc: Global,
    text: &[u8],
    shapes: &[Option<Shape>],
    context_size: u32,
) -> Result<Table, Fault>
    requires shapes { AreShapes shapes.now }
    requires context { IsContextSize context_size }
{
    let program = match decode(alloc, text) {
        Ok(program) => program,
        Err(refused) => return Err(refused.fault()),
    };
    match verdict_in(alloc, program, shapes, context_size, Order::Forward) {
        Ok(Verdict::Accepted(table)) => Ok(table),
        Ok(Verdict::Refused { refused, .. }) => Err(refused.fault()),
        Err(AllocError) => Err(Fault::OutOfMemory),
    }
}

/// An accepted text as a program.
fn made(
    alloc: Global,
    text: &[u8],
    context_size: u32,
    costs: Vec<Cost>,
) -> Result<PlainProgram, AllocError> {
    Ok(PlainProgram {
        text: text.to_vec(alloc)?,
        context_size: context_size as usize,
        costs,
    })
}

/// Verifies a text as a program of a tenant with these maps.
pub(crate) fn decode_and_verify(
    alloc: Global,
    maps: &[Option<ArrayMap>],
    text: &[u8],
    context_size: u32,
) -> Result<PlainProgram, Fault>
    requires { IsContextSize context_size }
{
    let shapes = shapes_of(maps);
    let table = table_of(alloc, text, &shapes, context_size)?;
    let Ok(costs) = costs_of(alloc, text, &shapes, &table) else {
        return Err(Fault::OutOfMemory);
    };
    match made(alloc, text, context_size, costs) {
        Ok(program) => Ok(program),
        Err(AllocError) => Err(Fault::OutOfMemory),
    }
}
