//! What a run finds: its maps and its context.

ghost use Rattle.std.specs.Prelude.{◌≡◌, List, Option};
ghost use Rattle.host_types.specs.declared.shape.Shape.{Shape};
ghost use Rattle.host_types.specs.Shapes.{IsShape};
ghost use Rattle.verifier.specs.Verified.{AreShapes};

use host_types::{MapNo, Shape};
use reference_machine::{ArrayMap, Machine};
use std::alloc::Global;
use std::marker::Model;

/// The value of an element of a map.
#[derive(Drop)]
pub(crate) struct Value {
    pub map: MapNo,
    pub key: u32,
    pub bytes: Vec<u8>,
}

/// The flag of an update by which the element may be there or not.
const ANY: u64 = 0;

/// The maps of the plain machine by number.
pub(crate) type Maps = Vec<Option<ArrayMap>>;

/// The shapes of a tenant's maps, the values in them that aren't zero, and a run's context.
#[derive(Drop)]
pub(crate) struct Fixture {
    shapes: Vec<Option<Shape>>,
    values: Vec<Value>,
    context: Vec<u8>,
}

impl Model for Fixture {
    ghost Value = { List (Option Shape) };

    ghost view = { λ fixture. fixture.shapes.items };

    ghost invariant = { λ fixture. AreShapes fixture.shapes.items };
}

impl Fixture {
    /// What a run finds.
    pub(crate) fn new(shapes: Vec<Option<Shape>>, values: Vec<Value>, context: Vec<u8>) -> Self
        requires { AreShapes shapes.items }
    {
        Fixture {
            shapes,
            values,
            context,
        }
    }

    /// The shapes of the maps by number.
    pub(crate) fn shapes(&self) -> &[Option<Shape>]
        ensures { AreShapes result.now }
    {
        self.shapes.as_slice()
    }

    /// The values that aren't zero.
    pub(crate) fn values(&self) -> &[Value] {
        self.values.as_slice()
    }

    /// The context.
    pub(crate) fn context(&self) -> &[u8] {
        self.context.as_slice()
    }

    /// The maps on flat lists; `None` where a value's element isn't there, or where memory ran out.
    pub(crate) fn maps(&self, alloc: Global) -> Option<Maps> {
        let mut maps = Vec::new(alloc);
        for shape in self.shapes() {
            maps.push(Some(map_of_zeros(alloc, (*shape)?)?)).ok()?;
        }
        if put_all(maps.as_mut_slice(), self.values()) {
            Some(maps)
        } else {
            None
        }
    }

    /// The plain machine where a run begins.
    pub(crate) fn machine(&self, alloc: Global) -> Option<Machine> {
        let maps = self.maps(alloc)?;
        let context = self.context().to_vec(alloc).ok()?;
        if maps.len() > 8 {
            return None;
        }
        Some(Machine::start(context, maps))
    }
}

/// A map of zeros of a shape.
fn map_of_zeros(alloc: Global, shape: Shape) -> Option<ArrayMap> {
    if !shape.is_valid() {
        return None;
    }
    ArrayMap::of_zeros(alloc, shape).ok()
}

/// Puts a value into its map. It answers whether the element is there.
fn put(maps: &mut [Option<ArrayMap>], value: &Value) -> bool {
    match maps.get_mut(value.map as usize) {
        Some(Some(map)) if map.shape().value_size as usize == value.bytes.len() => {
            map.update(value.key, value.bytes.as_slice(), ANY) == 0
        }
        _ => false,
    }
}

/// Puts values into their maps. It answers whether each element is there.
pub(crate) fn put_all(maps: &mut [Option<ArrayMap>], values: &[Value]) -> bool {
    let mut all = true;
    for value in values {
        all &= put(maps, value);
    }
    all
}
