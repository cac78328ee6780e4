//! The shapes of maps as rows write them.

ghost use Rattle.std.specs.Prelude.{◌≡◌, ◌<◌, ◌++◌, ◌∷◌, [], length, IfOk, IfSome, OnOk};
ghost use Rattle.host_types.specs.Shapes.{IsShape};
ghost use Rattle.verifier.specs.Verified.{AreShapes};

use host_types::Shape;
use std::alloc::{AllocError, Global};

/// What stands for a number without a shape.
const NO_SHAPE: &str = "-";

/// The shape that is written `VALUE_SIZE:ENTRIES`, if a map may have it.
fn shape_of(text: &str) -> Option<Shape>
    ensures { IfSome result IsShape }
{
    let (value_size, entries) = text.split_once(':')?;
    let shape = Shape {
        value_size: value_size.parse().ok()?,
        entries: entries.parse().ok()?,
    };
    if shape.is_valid() { Some(shape) } else { None }
}

/// Puts the shape of the next number, or that it has none, after others, of which there are fewer than
/// eight.
fn push_shape(shapes: &mut Vec<Option<Shape>>, shape: Option<Shape>) -> Result<(), AllocError>
    requires shapes { AreShapes shapes.old.items }
    requires shape { IfSome shape IsShape }
    requires few { length shapes.old.items < 8 }
    ensures pushed { OnOk result (shapes.new.items ≡ shapes.old.items ++ shape ∷ []) }
    ensures shapes { OnOk result (AreShapes shapes.new.items) }
{
    shapes.push(shape)?;
    Ok(())
}

/// The shapes by number that are written `VALUE_SIZE:ENTRIES` between spaces, or `-` for a number that has none, at
/// most eight; what is neither that nor a shape that a map may have is passed over.
pub fn shapes_of(alloc: Global, given: &str) -> Result<Vec<Option<Shape>>, AllocError>
    ensures { IfOk result (λ shapes. AreShapes shapes.items) }
{
    let mut shapes = Vec::new(alloc);
    for text in given.split(' ') {
        let shape = shape_of(text);
        if shapes.len() < 8 && (shape.is_some() || text == NO_SHAPE) {
            push_shape(&mut shapes, shape)?;
        }
    }
    Ok(shapes)
}
