//! The shapes of maps as C gives them.
ghost use Rattle.std.specs.Prelude.{◌≡◌, ◌↔◌, All, IfErr, IfOk, IfSome, IsTrue, OnOk};
ghost use Rattle.host_types.specs.Shapes.{IsShape};
ghost use Rattle.host_handle.specs.Texts.{AreAllowed, RefusesLimits, shape_given, shape_numbered, shapes_given};

use crate::structs::BpfHostShape;
use host_types::limits::MAX_MAPS;
use host_types::{Fault, Shape};
use verifier::is_context_size;

/// The shapes by number that a text is verified for, if it may have so many maps, each of these shapes, and contexts of this size.
pub(crate) fn allowed(
    given: &[BpfHostShape],
    context_size: u32,
) -> Result<[Option<Shape>; MAX_MAPS], Fault>
    ensures allowed { OnOk result (AreAllowed given.now context_size) }
    ensures shapes { IfOk result (λ shapes. shapes ≡ shapes_given given.now) }
    ensures refused { IfErr result (RefusesLimits given.now context_size) }
{
    if given.len() > MAX_MAPS {
        return Err(Fault::TooManyMaps);
    }
    let shapes = by_number(given);
    if !are_valid(&shapes) {
        return Err(Fault::BadShape);
    }
    if !is_context_size(context_size) {
        return Err(Fault::BadContext);
    }
    Ok(shapes)
}

/// The shape that two numbers give: none where both are 0.
pub(crate) fn shape_of(given: &BpfHostShape) -> Option<Shape>
    ensures { result ≡ shape_given given.now }
{
    if given.value_size == 0 && given.entries == 0 {
        return None;
    }
    Some(Shape {
        value_size: given.value_size,
        entries: given.entries,
    })
}

/// The shapes of at most eight maps by number.
fn by_number(given: &[BpfHostShape]) -> [Option<Shape>; MAX_MAPS]
    ensures { result ≡ shapes_given given.now }
{
    [
        numbered(given, 0),
        numbered(given, 1),
        numbered(given, 2),
        numbered(given, 3),
        numbered(given, 4),
        numbered(given, 5),
        numbered(given, 6),
        numbered(given, 7),
    ]
}

/// The shape of the map with a number, if there is one.
fn numbered(given: &[BpfHostShape], number: usize) -> Option<Shape>
    ensures { result ≡ shape_numbered given.now number }
{
    shape_of(given.get(number)?)
}

/// Whether each map that there is may have its shape.
fn are_valid(shapes: &[Option<Shape>]) -> bool
    ensures { IsTrue result ↔ All (λ shape. IfSome shape IsShape) shapes.now }
{
    shapes.iter().all(|shape| may_be(shape))
}

/// Whether a map may have a shape, if there is one.
fn may_be(shape: &Option<Shape>) -> bool
    ensures { IsTrue result ↔ IfSome shape.now IsShape }
{
    match shape {
        Some(shape) => shape.is_valid(),
        None => true,
    }
}
