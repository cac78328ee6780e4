//! The lowering of a program that words ask for.

use engines::check::CheckRequest;
use findings::is_within_limits;
use host_types::limits::MAX_MAPS;
use lowering::{Lowered, NotLowered, lower};
use std::alloc::Global;
use verifier::is_context_size;

/// What the lowering makes of a program, if a text may have such maps and such a context.
pub fn lowered(alloc: Global, asked: &CheckRequest) -> Option<Result<Lowered, NotLowered>> {
    let shapes = asked.shapes.as_slice();
    if shapes.len() > MAX_MAPS
        || !shapes.iter().all(|shape| is_within_limits(shape))
        || !is_context_size(asked.context_size)
    {
        return None;
    }
    Some(lower(alloc, asked.text.as_slice(), shapes, asked.context_size))
}
