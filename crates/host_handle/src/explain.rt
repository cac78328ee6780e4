//! What `explain` prints of a text.

use crate::given::shape_of;
use crate::structs::BpfHostShape;
use engines::check::CheckRequest;
use explained_text::explain_text;
use host_file::FileFault;
use host_types::limits::{MAX_MAPS, MAX_TEXT};
use host_types::{Bytes, Shape};
use std::alloc::{AllocError, Global};

/// What `explain` prints of a text, without colours.
pub fn explanation(
    alloc: Global,
    text: &[u8],
    shapes: &[BpfHostShape],
    context_size: u32,
) -> Result<Vec<u8>, FileFault> {
    let asked = CheckRequest {
        text: Bytes::from(front_of(text).to_vec(alloc)?),
        shapes: shapes_of(alloc, shapes)?,
        context_size,
    };
    let mut words = Vec::new(alloc);
    explain_text(alloc, &asked, &mut words)?;
    Ok(words)
}

/// As much of a text as is looked at. One with a slot too many is refused as a longer one is; both have whole slots, or neither.
fn front_of(text: &[u8]) -> &[u8] {
    text.get(..MAX_TEXT + 8 + text.len() % 8).unwrap_or(text)
}

/// The shapes that C gives. One too many is refused as more are.
fn shapes_of(alloc: Global, given: &[BpfHostShape]) -> Result<Vec<Option<Shape>>, AllocError> {
    let mut shapes = Vec::new(alloc);
    for shape in given.iter().take(MAX_MAPS + 1) {
        shapes.push(shape_of(shape))?;
    }
    Ok(shapes)
}
