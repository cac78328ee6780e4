ghost use Rattle.std.specs.Prelude.{◌↔◌, IfSome, IsTrue};
ghost use Rattle.host_types.specs.Shapes.{IsShape};

use bpf_decode::decode;
use host_types::Shape;
use host_types::limits::MAX_MAPS;
use knowledge::Knowledge;
use std::alloc::Global;
use verifier::{Candidate, is_context_size};

/// What a text was verified for: maps of these shapes, by number, each there or not, and a context of so many bytes.
#[derive(Clone, Copy)]
pub struct CheckedText<'a> {
    pub text: &'a [u8],
    pub shapes: &'a [Option<Shape>],
    pub context_size: u32,
}

/// Whether a number has no shape, or one within the limits.
pub fn is_within_limits(shape: &Option<Shape>) -> bool
    ensures { IsTrue result ↔ IfSome shape.now IsShape }
{
    match shape {
        Some(shape) => shape.is_valid(),
        None => true,
    }
}

impl<'a> CheckedText<'a> {
    /// What is known at its slots: nothing where no text can be verified so, where it isn't well formed, and where there is no
    /// memory.
    pub fn knowledge(&self, alloc: Global) -> Option<Knowledge> {
        let CheckedText {
            text,
            shapes,
            context_size,
        } = *self;
        if shapes.len() > MAX_MAPS
            || !shapes.iter().all(|shape| is_within_limits(shape))
            || !is_context_size(context_size)
        {
            return None;
        }
        let program = decode(alloc, text).ok()?;
        Knowledge::of(alloc, Candidate::new(program, shapes, context_size)).ok()
    }
}
