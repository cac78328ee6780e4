//! Calls on a text alone: whether the verifier accepts it, and what the lowering makes of it. They need no handle.
ghost use Rattle.host_handle.specs.Texts.{IsLoweringOf, IsVerdictOn};

use host_handle::{BpfHostRefused, BpfHostShape, made, put, refuse, verified};
use std::alloc::Global;

/// Verifies a text for maps of these shapes, by number, and contexts of a size in bytes. A shape of two zeros is that of no map.
#[unsafe(no_mangle)]
pub extern "C" fn bpf_host_verify(
    alloc: Global,
    text: &[u8],
    shapes: &[BpfHostShape],
    context_size: u32,
    refused: &mut BpfHostRefused,
) -> u32
    ensures { IsVerdictOn text.now shapes.now context_size result refused.old refused.new }
{
    match verified(alloc, text, shapes, context_size) {
        Ok(_) => 0,
        Err(fault) => refuse(fault, refused),
    }
}

/// Makes a text with the same runs that the verifier accepts for these shapes and contexts, and writes it and its length in bytes.
#[unsafe(no_mangle)]
pub extern "C" fn bpf_host_lower(
    alloc: Global,
    text: &[u8],
    shapes: &[BpfHostShape],
    context_size: u32,
    lowered: &mut [u8],
    written: &mut usize,
    refused: &mut BpfHostRefused,
) -> u32
    ensures { IsLoweringOf text.now shapes.now context_size result lowered.old lowered.new written.old written.new refused.old refused.new }
{
    match made(alloc, text, shapes, context_size) {
        Ok(made) => put(made.text.as_slice(), lowered, written),
        Err(not_made) => refuse(not_made.fault, refused),
    }
}
