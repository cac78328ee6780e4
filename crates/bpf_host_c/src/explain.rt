//! What `explain` prints of a text.
ghost use Rattle.host_handle.specs.Texts.{IsExplained};

use host_handle::{BpfHostShape, explanation, put};
use std::alloc::Global;

/// What a call returns where there is no memory.
const NO_MEMORY: u32 = 41;

/// Writes what `explain` prints of a text, without colours, and its length in bytes.
#[unsafe(no_mangle)]
pub extern "C" fn bpf_host_explain(
    alloc: Global,
    text: &[u8],
    shapes: &[BpfHostShape],
    context_size: u32,
    explained: &mut [u8],
    written: &mut usize,
) -> u32
    ensures { IsExplained result explained.old explained.new written.old written.new }
{
    match explanation(alloc, text, shapes, context_size) {
        Ok(words) => put(words.as_slice(), explained, written),
        Err(_) => NO_MEMORY,
    }
}
