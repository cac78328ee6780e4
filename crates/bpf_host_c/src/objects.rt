//! A program of an object file, read at run time. No handle is needed.
ghost use Rattle.host_handle.specs.Objects.{IsObjectRead};

use host_handle::{BpfHostObject, BpfHostRefused, program_of};
use std::alloc::Global;

/// Reads an object file, makes one text of the function that a name chooses and of those that it calls, lowers it for contexts of a size in
/// bytes, and writes it with its maps. No bytes name the only function.
#[unsafe(no_mangle)]
pub extern "C" fn bpf_host_read_object(
    alloc: Global,
    file: &[u8],
    name: &[u8],
    context_size: u32,
    object: &mut BpfHostObject,
    refused: &mut BpfHostRefused,
) -> u32
    ensures { IsObjectRead context_size result object.old object.new refused.old refused.new }
{
    match program_of(alloc, file, name, context_size) {
        Ok(program) => {
            object.write(
                context_size,
                program.text.as_slice(),
                program.maps.as_slice(),
            );
            0
        }
        Err(reason) => {
            object.explain(reason.words());
            reason.refuse(refused)
        }
    }
}
