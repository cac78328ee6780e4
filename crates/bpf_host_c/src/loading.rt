//! An object's program, loaded with its maps.
ghost use Rattle.host_handle.specs.Loading.{AnswersLoading};

use host_handle::{Answer, BpfHost, BpfHostObject, BpfHostRefused, load_object};
use std::alloc::Global;

/// Makes the maps of an object that was read, by number and with their first values, and loads its program, for a tenant that has no map. Where
/// that is refused, the maps that were made are dropped.
#[unsafe(no_mangle)]
pub extern "C" fn bpf_host_load_object(
    alloc: Global,
    handle: &mut BpfHost,
    tenant: u32,
    object: &BpfHostObject,
    mergeable: bool,
    program: &mut u32,
    refused: &mut BpfHostRefused,
) -> u32
    ensures { AnswersLoading tenant mergeable object.now result program.old program.new refused.old refused.new handle.old.owner.host handle.new.owner.host }
{
    let Some(mut host) = handle.take(alloc) else {
        return 100;
    };
    let loaded = load_object(&mut host, tenant, object, mergeable);
    handle.put(host);
    match loaded {
        Ok(last) => {
            let answer = Answer::Replied(last);
            answer.write_program(program);
            answer.write_refused(refused);
            answer.code()
        }
        Err(code) => code,
    }
}
