ghost use Rattle.std.specs.Prelude.{◌≡◌, ◌≢◌, MatchOption};
ghost use Rattle.host_types.specs.declared.fault.Fault.TheVariants.{OutOfMemory};
ghost use Rattle.host_core.specs.declared.reply.Reply.TheVariants.{Refused};
ghost use Rattle.host_handle.specs.declared.answer.Answer.TheVariants.{Replied};
ghost use Rattle.host_types.specs.declared.event.Event.TheVariants.{CreateMap, Load, Begin, HostUpdate, HostLookup, Unload, DropMap, Set, Unmerge, Counters};
ghost use Rattle.host_handle.specs.declared.answer.Answer.{Answer as CallAnswer};
ghost use Rattle.host_handle.specs.Answered.{HasAnswer, IsNoOption, Serves};
ghost use Rattle.host_handle.specs.Codes.{call_code, lookup_code, new_map_number, new_program_number, value_copied, counters_written, refused_written, option_of};

use host_core::Event;
use host_handle::{BpfHost, BpfHostCounters, BpfHostRefused, option_numbered};
use std::alloc::Global;

/// Makes a map of zeros for a tenant, whose pages may be merged or not.
#[unsafe(no_mangle)]
pub extern "C" fn bpf_host_create_map(
    alloc: Global,
    handle: &mut BpfHost,
    tenant: u32,
    value_size: u32,
    entries: u32,
    mergeable: bool,
    map: &mut u32,
    refused: &mut BpfHostRefused,
) -> u32
    ensures { (answer : CallAnswer)
        × HasAnswer (Serves (CreateMap tenant value_size entries mergeable)) answer handle.old.owner.host handle.new.owner.host
        × (result ≡ call_code answer) × (map.new ≡ new_map_number answer map.old) × (refused.new ≡ refused_written answer refused.old) }
{
    let event = Event::CreateMap {
        tenant,
        value_size,
        entries,
        mergeable,
    };
    let answer = handle.serve(alloc, &event);
    answer.write_map(map);
    answer.write_refused(refused);
    answer.code()
}

/// Takes a map from a tenant.
#[unsafe(no_mangle)]
pub extern "C" fn bpf_host_drop_map(
    alloc: Global,
    handle: &mut BpfHost,
    tenant: u32,
    map: u32,
) -> u32
    ensures { (answer : CallAnswer)
        × HasAnswer (Serves (DropMap tenant map)) answer handle.old.owner.host handle.new.owner.host
        × (result ≡ call_code answer) }
{
    let answer = handle.serve(alloc, &Event::DropMap { tenant, map });
    answer.code()
}

/// Loads a program's text for contexts of a size in bytes.
#[unsafe(no_mangle)]
pub extern "C" fn bpf_host_load(
    alloc: Global,
    handle: &mut BpfHost,
    tenant: u32,
    text: &[u8],
    context_size: u32,
    program: &mut u32,
    refused: &mut BpfHostRefused,
) -> u32
    ensures { (answer : CallAnswer)
        × HasAnswer (Serves (Load tenant text.now context_size)) answer handle.old.owner.host handle.new.owner.host
        × (result ≡ call_code answer) × (program.new ≡ new_program_number answer program.old) × (refused.new ≡ refused_written answer refused.old) }
{
    let answer = handle.load(alloc, tenant, text, context_size);
    answer.write_program(program);
    answer.write_refused(refused);
    answer.code()
}

/// Takes a loaded program from a tenant.
#[unsafe(no_mangle)]
pub extern "C" fn bpf_host_unload(
    alloc: Global,
    handle: &mut BpfHost,
    tenant: u32,
    program: u32,
) -> u32
    ensures { (answer : CallAnswer)
        × HasAnswer (Serves (Unload tenant program)) answer handle.old.owner.host handle.new.owner.host
        × (result ≡ call_code answer) }
{
    let answer = handle.serve(alloc, &Event::Unload { tenant, program });
    answer.code()
}

/// Opens a run of a loaded program on a context.
#[unsafe(no_mangle)]
pub extern "C" fn bpf_host_begin(
    alloc: Global,
    handle: &mut BpfHost,
    tenant: u32,
    program: u32,
    context: &[u8],
    refused: &mut BpfHostRefused,
) -> u32
    ensures { (answer : CallAnswer)
        × HasAnswer (Serves (Begin tenant program context.now)) answer handle.old.owner.host handle.new.owner.host
        × (result ≡ call_code answer) × (refused.new ≡ refused_written answer refused.old) }
{
    let answer = handle.begin(alloc, tenant, program, context);
    answer.write_refused(refused);
    answer.code()
}

/// Writes a value to an element of a tenant's map.
#[unsafe(no_mangle)]
pub extern "C" fn bpf_host_update(
    alloc: Global,
    handle: &mut BpfHost,
    tenant: u32,
    map: u32,
    key: u32,
    value: &[u8],
    refused: &mut BpfHostRefused,
) -> u32
    ensures { (answer : CallAnswer)
        × HasAnswer (Serves (HostUpdate tenant map key value.now)) answer handle.old.owner.host handle.new.owner.host
        × (result ≡ call_code answer) × (refused.new ≡ refused_written answer refused.old) }
{
    let answer = handle.update(alloc, tenant, map, key, value);
    answer.write_refused(refused);
    answer.code()
}

/// Copies the value of an element of a tenant's map to just as many bytes. It takes no memory.
#[unsafe(no_mangle)]
pub extern "C" fn bpf_host_lookup(
    alloc: Global,
    handle: &mut BpfHost,
    tenant: u32,
    map: u32,
    key: u32,
    value: &mut [u8],
) -> u32
    ensures { (answer : CallAnswer)
        × HasAnswer (Serves (HostLookup tenant map key)) answer handle.old.owner.host handle.new.owner.host
        × (answer ≢ Replied (Refused OutOfMemory))
        × (result ≡ lookup_code answer value.old) × (value.new ≡ value_copied answer value.old) }
{
    handle.lookup(alloc, tenant, map, key, value)
}

/// Sets an option of the scanner: 0 to 3, in the order of `BpfHostOptions`.
#[unsafe(no_mangle)]
pub extern "C" fn bpf_host_set(alloc: Global, handle: &mut BpfHost, option: u32, value: u32) -> u32
    ensures { MatchOption (option_of option) (IsNoOption result handle.old.owner.host handle.new.owner.host) (λ chosen. (answer : CallAnswer)
        × HasAnswer (Serves (Set chosen value)) answer handle.old.owner.host handle.new.owner.host
        × (result ≡ call_code answer)) }
{
    let Some(option) = option_numbered(option) else {
        return if handle.is_open() { 40 } else { 100 };
    };
    let answer = handle.serve(alloc, &Event::Set { option, value });
    answer.code()
}

/// Gives each page that shares a frame one of its own, and stops the scanner.
#[unsafe(no_mangle)]
pub extern "C" fn bpf_host_unmerge(
    alloc: Global,
    handle: &mut BpfHost,
    refused: &mut BpfHostRefused,
) -> u32
    ensures { (answer : CallAnswer)
        × HasAnswer (Serves Unmerge) answer handle.old.owner.host handle.new.owner.host
        × (result ≡ call_code answer) × (refused.new ≡ refused_written answer refused.old) }
{
    let answer = handle.serve(alloc, &Event::Unmerge);
    answer.write_refused(refused);
    answer.code()
}

/// Returns the counters.
#[unsafe(no_mangle)]
pub extern "C" fn bpf_host_counters(
    alloc: Global,
    handle: &mut BpfHost,
    counters: &mut BpfHostCounters,
) -> u32
    ensures { (answer : CallAnswer)
        × HasAnswer (Serves Counters) answer handle.old.owner.host handle.new.owner.host
        × (result ≡ call_code answer) × (counters.new ≡ counters_written answer counters.old) }
{
    let answer = handle.serve(alloc, &Event::Counters);
    answer.write_counters(counters);
    answer.code()
}
