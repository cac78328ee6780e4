ghost use Rattle.std.specs.Prelude.{◌≡◌};
ghost use Rattle.host_handle.specs.declared.answer.Answer.{Answer as CallAnswer};
ghost use Rattle.host_handle.specs.Answered.{HasAnswer, VisitsAndCounts};
ghost use Rattle.host_handle.specs.Codes.{call_code, counters_written};

use host_handle::{BpfHost, BpfHostCounters};
use std::alloc::Global;

/// Lets the scanner visit so many pages, and gives the counters after them.
#[unsafe(no_mangle)]
pub extern "C" fn bpf_host_visit(
    alloc: Global,
    handle: &mut BpfHost,
    visits: u32,
    after: &mut BpfHostCounters,
) -> u32
    ensures { (answer : CallAnswer)
        × HasAnswer (VisitsAndCounts visits) answer handle.old.owner.host handle.new.owner.host
        × (result ≡ call_code answer) × (after.new ≡ counters_written answer after.old) }
{
    let answer = handle.visit(alloc, visits);
    answer.write_counters(after);
    answer.code()
}
