ghost use Rattle.std.specs.Prelude.{◌≡◌};
ghost use Rattle.host_handle.specs.declared.answer.Answer.{Answer as CallAnswer};
ghost use Rattle.host_handle.specs.Answered.{HasAnswer, RunsWhole, Steps};
ghost use Rattle.host_handle.specs.Codes.{call_code, run_written, ended_written, refused_written};

use host_handle::{BpfHost, BpfHostRefused, BpfHostRun};
use std::alloc::Global;

/// Runs a loaded program on a context, from its beginning to its end.
#[unsafe(no_mangle)]
pub extern "C" fn bpf_host_run(
    alloc: Global,
    handle: &mut BpfHost,
    tenant: u32,
    program: u32,
    context: &[u8],
    run: &mut BpfHostRun,
    refused: &mut BpfHostRefused,
) -> u32
    ensures { (answer : CallAnswer)
        × HasAnswer (RunsWhole tenant program context.now) answer handle.old.owner.host handle.new.owner.host
        × (result ≡ call_code answer) × (run.new ≡ run_written answer run.old) × (refused.new ≡ refused_written answer refused.old) }
{
    let answer = handle.run(alloc, tenant, program, context);
    answer.write_run(run);
    answer.write_refused(refused);
    answer.code()
}

/// Makes steps of a tenant's open run, up to a limit.
#[unsafe(no_mangle)]
pub extern "C" fn bpf_host_step(
    alloc: Global,
    handle: &mut BpfHost,
    tenant: u32,
    steps: u64,
    ended: &mut bool,
    run: &mut BpfHostRun,
) -> u32
    ensures { (answer : CallAnswer)
        × HasAnswer (Steps tenant steps) answer handle.old.owner.host handle.new.owner.host
        × (result ≡ call_code answer) × (ended.new ≡ ended_written answer ended.old) × (run.new ≡ run_written answer run.old) }
{
    let answer = handle.step(alloc, tenant, steps);
    answer.write_ended(ended);
    answer.write_run(run);
    answer.code()
}
