ghost use Rattle.std.specs.Prelude.{◌≡◌, ◌≤◌, false, length, IfOk, OnOk, IfErr, OnErr};
ghost use Rattle.page_table.specs.State.{part, have_of};
ghost use Rattle.page_table.specs.Changes.{OtherTenantsUnchanged, opened, with_run};
ghost use Rattle.admission.specs.Reserve.{needed_from};
ghost use Rattle.interp.specs.StandsFor.{IsBegun, with_context};
ghost use Rattle.tenant_runs.specs.UnderWay.{RefusesOpen};

use admission::{breaks, needed};
use host_types::Fault;
use interp::Run;
use page_table::Memory;
use std::alloc::Global;
use verifier::Verified;

/// Opens a run of a tenant's program on a context: it stands at its beginning, it is the tenant's open run, and
/// just what it may need is reserved for it.
///
/// Refusals in their order: `BadContext` where the context hasn't the program's size, `NoFrames` just where it
/// may need more than `have()`, with both numbers; and `OutOfMemory` where memory ran out and neither holds. A
/// refusal changes nothing. The tenant has no other open run.
pub fn open_run(
    alloc: Global,
    memory: &mut Memory,
    tenant: u32,
    program: &Verified,
    context: &[u8],
) -> Result<Run, Fault>
    requires there { length (part memory.old tenant).maps ≡ 8 }
    requires none { (part memory.old tenant).running ≡ false }
    requires unreserved { (part memory.old tenant).reserve ≡ 0 }
    ensures sized { OnOk result (length context.now ≡ program.now.subject.context_size) }
    ensures begun { IfOk result (λ run. IsBegun program.now context.now run) }
    ensures steps { IfOk result (λ run. run.steps ≡ 0) }
    ensures enough { OnOk result (needed_from program.now (part memory.old tenant) 0 ≤ have_of memory.old) }
    ensures recorded { OnOk result
        (part memory.new tenant ≡ with_run (needed_from program.now (part memory.old tenant) 0) (part memory.old tenant)) }
    ensures all { OnOk result
        (memory.new ≡ opened memory.old tenant (needed_from program.now (part memory.old tenant) 0)) }
    ensures others { OtherTenantsUnchanged tenant memory.old memory.new }
    ensures refused { IfErr result (RefusesOpen program.now context.now memory.old tenant) }
    ensures unchanged { OnErr result (memory.new ≡ memory.old) }
{
    let mut run = Run::new(alloc);
    reopen_run(memory, tenant, program, context, &mut run)?;
    Ok(run)
}

/// Opens a run as `open_run` does, in a run that the tenant has kept, whose memory it takes: it asks for memory only where
/// the context is longer than those before. A refusal changes nothing. It is part of each caller, since a short run is mostly
/// its beginning and its end.
#[inline(always)]
pub fn reopen_run(
    memory: &mut Memory,
    tenant: u32,
    program: &Verified,
    context: &[u8],
    run: &mut Run,
) -> Result<(), Fault>
    requires there { length (part memory.old tenant).maps ≡ 8 }
    requires none { (part memory.old tenant).running ≡ false }
    requires unreserved { (part memory.old tenant).reserve ≡ 0 }
    ensures sized { OnOk result (length context.now ≡ program.now.subject.context_size) }
    ensures begun { OnOk result (IsBegun program.now context.now run.new) }
    ensures steps { OnOk result (run.new.steps ≡ 0) }
    ensures enough { OnOk result (needed_from program.now (part memory.old tenant) 0 ≤ have_of memory.old) }
    ensures recorded { OnOk result
        (part memory.new tenant ≡ with_run (needed_from program.now (part memory.old tenant) 0) (part memory.old tenant)) }
    ensures all { OnOk result
        (memory.new ≡ opened memory.old tenant (needed_from program.now (part memory.old tenant) 0)) }
    ensures others { OtherTenantsUnchanged tenant memory.old memory.new }
    ensures refused { IfErr result (RefusesOpen program.now context.now memory.old tenant) }
    ensures unchanged { OnErr result (memory.new ≡ memory.old) }
    ensures kept { OnErr result (run.new ≡ run.old) }
{
    if context.len() != program.ctx_size() as usize {
        return Err(Fault::BadContext);
    }
    let need = needed(program, memory, tenant, 0);
    let have = memory.have();
    if have < need {
        return Err(Fault::NoFrames { need, have });
    }
    match run.restart(program, context) {
        Ok(()) => {
            memory.begin_run(tenant, need);
            Ok(())
        }
        Err(_) => Err(Fault::OutOfMemory),
    }
}

/// Opens a run as `reopen_run` does, for a caller that makes its steps at once: what it may need may be had, and nothing of it is
/// recorded as reserved. Most runs find more frames than all their stores may take, so that no map is looked at. The run is begun on the
/// caller's bytes, and has room for a copy of them.
#[inline(always)]
pub fn reopen_unreserved(
    memory: &mut Memory,
    tenant: u32,
    program: &Verified,
    context: &[u8],
    run: &mut Run,
) -> Result<(), Fault>
    requires there { length (part memory.old tenant).maps ≡ 8 }
    requires none { (part memory.old tenant).running ≡ false }
    requires unreserved { (part memory.old tenant).reserve ≡ 0 }
    ensures sized { OnOk result (length context.now ≡ program.now.subject.context_size) }
    ensures begun { OnOk result (IsBegun program.now context.now (with_context context.now run.new)) }
    ensures room { OnOk result (length run.new.context ≡ length context.now) }
    ensures steps { OnOk result (run.new.steps ≡ 0) }
    ensures enough { OnOk result (needed_from program.now (part memory.old tenant) 0 ≤ have_of memory.old) }
    ensures recorded { OnOk result (part memory.new tenant ≡ with_run 0 (part memory.old tenant)) }
    ensures all { OnOk result (memory.new ≡ opened memory.old tenant 0) }
    ensures others { OtherTenantsUnchanged tenant memory.old memory.new }
    ensures refused { IfErr result (RefusesOpen program.now context.now memory.old tenant) }
    ensures unchanged { OnErr result (memory.new ≡ memory.old) }
    ensures kept { OnErr result (run.new ≡ run.old) }
{
    if context.len() != program.ctx_size() as usize {
        return Err(Fault::BadContext);
    }
    if memory.have() < breaks(program, 0) {
        let need = needed(program, memory, tenant, 0);
        if memory.have() < need {
            return Err(Fault::NoFrames {
                need,
                have: memory.have(),
            });
        }
    }
    if run.make_room(context.len()).is_err() {
        return Err(Fault::OutOfMemory);
    }
    // The run is begun last, so that compiled code knows where the first step is made.
    memory.begin_unreserved(tenant);
    run.start_on(program, context);
    Ok(())
}
