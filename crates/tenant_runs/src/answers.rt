ghost use Rattle.std.specs.Prelude.{◌≡◌, ◌+◌, ◌≤◌, ℕ, length, Some};
ghost use Rattle.bpf_decode.specs.Text.{instructions_of};
ghost use Rattle.verifier.specs.Verified.{Accepted};
ghost use Rattle.page_table.specs.State.{part, have_of};
ghost use Rattle.page_table.specs.Changes.{OtherTenantsUnchanged, with_record, with_reserve};
ghost use Rattle.admission.specs.Reserve.{needed_from};
ghost use Rattle.interp.specs.Machine.{MachineState, Next, Exits, step};
ghost use Rattle.interp.specs.Runs.{Reaches};
ghost use Rattle.tenant_runs.specs.Fulfilment.{sharing_fulfilled, KeepsSizes};
ghost use Rattle.tenant_runs.specs.UnderWay.{IsUnderWay, IsAsking, part_with_have};

use crate::maps::{SHARED_LOOP, TenantMaps};
use crate::needs::fulfil;
use admission::{needed, needed_within, record_left};
use interp::{Need, Run};
use page_table::Memory;
use verifier::Verified;

/// How a run ended.
#[derive(Clone, Copy, Debug, PartialEq, Eq)]
pub struct RunReply {
    /// What the program returned.
    pub ret: u64,
    /// How many steps it made.
    pub steps: u32,
}

/// Does what a tenant's run asks, and gives it the answer: then it stands for the state to which the
/// standard's step leads, and its maps are the tenant's. What is reserved for it before and what `have()` gives
/// are together enough for the rest of it; afterwards just what the rest of it may need is reserved, by the pages that
/// it has pinned by then.
pub fn answer(memory: &mut Memory, tenant: u32, program: &Verified, run: &mut Run, need: Need)
    requires asks { (s : MachineState) × IsAsking program.now s need run.old (part_with_have memory.old tenant) }
    ensures goes_on { (s : MachineState) → IsAsking program.now s need run.old (part_with_have memory.old tenant)
        → (next : MachineState) × (step program.now.subject.text s ≡ Some (Next next)) × IsUnderWay program.now run.new next (part memory.new tenant) }
    ensures reserve { (part memory.new tenant).reserve ≡ needed_from program.now (part memory.new tenant) run.old.slot }
    ensures steps { run.new.steps ≡ run.old.steps }
    ensures others { OtherTenantsUnchanged tenant memory.old memory.new }
    ensures sharing { memory.new.sharing ≡ sharing_fulfilled (part memory.old tenant) memory.old.sharing tenant need }
    ensures sizes { KeepsSizes memory.old memory.new }
{
    respond(memory, tenant, run, need);
    let left = needed(program, memory, tenant, run.slot());
    memory.record(tenant, left);
}

/// Does what `answer` does, where what is reserved for the run is enough for it. It writes nothing after a load or a lookup but what is
/// reserved for the rest of the run, where that is less than before.
pub fn answer_recorded(
    memory: &mut Memory,
    tenant: u32,
    program: &Verified,
    run: &mut Run,
    need: Need,
)
    requires asks { (s : MachineState) × IsAsking program.now s need run.old (part memory.old tenant) }
    ensures goes_on { (s : MachineState) → IsAsking program.now s need run.old (part memory.old tenant)
        → (next : MachineState) × (step program.now.subject.text s ≡ Some (Next next)) × IsUnderWay program.now run.new next (part memory.new tenant) }
    ensures reserve { (part memory.new tenant).reserve ≡ needed_from program.now (part memory.new tenant) run.old.slot }
    ensures steps { run.new.steps ≡ run.old.steps }
    ensures others { OtherTenantsUnchanged tenant memory.old memory.new }
    ensures sharing { memory.new.sharing ≡ sharing_fulfilled (part memory.old tenant) memory.old.sharing tenant need }
    ensures sizes { KeepsSizes memory.old memory.new }
{
    let recorded = memory.reserve(tenant);
    respond(memory, tenant, run, need);
    let left = needed_within(program, memory, tenant, run.slot(), recorded);
    record_left(memory, tenant, left);
}

/// Does what a tenant's run asks, and gives it the answer. What is recorded for the run after it and what `have()` gives
/// are together enough for the rest of it: whoever stops there records what that may need. It is part of each caller: one that knows what
/// is asked goes straight to it.
#[inline(always)]
fn respond(memory: &mut Memory, tenant: u32, run: &mut Run, need: Need)
    requires asks { (v : Accepted) × (s : MachineState) × IsAsking v s need run.old (part_with_have memory.old tenant) }
    ensures goes_on { (v : Accepted) (s : MachineState) → IsAsking v s need run.old (part_with_have memory.old tenant)
        → (next : MachineState) × (step v.subject.text s ≡ Some (Next next)) × IsUnderWay v run.new next (part_with_have memory.new tenant) }
    ensures less { (v : Accepted) (s : MachineState) → IsAsking v s need run.old (part_with_have memory.old tenant)
        → needed_from v (part memory.new tenant) run.new.slot ≤ needed_from v (part memory.old tenant) s.slot }
    ensures slot { run.new.slot ≡ run.old.slot }
    ensures steps { run.new.steps ≡ run.old.steps }
    ensures others { OtherTenantsUnchanged tenant memory.old memory.new }
    ensures sharing { memory.new.sharing ≡ sharing_fulfilled (part memory.old tenant) memory.old.sharing tenant need }
    ensures sizes { KeepsSizes memory.old memory.new }
{
    memory.facts();
    memory.maps_are_flat();
    let value: &[u8] = match need {
        Need::Update { .. } => run.value(),
        _ => &[],
    };
    let number = fulfil(memory, tenant, need, value);
    run.answer(number);
}

/// Makes all steps that are left of a tenant's run, on the memory of its maps. Each verified program
/// ends, with the number and the maps of the standard's machine on the tenant's maps alone, within as
/// many steps from its beginning as it has instructions; and no other tenant's part changes.
pub fn finish(memory: &mut Memory, tenant: u32, program: &Verified, run: &mut Run) -> RunReply
    requires under_way { (s : MachineState) × IsUnderWay program.now run.old s (part_with_have memory.old tenant) }
    ensures ended { (s : MachineState) → IsUnderWay program.now run.old s (part_with_have memory.old tenant)
        → (n : ℕ) × Reaches program.now.subject.text s n (Exits result.ret (part memory.new tenant).maps) × (result.steps ≡ run.old.steps + n) }
    ensures few { result.steps ≤ instructions_of program.now.subject.text }
    ensures others { OtherTenantsUnchanged tenant memory.old memory.new }
    ensures sizes { KeepsSizes memory.old memory.new }
{
    program.facts();
    let maps = TenantMaps::<SHARED_LOOP> { tenant };
    loop {
        // All that is reserved for the run may be had while it makes its steps.
        record_left(memory, tenant, 0);
        match run.advance_on(program, &maps, memory, program.instructions()) {
            Need::Ended(ret) => {
                return RunReply {
                    ret,
                    steps: run.steps(),
                };
            }
            need => respond(memory, tenant, run, need),
        }
    }
}
