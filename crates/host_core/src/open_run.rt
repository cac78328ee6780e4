//! The steps of an open run, and what they leave to do in the memory of all.
ghost use Rattle.std.specs.Prelude.{◌≡◌, min, Some};
ghost use Rattle.page_table.specs.State.{part};
ghost use Rattle.page_table.specs.Changes.{OtherTenantsUnchanged};
ghost use Rattle.admission.specs.Reserve.{needed_from};
ghost use Rattle.interp.specs.declared.need.Need.TheVariants.{Update, Delete};
ghost use Rattle.interp.specs.Machine.{MachineState, Next, step};
ghost use Rattle.tenant_runs.specs.Fulfilment.{sharing_fulfilled, KeepsSizes};
ghost use Rattle.tenant_runs.specs.UnderWay.{IsUnderWay, IsAsking, part_with_have};

use crate::tenant::OpenRun;
use admission::{needed, record_left, release};
use host_types::MapNo;
use interp::{Need, Run};
use page_table::Memory;
use tenant_runs::{SHARED_LOOP, TenantMaps, answer};
use verifier::Verified;

/// The loop over a tenant's maps (`TenantMaps`) that many runs in one call have alone.
pub(crate) const LOOP_OF_MANY: u8 = 1;

/// The loop that a run in one call has alone.
pub(crate) const LOOP_OF_ONE: u8 = 2;

/// More steps than a run makes.
pub(crate) const ALL_STEPS: u64 = 4294967296;

impl OpenRun {
    ghost use Rattle.std.specs.Prelude.{◌≡◌, ◌<◌, length, slice_get, List, Option, Some};
    ghost use Rattle.verifier.specs.Verified.{Accepted};
    ghost use Rattle.interp.specs.Machine.{MachineState};
    ghost use Rattle.page_table.specs.State.{MemoryState, part};
    ghost use Rattle.page_table.specs.Changes.{OtherTenantsUnchanged};
    ghost use Rattle.tenant_runs.specs.Fulfilment.{KeepsSizes};
    ghost use Rattle.host_core.specs.Batches.{IsUnderWayAt, IsStarted, HasMadeStep, HasAdvanced, on_context};
    ghost use Rattle.host_core.specs.declared.tenant.OpenRun.{OpenRun as KeptRun};

    /// Makes one step: what the run returned, if it ended with it. What is reserved afterwards is what the rest of the run may
    /// need. It stands apart from the loop over many steps, which keeps more at hand than one step pays for.
    pub(crate) fn step(
        &mut self,
        programs: &[Option<Verified>],
        memory: &mut Memory,
        tenant: u32,
    ) -> Option<u64>
        requires under_way { (v : Accepted) × (s : MachineState) × IsUnderWayAt programs.now self.old v s (part memory.old tenant) }
        ensures program { self.new.program ≡ self.old.program }
        ensures advanced { (v : Accepted) (s : MachineState) → IsUnderWayAt programs.now self.old v s (part memory.old tenant)
            → HasAdvanced v s tenant 1 self.old.run memory.old result self.new.run memory.new }
        ensures others { OtherTenantsUnchanged tenant memory.old memory.new }
        ensures sizes { KeepsSizes memory.old memory.new }
    {
        let Some(program) = &programs[self.program as usize] else {
            unreachable!();
        };
        program.facts();
        memory.facts();
        let need = self.run.next(program);
        if let Need::Private = need {
            // Most steps have no store ahead of them: nothing is reserved then, and there is nothing to lower.
            if memory.reserve(tenant) == 0 {
                return None;
            }
        }
        self.finish_step(program, memory, tenant, need)
    }

    /// Does what is left of a step that was made: what it asks, or its end, and what is reserved afterwards. It stands apart,
    /// so that a step of which nothing is left keeps nothing at hand for it.
    #[inline(never)]
    fn finish_step(
        &mut self,
        program: &Verified,
        memory: &mut Memory,
        tenant: u32,
        need: Need,
    ) -> Option<u64>
        requires made { (programs : List (Option Accepted)) × (kept : KeptRun) × (s : MachineState)
            × HasMadeStep programs kept program.now s need self.old.run (part memory.old tenant) }
        ensures program { self.new.program ≡ self.old.program }
        ensures advanced { (programs : List (Option Accepted)) (kept : KeptRun) (s : MachineState)
            → HasMadeStep programs kept program.now s need self.old.run (part memory.old tenant)
            → HasAdvanced program.now s tenant 1 kept.run memory.old result self.new.run memory.new }
        ensures others { OtherTenantsUnchanged tenant memory.old memory.new }
        ensures sizes { KeepsSizes memory.old memory.new }
    {
        memory.facts();
        match need {
            Need::Private => {
                let left = needed(program, memory, tenant, self.run.slot());
                memory.record(tenant, left);
                None
            }
            Need::Ended(ret) => {
                release(memory, tenant);
                Some(ret)
            }
            need => {
                answer(memory, tenant, program, &mut self.run, need);
                None
            }
        }
    }

    /// Makes steps of the program at its index up to a limit, and none after the first that asks for an update or a deletion in the
    /// tenant's maps: what the run returned, where it ended. What is reserved afterwards is what the rest of the run may need. It stands
    /// apart, so that all its callers have one loop.
    #[inline(never)]
    pub(crate) fn advance(
        &mut self,
        programs: &[Option<Verified>],
        memory: &mut Memory,
        number: u32,
        limit: u64,
    ) -> Option<u64>
        requires some { 0 < limit }
        requires under_way { (v : Accepted) × (s : MachineState) × IsUnderWayAt programs.now self.old v s (part memory.old number) }
        ensures program { self.new.program ≡ self.old.program }
        ensures advanced { (v : Accepted) (s : MachineState) → IsUnderWayAt programs.now self.old v s (part memory.old number)
            → HasAdvanced v s number limit self.old.run memory.old result self.new.run memory.new }
        ensures others { OtherTenantsUnchanged number memory.old memory.new }
        ensures sizes { KeepsSizes memory.old memory.new }
    {
        let Some(program) = &programs[self.program as usize] else {
            unreachable!();
        };
        program.facts();
        memory.facts();
        // All that is reserved for the run may be had while it makes its steps.
        record_left(memory, number, 0);
        memory.facts();
        self.advance_started(program, memory, number, limit)
    }

    /// Makes steps as `advance` does, where nothing is recorded as reserved for the run, though as much may be had as it
    /// may need: `before` is the memory with that recorded.
    #[inline(always)]
    fn advance_started(
        &mut self,
        program: &Verified,
        memory: &mut Memory,
        number: u32,
        limit: u64,
    ) -> Option<u64>
        requires some { 0 < limit }
        requires started { (programs : List (Option Accepted)) × (s : MachineState) × (before : MemoryState)
            × IsUnderWayAt programs self.old program.now s (part before number) × IsStarted program.now number s before memory.old }
        ensures program { self.new.program ≡ self.old.program }
        ensures advanced { (programs : List (Option Accepted)) (s : MachineState) (before : MemoryState)
            → IsUnderWayAt programs self.old program.now s (part before number) → IsStarted program.now number s before memory.old
            → HasAdvanced program.now s number limit self.old.run before result self.new.run memory.new }
        ensures others { OtherTenantsUnchanged number memory.old memory.new }
        ensures sizes { KeepsSizes memory.old memory.new }
    {
        program.facts();
        let maps = TenantMaps::<SHARED_LOOP> { tenant: number };
        let steps = lesser(program.instructions(), limit);
        match self.run.advance_on(program, &maps, memory, steps) {
            Need::Private => {
                let left = needed(program, memory, number, self.run.slot());
                memory.record(number, left);
                None
            }
            Need::Ended(ret) => {
                release(memory, number);
                Some(ret)
            }
            need => {
                answer(memory, number, program, &mut self.run, need);
                None
            }
        }
    }

    /// Makes the steps that are left, where nothing is recorded as reserved for the run, as `advance_started` does without a limit: up to one
    /// that asks for an update or a deletion, or to the end. Its context is the caller's, of which a run that goes on keeps a copy.
    #[inline(always)]
    pub(crate) fn finish_started<const LOOP: u8>(
        &mut self,
        program: &Verified,
        context: &[u8],
        memory: &mut Memory,
        tenant: u32,
    ) -> Option<u64>
        requires room { length self.old.run.context ≡ length context.now }
        requires started { (programs : List (Option Accepted)) × (s : MachineState) × (before : MemoryState)
            × IsUnderWayAt programs (on_context context.now self.old) program.now s (part before tenant) × IsStarted program.now tenant s before memory.old }
        ensures program { self.new.program ≡ self.old.program }
        ensures advanced { (programs : List (Option Accepted)) (s : MachineState) (before : MemoryState)
            → IsUnderWayAt programs (on_context context.now self.old) program.now s (part before tenant) → IsStarted program.now tenant s before memory.old
            → HasAdvanced program.now s tenant 4294967296 self.old.run before result self.new.run memory.new }
        ensures others { OtherTenantsUnchanged tenant memory.old memory.new }
        ensures sizes { KeepsSizes memory.old memory.new }
    {
        program.facts();
        let maps = TenantMaps::<LOOP> { tenant };
        // What the proof needs of the limit that there isn't: compiled code has nothing of it.
        let _most = lesser(program.instructions(), ALL_STEPS);
        match self.run.finish_on(program, context, &maps, memory) {
            Need::Ended(ret) => {
                release(memory, tenant);
                Some(ret)
            }
            Need::Update { map, key, flags } => {
                answer_update(memory, tenant, program, &mut self.run, map, key, flags);
                None
            }
            Need::Delete { map, key } => {
                answer_delete(memory, tenant, program, &mut self.run, map, key);
                None
            }
            // Loads, stores and lookups were fulfilled.
            _ => unreachable!(),
        }
    }
}

/// Answers an update, as `answer` does. It takes its numbers one by one, and stands apart, as `answer_delete`: what a caller hands on as a
/// whole `Need` lies in memory, which compiled code clears at the beginning of each run.
#[inline(never)]
fn answer_update(
    memory: &mut Memory,
    tenant: u32,
    program: &Verified,
    run: &mut Run,
    map: MapNo,
    key: u32,
    flags: u64,
)
    requires asks { (s : MachineState) × IsAsking program.now s (Update map key flags) run.old (part_with_have memory.old tenant) }
    ensures goes_on { (s : MachineState) → IsAsking program.now s (Update map key flags) run.old (part_with_have memory.old tenant)
        → (next : MachineState) × (step program.now.subject.text s ≡ Some (Next next)) × IsUnderWay program.now run.new next (part memory.new tenant) }
    ensures reserve { (part memory.new tenant).reserve ≡ needed_from program.now (part memory.new tenant) run.old.slot }
    ensures steps { run.new.steps ≡ run.old.steps }
    ensures others { OtherTenantsUnchanged tenant memory.old memory.new }
    ensures sharing { memory.new.sharing ≡ sharing_fulfilled (part memory.old tenant) memory.old.sharing tenant (Update map key flags) }
    ensures sizes { KeepsSizes memory.old memory.new }
{
    let need = Need::Update { map, key, flags };
    answer(memory, tenant, program, run, need);
}

/// Answers a deletion, as `answer` does.
#[inline(never)]
fn answer_delete(
    memory: &mut Memory,
    tenant: u32,
    program: &Verified,
    run: &mut Run,
    map: MapNo,
    key: u32,
)
    requires asks { (s : MachineState) × IsAsking program.now s (Delete map key) run.old (part_with_have memory.old tenant) }
    ensures goes_on { (s : MachineState) → IsAsking program.now s (Delete map key) run.old (part_with_have memory.old tenant)
        → (next : MachineState) × (step program.now.subject.text s ≡ Some (Next next)) × IsUnderWay program.now run.new next (part memory.new tenant) }
    ensures reserve { (part memory.new tenant).reserve ≡ needed_from program.now (part memory.new tenant) run.old.slot }
    ensures steps { run.new.steps ≡ run.old.steps }
    ensures others { OtherTenantsUnchanged tenant memory.old memory.new }
    ensures sharing { memory.new.sharing ≡ sharing_fulfilled (part memory.old tenant) memory.old.sharing tenant (Delete map key) }
    ensures sizes { KeepsSizes memory.old memory.new }
{
    let need = Need::Delete { map, key };
    answer(memory, tenant, program, run, need);
}

/// The lesser of two numbers.
fn lesser(a: u32, b: u64) -> u32
    ensures { result ≡ min a b }
{
    if u64::from(a) < b { a } else { b as u32 }
}
