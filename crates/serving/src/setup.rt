//! What is done before a thread starts, in the file's order.

ghost use Rattle.std.specs.Prelude.{◌≡◌, ◌++◌, [], ◌∷◌, All, IfErr, OnOk, length, map};
ghost use Rattle.host_types.specs.declared.fault.Fault.TheVariants.{BadOption};
ghost use Rattle.host_types.specs.OptionTable.{MayBe};
ghost use Rattle.bpf_decode.specs.Text.{IsWellFormed};
ghost use Rattle.verifier.specs.Verified.{Accepted, IsVerified};
ghost use Rattle.host_calls.specs.Programs.{RefusesProgram, subject_of};
ghost use Rattle.turn.specs.Seats.{own_part};
ghost use Rattle.tenant_workers.specs.Plans.{IsFor};
ghost use Rattle.host_file.specs.declared.command.Command.TheVariants.{Apply};
ghost use Rattle.serving.specs.Opened.{HaveOpened, IsGiven, IsMadeBy, IsNewPlan, IsSettable, IsStopped, RefusesGift, RefusesOpening, home_of};

use host_core::Event;
use host_file::Command;
use host_types::{Fault, Opt};
use std::alloc::Global;
use std::sync::Wait;
use tenant_workers::{Shared, TenantPlan};

/// Where the opening of a file stopped: the event with this number among its commands was refused.
#[derive(Drop)]
pub(crate) struct Stop<'c> {
    pub(crate) number: usize,
    pub(crate) event: &'c Event,
    pub(crate) fault: Fault,
}

/// Makes the maps, loads the programs and writes the values, up to the first refusal. The memory has the options
/// already: one that it can't have is refused here.
pub(crate) fn open_all<'c>(
    rt: &impl Wait,
    alloc: Global,
    shared: &Shared,
    plans: &mut [TenantPlan<'_>],
    commands: &'c [Command],
) -> Result<(), Stop<'c>>
    requires own { All (IsFor shared.now) plans.old }
    requires new { All IsNewPlan plans.old }
    ensures own { All (IsFor shared.now) plans.new }
    ensures opened { OnOk result (HaveOpened commands.now plans.old plans.new) }
    ensures settable { OnOk result (All IsSettable commands.now) }
    ensures stopped { IfErr result (λ stop. IsStopped (length plans.old) commands.now stop.event.now stop.fault) }
{
    for (number, command) in commands.iter().enumerate() {
        let Command::Apply(event) = command else {
            continue;
        };
        if let Err(fault) = apply(rt, alloc, shared, plans, event) {
            return Err(Stop {
                number,
                event,
                fault,
            });
        }
    }
    Ok(())
}

/// Does what an event asks for before a thread starts.
#[tactic(auto, using(crate::proofs::Kept::own_set, crate::proofs::Opened::opened_given, crate::proofs::Opened::opened_nobody, crate::proofs::Settings::settable_set, crate::proofs::Settings::settable_none, crate::proofs::Settings::settable_for, crate::proofs::Opened::refused_set, crate::proofs::Opened::refused_gift, crate::proofs::Opened::refused_nobody))]
fn apply(
    rt: &impl Wait,
    alloc: Global,
    shared: &Shared,
    plans: &mut [TenantPlan<'_>],
    event: &Event,
) -> Result<(), Fault>
    requires own { All (IsFor shared.now) plans.old }
    ensures own { All (IsFor shared.now) plans.new }
    ensures opened { OnOk result (HaveOpened (Apply event.now ∷ []) plans.old plans.new) }
    ensures settable { OnOk result (IsSettable (Apply event.now)) }
    ensures refused { IfErr result (RefusesOpening (map home_of plans.old) event.now) }
{
    if let Event::Set { option, value } = event {
        return may_set(*option, *value);
    }
    let Some(tenant) = event.tenant() else {
        return Ok(());
    };
    let index = tenant as usize;
    if index >= plans.len() {
        return Err(Fault::BadTenant);
    }
    apply_for(rt, alloc, &mut plans[index], event)
}

/// Whether an option may be set before a thread starts: whenever it can have the value.
fn may_set(option: Opt, value: u32) -> Result<(), Fault>
    ensures settable { OnOk result (MayBe option value) }
    ensures refused { IfErr result (λ fault. (fault ≡ BadOption) × ¬ (MayBe option value)) }
{
    if !option.allows(value) {
        return Err(Fault::BadOption);
    }
    Ok(())
}

/// Does what an event asks for a tenant before a thread starts.
#[tactic(auto, using(crate::proofs::Opened::refused_map, crate::proofs::Opened::refused_update))]
fn apply_for(
    rt: &impl Wait,
    alloc: Global,
    plan: &mut TenantPlan<'_>,
    event: &Event,
) -> Result<(), Fault>
    ensures own { plan.new.shared.now ≡ plan.old.shared.now }
    ensures runs { plan.new.runs.items ≡ plan.old.runs.items }
    ensures given { OnOk result (IsGiven event.now (home_of plan.old) (home_of plan.new)) }
    ensures made { OnOk result (IsMadeBy event.now plan.old.seat plan.new.seat) }
    ensures refused { IfErr result (RefusesGift event.now (home_of plan.old)) }
{
    match event {
        Event::CreateMap {
            value_size,
            entries,
            mergeable,
            ..
        } => {
            let made = plan
                .shared
                .create_map(rt, &mut plan.seat, *value_size, *entries, *mergeable);
            match made {
                Ok(_) => Ok(()),
                Err(fault) => Err(fault),
            }
        }
        Event::Load {
            text,
            context_size,
            ..
        } => load(rt, alloc, plan, text.as_slice(), *context_size),
        Event::HostUpdate {
            map,
            key,
            value,
            ..
        } => plan
            .shared
            .update(rt, &mut plan.seat, *map, *key, value.as_slice()),
        _ => Ok(()),
    }
}

/// Loads a text as the tenant's next program.
fn load(
    rt: &impl Wait,
    alloc: Global,
    plan: &mut TenantPlan<'_>,
    text: &[u8],
    context_size: u32,
) -> Result<(), Fault>
    ensures own { plan.new.shared.now ≡ plan.old.shared.now }
    ensures runs { plan.new.runs.items ≡ plan.old.runs.items }
    ensures part { own_part plan.new.seat ≡ own_part plan.old.seat }
    ensures loaded { OnOk result ((v : Accepted) × (v.subject ≡ subject_of (own_part plan.old.seat) text.now context_size)
        × IsVerified v × IsWellFormed text.now × (plan.new.programs.items ≡ plan.old.programs.items ++ v ∷ [])) }
    ensures refused { IfErr result (RefusesProgram (subject_of (own_part plan.old.seat) text.now context_size)) }
{
    let program = plan
        .shared
        .load_program(rt, alloc, &mut plan.seat, text, context_size)?;
    match plan.programs.push(program) {
        Ok(()) => Ok(()),
        Err(_) => Err(Fault::OutOfMemory),
    }
}
