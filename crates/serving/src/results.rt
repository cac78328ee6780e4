//! What is written when all threads have ended.

ghost use Rattle.std.specs.Prelude.{◌≡◌, List, [], ◌∷◌, IfErr, IfOk, MatchOption, MatchResult, OnOk, map};
ghost use Rattle.host_file.specs.Faults.{IsBad};
ghost use Rattle.host_core.specs.declared.reply.Reply.{Reply};
ghost use Rattle.host_core.specs.declared.reply.Reply.TheVariants as reply;
ghost use Rattle.host_file.specs.declared.command.Command.TheVariants.{Apply};
ghost use Rattle.turn.specs.Seats.{own_part};
ghost use Rattle.engines.specs.Beginnings.{begin_event};
ghost use Rattle.serving.specs.Lookups.{AreLookedUp, IsLookedUp, lookup_by, lookup_tellings, lookups_in};
ghost use Rattle.serving.specs.RunLines.{all_run_tellings, beginning_for, beginnings_for, run_tellings, whole_reply};
ghost use Rattle.serving.specs.Served.{ArePrinted, outcome_of};
ghost use Rattle.serving.specs.Report.{HasWritten};

use crate::report::Report;
use engines::Beginning;
use host_core::{Bytes, Event, Reply};
use host_file::{Command, FileFault};
use host_types::Fault;
use std::alloc::Global;
use std::io::Write;
use std::sync::Wait;
use tenant_runs::RunReply;
use tenant_workers::TenantPlan;
use verifier::Verified;

/// Writes what came of each tenant's plan: what its runs were answered, and then the values that are looked up.
/// Answers the status.
pub(crate) fn print_served<W: Write, E: Write>(
    rt: &impl Wait,
    alloc: Global,
    plans: &mut [TenantPlan<'_>],
    commands: &[Command],
    writer: &mut W,
    diagnostics: &mut E,
) -> Result<u8, FileFault>
    ensures printed { IfOk result (λ status. ArePrinted commands.now (map outcome_of plans.old) status (W.contents writer.old) (W.contents writer.new)) }
    ensures bad { IfErr result (λ fault. ¬ IsBad fault) }
{
    let mut printed = Report {
        alloc,
        has_refused: false,
    };
    print_runs(plans, commands, &mut printed, writer, diagnostics)?;
    print_lookups(
        rt,
        alloc,
        plans,
        commands,
        &mut printed,
        writer,
        diagnostics,
    )?;
    Ok(u8::from(printed.has_refused))
}

/// Writes what each run was answered, by tenant and within a tenant in order.
fn print_runs<W: Write, E: Write>(
    plans: &[TenantPlan<'_>],
    commands: &[Command],
    printed: &mut Report,
    writer: &mut W,
    diagnostics: &mut E,
) -> Result<(), FileFault>
    ensures printed { OnOk result (HasWritten (all_run_tellings commands.now 0 (map (λ plan. plan.replies.items) plans.now))
        printed.old.has_refused printed.new.has_refused (W.contents writer.old) (W.contents writer.new)) }
    ensures bad { IfErr result (λ fault. ¬ IsBad fault) }
{
    for (tenant, plan) in plans.iter().enumerate() {
        print_tenant(
            tenant,
            &plan.replies,
            plan.programs.as_slice(),
            commands,
            printed,
            writer,
            diagnostics,
        )?;
    }
    Ok(())
}

/// Writes what each run of a tenant was answered. Those that began are counted from 0.
fn print_tenant<W: Write, E: Write>(
    tenant: usize,
    replies: &[Result<RunReply, Fault>],
    programs: &[Verified],
    commands: &[Command],
    printed: &mut Report,
    writer: &mut W,
    diagnostics: &mut E,
) -> Result<(), FileFault>
    ensures printed { OnOk result (HasWritten (run_tellings (beginnings_for tenant commands.now) replies.now 0)
        printed.old.has_refused printed.new.has_refused (W.contents writer.old) (W.contents writer.new)) }
    ensures bad { IfErr result (λ fault. ¬ IsBad fault) }
{
    let mut replies = replies.iter();
    let mut begun = 0u64;
    for (number, command) in commands.iter().enumerate() {
        let Some(beginning) = run_of(tenant, command) else {
            continue;
        };
        let Some(answer) = replies.next() else {
            return Ok(());
        };
        printed.print_run(
            writer,
            diagnostics,
            number,
            &beginning,
            begun,
            &reply_of(answer),
            context_size_of(programs, beginning.program),
        )?;
        begun = begun.saturating_add(u64::from(answer.is_ok()));
    }
    Ok(())
}

/// The size of contexts that a program was loaded with, if there is one of this number.
fn context_size_of(programs: &[Verified], number: u32) -> Option<u32> {
    Some(programs.get(number as usize)?.ctx_size())
}

/// What opens a command's run, where it is a run of this tenant.
fn run_of(tenant: usize, command: &Command) -> Option<Beginning<'_>>
    ensures begins { MatchOption result (beginning_for tenant command.now ≡ []) (λ beginning. beginning_for tenant command.now ≡ begin_event beginning ∷ []) }
{
    match command {
        Command::Run {
            tenant: named,
            program,
            context,
        } if *named as usize == tenant => Some(Beginning {
            tenant: *named,
            program: *program,
            context,
        }),
        _ => None,
    }
}

/// What the host would answer to a run that is made whole.
fn reply_of(answer: &Result<RunReply, Fault>) -> Reply
    ensures { result ≡ whole_reply answer.now }
{
    match answer {
        Ok(reply) => Reply::Ended {
            ret: reply.ret,
            steps: reply.steps,
        },
        Err(fault) => Reply::Refused(*fault),
    }
}

/// Writes each value that is looked up, in the file's order.
fn print_lookups<W: Write, E: Write>(
    rt: &impl Wait,
    alloc: Global,
    plans: &mut [TenantPlan<'_>],
    commands: &[Command],
    printed: &mut Report,
    writer: &mut W,
    diagnostics: &mut E,
) -> Result<(), FileFault>
    ensures printed { OnOk result ((answers : List Reply) × AreLookedUp (map (λ plan. own_part plan.seat) plans.old) (lookups_in commands.now) answers
        × HasWritten (lookup_tellings (lookups_in commands.now) answers)
        printed.old.has_refused printed.new.has_refused (W.contents writer.old) (W.contents writer.new)) }
    ensures bad { IfErr result (λ fault. ¬ IsBad fault) }
{
    for (number, command) in commands.iter().enumerate() {
        let Command::Apply(event) = command else {
            continue;
        };
        if let Some(reply) = looked_up(rt, alloc, plans, event) {
            printed.print(writer, diagnostics, number, event, &reply)?;
        }
    }
    Ok(())
}

/// What is answered to an event that looks a value up.
fn looked_up(
    rt: &impl Wait,
    alloc: Global,
    plans: &mut [TenantPlan<'_>],
    event: &Event,
) -> Option<Reply>
    ensures parts { map (λ plan. own_part plan.seat) plans.new ≡ map (λ plan. own_part plan.seat) plans.old }
    ensures answers { MatchOption result (lookup_by (Apply event.now) ≡ [])
        (λ reply. (lookup_by (Apply event.now) ≡ event.now ∷ []) × IsLookedUp (map (λ plan. own_part plan.seat) plans.old) event.now reply) }
{
    let Event::HostLookup { tenant, map, key } = event else {
        return None;
    };
    let index = *tenant as usize;
    if index >= plans.len() {
        return Some(Reply::Refused(Fault::BadTenant));
    }
    let plan = &mut plans[index];
    Some(value_reply(plan.shared.read(rt, alloc, &mut plan.seat, *map, *key)))
}

/// What the host would answer with a value.
fn value_reply(value: Result<Vec<u8>, Fault>) -> Reply
    ensures { MatchResult value (λ bytes. result ≡ reply.Value bytes.items) (λ fault. result ≡ reply.Refused fault) }
{
    match value {
        Ok(bytes) => Reply::Value(Bytes::from(bytes)),
        Err(fault) => Reply::Refused(fault),
    }
}
