//! What the threads are to do.

ghost use Rattle.std.specs.Prelude.{◌≡◌, [], ◌∷◌, All, OnOk};
ghost use Rattle.tenant_workers.specs.Plans.{IsFor, planned_by};
ghost use Rattle.serving.specs.Prepared.{HaveRuns, pages_set, visits_in, with_runs};

use host_core::Event;
use host_file::Command;
use host_types::Opt;
use std::alloc::{AllocError, Global};
use tenant_workers::{Shared, TenantPlan};

/// Adds the runs of a file to the plans of their tenants, which are lent `shared`, in the file's order.
pub(crate) fn add_runs(
    alloc: Global,
    shared: &Shared,
    plans: &mut [TenantPlan<'_>],
    commands: &[Command],
) -> Result<(), AllocError>
    requires own { All (IsFor shared.now) plans.old }
    ensures own { All (IsFor shared.now) plans.new }
    ensures planned { OnOk result (HaveRuns commands.now plans.old plans.new) }
{
    for command in commands {
        add_run(alloc, shared, plans, command)?;
    }
    Ok(())
}

/// Adds the run that a command asks for, if it does, to the plan of its tenant.
#[tactic(auto, using(crate::proofs::Kept::own_set))]
fn add_run(
    alloc: Global,
    shared: &Shared,
    plans: &mut [TenantPlan<'_>],
    command: &Command,
) -> Result<(), AllocError>
    requires own { All (IsFor shared.now) plans.old }
    ensures own { All (IsFor shared.now) plans.new }
    ensures planned { OnOk result (HaveRuns (command.now ∷ []) plans.old plans.new) }
{
    let Command::Run {
        tenant,
        program,
        context,
    } = command
    else {
        return Ok(());
    };
    let index = *tenant as usize;
    if index >= plans.len() {
        return Ok(());
    }
    plan_run(alloc, &mut plans[index], *program, context.as_slice())
}

/// Adds a run to a tenant's plan.
fn plan_run(
    alloc: Global,
    plan: &mut TenantPlan<'_>,
    program: u32,
    context: &[u8],
) -> Result<(), AllocError>
    ensures own { plan.new.shared.now ≡ plan.old.shared.now }
    ensures planned { OnOk result (planned_by plan.new ≡ with_runs (planned_by plan.old) ((program, context.now) ∷ [])) }
{
    let context = context.to_vec(alloc)?;
    plan.runs.push((program, context))?;
    Ok(())
}

/// How many visits a file asks for in all, at most 4,294,967,295. One without a count makes as many as
/// `pages_to_scan` is when all options are set.
pub(crate) fn visits_of(commands: &[Command], pages_to_scan: u32) -> u32
    ensures { result ≡ visits_in pages_to_scan commands.now }
{
    let pages = pages_at_last(commands, pages_to_scan);
    let mut visits = 0u32;
    for command in commands {
        if let Command::Visit { count } = command {
            visits = visits.saturating_add(count.unwrap_or(pages));
        }
    }
    visits
}

/// The last value that `pages_to_scan` is set to.
fn pages_at_last(commands: &[Command], pages_to_scan: u32) -> u32
    ensures { result ≡ pages_set pages_to_scan commands.now }
{
    let mut pages = pages_to_scan;
    for command in commands {
        if let Command::Apply(
            Event::Set {
                option: Opt::PagesToScan,
                value,
            },
        ) = command
        {
            pages = *value;
        }
    }
    pages
}
