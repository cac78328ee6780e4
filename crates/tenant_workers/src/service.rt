ghost use Rattle.std.specs.Prelude.{◌≡◌, ◌≤◌, IfErr, OnErr, OnOk, All, length, replicate, vec_capacity, vec_len, Err};
ghost use Rattle.host_types.specs.declared.fault.Fault.TheVariants.{OutOfMemory};
ghost use Rattle.tenant_workers.specs.Jobs.{HasRoomForJobs};
ghost use Rattle.tenant_workers.specs.Plans.{AreSamePlans, AreServed, HasReplyRoom, IsFor, IsPlanMade, IsPlanRefused, IsScanServed, planned_by};
ghost use Rattle.tenant_workers.specs.Scans.{IsScanMade, IsScanRefused};

use crate::gate::{Gate, Passed};
use crate::plans::{Plan, ScanPlan, Scanning, TenantPlan};
use crate::shared::Shared;
use crate::threads::{Job, Room, run_jobs};
use host_types::Fault;
use std::alloc::{AllocError, Global};
use std::mem;
use std::sync::Wait;
use std::thread::Threads;

/// Serves each tenant of a plan by a thread, which makes its runs in order, beside a thread of the scanner
/// which makes its visits. Returns when all have ended.
///
/// Afterwards each tenant has as many replies as runs: those of its runs in order, from its part as it was, each
/// with what the one before left, whatever the other threads did. Where its thread can't be started they
/// are all `Err(OutOfMemory)`, its seat stays, and the others go on. The scanner made as many visits as are
/// planned, or none where its thread can't be started.
///
/// The one refusal is `OutOfMemory`, where the room for the replies or for the threads can't be had. Then no
/// thread was started, and the plan is as it was.
pub fn serve<R: Threads + Wait + Sync, G: Gate + Sync>(
    rt: &R,
    alloc: Global,
    shared: &Shared,
    plan: &mut Plan,
    gate: &G,
) -> Result<(), Fault>
    requires tenants { All (IsFor shared.now) plan.old.tenants.items }
    requires scan { plan.old.scan.shared.now ≡ shared.now }
    ensures served { OnOk result (AreServed plan.old.tenants.items plan.new.tenants.items) }
    ensures scanned { OnOk result (IsScanServed plan.old.scan plan.new.scan) }
    ensures refused { IfErr result (λ fault. fault ≡ OutOfMemory) }
    ensures tenants_kept { OnErr result (AreSamePlans plan.old.tenants.items plan.new.tenants.items) }
    ensures scan_kept { OnErr result (plan.new.scan ≡ plan.old.scan) }
{
    let Ok(room) = Room::new(alloc, plan.tenants.len()) else {
        return Err(Fault::OutOfMemory);
    };
    if reserve_all(&mut plan.tenants).is_err() {
        return Err(Fault::OutOfMemory);
    }
    let start = Passed::Start {
        runs: runs_in(&plan.tenants),
        visits: plan.scan.visits,
    };
    gate.pass(rt, start);
    run_beside_scanner(rt, alloc, &mut plan.scan, &mut plan.tenants, room, gate);
    gate.pass(rt, Passed::End);
    Ok(())
}

/// Runs each tenant's plan by a thread, beside the scanner's thread.
fn run_beside_scanner<'a, R: Threads + Wait + Sync, G: Gate + Sync>(
    rt: &R,
    alloc: Global,
    scan: &mut ScanPlan<'a>,
    tenants: &mut Vec<TenantPlan<'a>>,
    room: Room<TenantPlan<'a>>,
    gate: &G,
)
    requires ready { All HasReplyRoom tenants.old.items }
    requires room { HasRoomForJobs (vec_len tenants.old) room }
    ensures served { AreServed tenants.old.items tenants.new.items }
    ensures scanned { IsScanServed scan.old scan.new }
{
    let scanned = lend_to_threads(rt, alloc, scan, tenants, room, gate);
    end_loan(scanned);
}

/// Lends the scanner's plan to its thread, and gives the loan back when all threads have ended.
fn lend_to_threads<'x, 'a, R: Threads + Wait + Sync, G: Gate + Sync>(
    rt: &R,
    alloc: Global,
    scan: &'x mut ScanPlan<'a>,
    tenants: &mut Vec<TenantPlan<'a>>,
    room: Room<TenantPlan<'a>>,
    gate: &G,
) -> &'x mut ScanPlan<'a>
    requires ready { All HasReplyRoom tenants.old.items }
    requires room { HasRoomForJobs (vec_len tenants.old) room }
    ensures served { AreServed tenants.old.items tenants.new.items }
    ensures lent { result.ghost_name ≡ scan.entry.ghost_name }
    ensures scanned { IsScanServed scan.old result.now }
{
    let jobs = mem::replace(tenants, Vec::new(alloc));
    let (done, scanning) = run_jobs(rt, alloc, jobs, room, Scanning { plan: scan }, gate);
    *tenants = done;
    let Scanning { plan } = scanning;
    plan
}

/// Ends a loan: its lender has what was left in it.
fn end_loan<'x, 'a>(_plan: &'x mut ScanPlan<'a>)
    ensures { _plan.new ≡ _plan.old }
{}

/// How many runs plans have in all.
fn runs_in(tenants: &[TenantPlan]) -> u64 {
    let mut runs = 0u64;
    for tenant in tenants {
        runs = runs.saturating_add(tenant.runs.len() as u64);
    }
    runs
}

/// Makes room in each plan for as many replies as it has runs.
fn reserve_all(tenants: &mut [TenantPlan]) -> Result<(), AllocError>
    ensures room { OnOk result (All HasReplyRoom tenants.new) }
    ensures same { AreSamePlans tenants.old tenants.new }
{
    for tenant in tenants.iter_mut() {
        let more = tenant.runs.len().saturating_sub(tenant.replies.len());
        tenant.replies.reserve(more)?;
    }
    Ok(())
}

impl<'a> TenantPlan<'a> {
    /// Answers each run as if its thread couldn't be started.
    fn refuse_all(&mut self)
        requires { length self.old.runs.items ≤ vec_capacity self.old.replies }
        ensures shared { self.new.shared.now ≡ self.old.shared.now }
        ensures seat { self.new.seat ≡ self.old.seat }
        ensures programs { self.new.programs.items ≡ self.old.programs.items }
        ensures runs { self.new.runs.items ≡ self.old.runs.items }
        ensures replies { self.new.replies.items ≡ replicate (length self.old.runs.items) (Err OutOfMemory) }
    {
        let runs = self.runs.len();
        self.replies.clear();
        for _run in 0..runs {
            self.replies.push_reserved(Err(Fault::OutOfMemory));
        }
    }
}

impl<'a> Job for TenantPlan<'a> {
    ghost is_ready = { HasReplyRoom };

    ghost is_done = { λ old new. IsPlanMade (planned_by old) (planned_by new) };

    ghost is_refused = { λ old new. IsPlanRefused (planned_by old) (planned_by new) };

    fn run<R: Wait>(self, rt: &R, alloc: Global, gate: &impl Gate) -> TenantPlan<'a> {
        let mut plan = self;
        plan.refuse_all();
        let shared = plan.shared;
        shared.run_all(rt, alloc, &mut plan, gate);
        plan
    }

    fn refuse(self) -> TenantPlan<'a> {
        let mut plan = self;
        plan.refuse_all();
        plan
    }
}

impl<'x, 'a> Job for Scanning<'x, 'a> {
    ghost is_ready = { λ _. Unit {0} };

    ghost is_done = { IsScanMade };

    ghost is_refused = { IsScanRefused };

    fn run<R: Wait>(self, rt: &R, _alloc: Global, gate: &impl Gate) -> Scanning<'x, 'a> {
        let Scanning { plan } = self;
        plan.scan(rt, gate);
        Scanning { plan }
    }

    fn refuse(self) -> Scanning<'x, 'a> {
        self
    }
}
