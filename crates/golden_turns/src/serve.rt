//! Plans of two tenants that threads serve beside a scanner. That a thread is started for each, that they run
//! between each other's instructions, and that the scanner's visits are made, no contract of `serve` says.

ghost use Rattle.std.specs.Prelude.{◌≡◌, ◌<◌, IfOk, All};
ghost use Rattle.turn.specs.Seats.{IsIdle, own_part};
ghost use Rattle.tenant_workers.specs.Plans.{IsFor};
ghost use Rattle.tenant_workers.specs.Runs.{IsResting};

use crate::print;
use crate::tenants::two_tenants;
use host_types::Fault;
use ksm_counters::Counters;
use std::alloc::Global;
use std::hint::spin_loop;
use std::io;
use std::sync::Wait;
use std::sync::atomic::{AtomicU64, Ordering};
use std::thread::Threads;
use tenant_runs::RunReply;
use tenant_workers::{Gate, Open, Plan, ScanPlan, Shared, TenantPlan, serve};
use tests_inputs::texts::COUNTER;
use turn::Seat;

/// How often a tenant looks for the other's flag.
const TRIES: u32 = 50_000_000;

/// The slot at which the tenants wait for each other: the counter's load is done, and its store is next.
const FULFILLING: u32 = 10;

/// A gate at which each of two tenants raises its flag and waits for the other's.
#[derive(Drop)]
struct Fulfilment {
    raised: [AtomicU64; 2],
    /// How many tenants waited in vain.
    alone: AtomicU64,
}

impl Fulfilment {
    fn new() -> Fulfilment {
        Fulfilment {
            raised: [AtomicU64::new(0), AtomicU64::new(0)],
            alone: AtomicU64::new(0),
        }
    }

    fn fulfil(&self, own: usize, other: usize)
        requires own { own < 2 }
        requires other { other < 2 }
    {
        self.raised[own].store(1, Ordering::SeqCst);
        for _try in 0..TRIES {
            if self.raised[other].load(Ordering::SeqCst) == 1 {
                return;
            }
            spin_loop();
        }
        self.alone.fetch_add(1, Ordering::SeqCst);
    }
}

impl Gate for Fulfilment {
    fn at<R: Wait>(&self, _rt: &R, tenant: u32, slot: u32) {
        match (tenant, slot) {
            (0, FULFILLING) => self.fulfil(0, 1),
            (1, FULFILLING) => self.fulfil(1, 0),
            _ => {}
        }
    }
}

/// A list of one.
fn only<T: Drop>(alloc: Global, value: T) -> Result<Vec<T>, Fault> {
    let Ok(mut list) = Vec::with_capacity(alloc, 1) else {
        return Err(Fault::OutOfMemory);
    };
    list.push_reserved(value);
    Ok(list)
}

/// A plan of one run of the counter.
fn counting<'a>(
    rt: &impl Wait,
    alloc: Global,
    shared: &'a Shared,
    mut seat: Seat,
) -> Result<TenantPlan<'a>, Fault>
    requires idle { IsIdle shared.now seat }
    requires rests { IsResting (own_part seat) }
    ensures { IfOk result (IsFor shared.now) }
{
    let program = shared.load_program(rt, alloc, &mut seat, &COUNTER, 0)?;
    let programs = only(alloc, program)?;
    let runs = only(alloc, (0, Vec::new(alloc)))?;
    Ok(TenantPlan {
        shared,
        seat,
        programs,
        runs,
        replies: Vec::new(alloc),
    })
}

/// A plan of no run.
fn resting<'a>(alloc: Global, shared: &'a Shared, seat: Seat) -> TenantPlan<'a>
    requires idle { IsIdle shared.now seat }
    requires rests { IsResting (own_part seat) }
    ensures { IsFor shared.now result }
{
    TenantPlan {
        shared,
        seat,
        programs: Vec::new(alloc),
        runs: Vec::new(alloc),
        replies: Vec::new(alloc),
    }
}

/// A plan of both tenants, with so many visits of the scanner.
fn planned<'a>(
    alloc: Global,
    shared: &Shared,
    plans: (TenantPlan<'a>, TenantPlan<'a>),
    scan: ScanPlan<'a>,
) -> Result<Plan<'a>, Fault>
    requires first { IsFor shared.now plans.0 }
    requires second { IsFor shared.now plans.1 }
    requires scan { scan.shared.now ≡ shared.now }
    ensures tenants { IfOk result (λ plan. All (IsFor shared.now) plan.tenants.items) }
    ensures scan { IfOk result (λ plan. plan.scan.shared.now ≡ shared.now) }
{
    let (first, second) = plans;
    let Ok(mut tenants) = Vec::with_capacity(alloc, 2) else {
        return Err(Fault::OutOfMemory);
    };
    tenants.push_reserved(first);
    tenants.push_reserved(second);
    Ok(Plan { tenants, scan })
}

/// What is read of the counter's number, and what its run answers, when it ran once.
const ONE: [u8; 8] = [1, 0, 0, 0, 0, 0, 0, 0];

const COUNTED: [Result<RunReply, Fault>; 1] = [Ok(RunReply { ret: 1, steps: 11 })];

/// Whether a tenant's one run was the counter's first, and its value is 1.
fn has_counted(rt: &impl Wait, alloc: Global, plan: &mut TenantPlan) -> bool {
    let shared = plan.shared;
    let Ok(value) = shared.read(rt, alloc, &mut plan.seat, 0, 0) else {
        return false;
    };
    value.as_slice() == ONE.as_slice() && plan.replies.as_slice() == COUNTED.as_slice()
}

/// Whether each tenant of the plan ran the counter once.
fn have_counted(rt: &impl Wait, alloc: Global, plan: &mut Plan) -> bool {
    let mut counted = 0u32;
    for tenant in plan.tenants.iter_mut() {
        if !has_counted(rt, alloc, tenant) {
            return false;
        }
        counted = counted.wrapping_add(1);
    }
    counted == 2
}

/// Serves both tenants with four visits of the scanner: whether each counted once.
fn served<R: Threads + Wait + Sync, G: Gate + Sync>(
    rt: &R,
    alloc: Global,
    gate: &G,
) -> Result<bool, Fault> {
    let (shared, first, second, scanner, _host) = two_tenants(alloc, 8)?;
    let scan = ScanPlan {
        shared: &shared,
        seat: scanner,
        visits: 4,
    };
    let first = counting(rt, alloc, &shared, first)?;
    let second = counting(rt, alloc, &shared, second)?;
    let mut plan = planned(alloc, &shared, (first, second), scan)?;
    serve(rt, alloc, &shared, &mut plan, gate)?;
    Ok(have_counted(rt, alloc, &mut plan))
}

/// What the host counts of two tenants without a run that are served with four visits of the scanner.
fn visited<R>(rt: &R) -> Result<Counters, Fault>
where
    R: AllocGlobal + Threads + Wait + Sync,
{
    let alloc = rt.alloc();
    let (shared, first, second, scanner, mut host) = two_tenants(alloc, 4)?;
    let scan = ScanPlan {
        shared: &shared,
        seat: scanner,
        visits: 4,
    };
    let first = resting(alloc, &shared, first);
    let second = resting(alloc, &shared, second);
    let mut plan = planned(alloc, &shared, (first, second), scan)?;
    serve(rt, alloc, &shared, &mut plan, &Open)?;
    Ok(shared.counters(rt, &mut host))
}

/// Whether two tenants that wait for each other within their runs both go on, and count once each.
fn fulfil_once<R: Threads + Wait + Sync>(rt: &R, alloc: Global) -> Result<bool, Fault> {
    let gate = Fulfilment::new();
    let counted = served(rt, alloc, &gate)?;
    Ok(counted && gate.alone.load(Ordering::SeqCst) == 0)
}

/// How often both go on, of twenty times. A `serve` that runs one tenant after the other, or that answers each run
/// `OutOfMemory` without a thread, is ruled out by it; one that holds the turn through a run by
/// `turn_held_through_run`.
fn meetings<R: AllocGlobal + Threads + Wait + Sync>(rt: &R) -> Result<u32, Fault> {
    let mut fulfilled = 0u32;
    for _time in 0..20 {
        if fulfil_once(rt, rt.alloc())? {
            fulfilled = fulfilled.wrapping_add(1);
        }
    }
    Ok(fulfilled)
}

pub(crate) fn print_rows<R>(rt: &R) -> io::Result<()>
where
    R: AllocGlobal + Print + Threads + Wait + Sync,
{
    print(rt, "four visits beside no run", visited(rt))?;
    print(rt, "tenants that meet within their runs", meetings(rt))
}
