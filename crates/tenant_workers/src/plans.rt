ghost use Rattle.std.specs.Prelude.{◌≡◌};
ghost use Rattle.turn.specs.Seats.{IsIdle, own_part};
ghost use Rattle.tenant_workers.specs.Calls.{IsSameSeat, HasVisited};
ghost use Rattle.tenant_workers.specs.Runs.{IsResting};

use crate::gate::Gate;
use crate::shared::Shared;
use host_types::Fault;
use std::sync::Wait;
use tenant_runs::RunReply;
use turn::{ScanSeat, Seat};
use verifier::Verified;

/// What one tenant's thread does: its runs in order, each named by its program's number and its context.
///
/// The type keeps that the seat is one of this turn, that it holds nothing and that the tenant has no open
/// run, nor anything reserved: so reads after the threads go through the plan's own `shared`.
#[derive(Drop)]
pub struct TenantPlan<'a> {
    pub shared: &'a Shared,
    pub seat: Seat,
    pub programs: Vec<Verified>,
    pub runs: Vec<(u32, Vec<u8>)>,
    /// What the runs were answered, in their order.
    pub replies: Vec<Result<RunReply, Fault>>,
    pub ghost idle: { IsIdle shared.now seat },
    pub ghost resting: { IsResting (own_part seat) },
}

/// What the scanner's thread does: so many visits. The type keeps that the seat is one of this turn and holds
/// nothing.
#[derive(Drop)]
pub struct ScanPlan<'a> {
    pub shared: &'a Shared,
    pub seat: ScanSeat,
    pub visits: u32,
    pub ghost idle: { IsIdle shared.now seat },
}

/// The scanner's plan, lent to its thread.
#[derive(Drop)]
pub(crate) struct Scanning<'x, 'a> {
    pub(crate) plan: &'x mut ScanPlan<'a>,
}

/// What `serve` does: a thread for each tenant, and one for the scanner.
#[derive(Drop)]
pub struct Plan<'a> {
    pub tenants: Vec<TenantPlan<'a>>,
    pub scan: ScanPlan<'a>,
}

impl<'a> ScanPlan<'a> {
    /// The plan's visits, one turn a visit, after each of which the gate is called. No tenant's part changes.
    pub fn scan(&mut self, rt: &impl Wait, gate: &impl Gate)
        ensures shared { self.new.shared.now ≡ self.old.shared.now }
        ensures visits { self.new.visits ≡ self.old.visits }
        ensures same { IsSameSeat self.old.seat self.new.seat }
        ensures made { HasVisited self.old.visits self.old.seat self.new.seat }
    {
        let shared = self.shared;
        shared.scan_answered(rt, &mut self.seat, self.visits, gate);
    }
}
