ghost use Rattle.std.specs.Prelude.{◌≡◌, ◌<◌};
ghost use Rattle.turn.specs.Seats.{IsIdle};
ghost use Rattle.tenant_workers.specs.Calls.{IsSameSeat, IsVisit, IsVisited, HasChanged, HasVisited, memory_left};

use crate::gate::{Gate, Open, Passed};
use crate::shared::Shared;
use scanner::visit;
use std::sync::Wait;
use turn::ScanSeat;

impl Shared {
    /// So many visits of the scanner, one turn a visit, and no other turn. No tenant's part changes.
    pub fn scan_batch(&self, rt: &impl Wait, seat: &mut ScanSeat, visits: u32)
        requires idle { IsIdle self.now seat.old }
        ensures idle { IsIdle self.now seat.new }
        ensures same { IsSameSeat seat.old seat.new }
        ensures visits { HasVisited visits seat.old seat.new }
        ensures visited { 0 < visits → IsVisited (memory_left seat.new) }
    {
        self.scan_answered(rt, seat, visits, &Open);
    }

    /// So many visits of the scanner, after each of which the gate is called.
    pub(crate) fn scan_answered(
        &self,
        rt: &impl Wait,
        seat: &mut ScanSeat,
        visits: u32,
        gate: &impl Gate,
    )
        requires idle { IsIdle self.now seat.old }
        ensures idle { IsIdle self.now seat.new }
        ensures same { IsSameSeat seat.old seat.new }
        ensures visits { HasVisited visits seat.old seat.new }
        ensures visited { 0 < visits → IsVisited (memory_left seat.new) }
    {
        for _visit in 0..visits {
            self.scan(rt, seat);
            gate.pass(rt, Passed::Visit);
        }
    }

    /// One visit.
    fn scan(&self, rt: &impl Wait, seat: &mut ScanSeat)
        requires idle { IsIdle self.now seat.old }
        ensures idle { IsIdle self.now seat.new }
        ensures same { IsSameSeat seat.old seat.new }
        ensures visit { HasChanged IsVisit seat.old seat.new }
        ensures visited { IsVisited (memory_left seat.new) }
    {
        let mut held = self.turn.take(rt, seat);
        let _visited = visit(held.memory_mut());
        self.turn.give(seat, held);
    }
}
