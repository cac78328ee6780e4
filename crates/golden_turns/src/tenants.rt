//! Tenants whose numbers may share a frame.

ghost use Rattle.std.specs.Prelude.{◌≡◌, IfOk};
ghost use Rattle.turn.specs.Seats.{IsIdle, own_part};
ghost use Rattle.tenant_workers.specs.Runs.{IsResting};

use crate::numbers::with_numbers;
use host_types::{Fault, MapNo, Options};
use std::alloc::Global;
use std::sync::Wait;
use tenant_runs::RunReply;
use tenant_workers::{Gate, Shared};
use tests_inputs::texts::COUNTER;
use turn::{HostSeat, ScanSeat, Seat, Turn};
use verifier::Verified;

/// What two tenants on so many frames share, two of which their numbers have, and the seats, all at rest: each tenant's,
/// the scanner's and the host's.
#[tactic(auto, using(tenant_workers::proofs::Resting::new_resting))]
pub(crate) fn two_tenants(
    alloc: Global,
    frames: u32,
) -> Result<(Shared, Seat, Seat, ScanSeat, HostSeat), Fault>
    ensures first { IfOk result (λ lent. IsIdle lent.0 lent.1) }
    ensures second { IfOk result (λ lent. IsIdle lent.0 lent.2) }
    ensures scanner { IfOk result (λ lent. IsIdle lent.0 lent.3) }
    ensures host { IfOk result (λ lent. IsIdle lent.0 lent.4) }
    ensures first_rests { IfOk result (λ lent. IsResting (own_part lent.1)) }
    ensures second_rests { IfOk result (λ lent. IsResting (own_part lent.2)) }
{
    let memory = with_numbers(alloc, frames, 2, Options::standard())?;
    let (turn, mut seats, scanner, host) = Turn::new(alloc, memory, 2)?;
    let second = seats.remove(1);
    let first = seats.remove(0);
    Ok((Shared::new(turn), first, second, scanner, host))
}

/// A tenant of what is shared. Between its calls its seat is at rest.
#[derive(Drop)]
pub(crate) struct Tenant<'a> {
    shared: &'a Shared,
    alloc: Global,
    seat: Seat,
    ghost idle: { IsIdle shared.now seat },
    ghost resting: { IsResting (own_part seat) },
}

impl<'a> Tenant<'a> {
    pub(crate) fn new(shared: &'a Shared, alloc: Global, seat: Seat) -> Self
        requires idle { IsIdle shared.now seat }
        requires resting { IsResting (own_part seat) }
    {
        Tenant {
            shared,
            alloc,
            seat,
        }
    }

    /// A program for a context of a size.
    pub(crate) fn load(
        &mut self,
        rt: &impl Wait,
        text: &[u8],
        size: u32,
    ) -> Result<Verified, Fault> {
        let shared = self.shared;
        shared.load_program(rt, self.alloc, &mut self.seat, text, size)
    }

    /// What a run of a program on no context answers, with a gate.
    pub(crate) fn run(
        &mut self,
        rt: &impl Wait,
        program: &Verified,
        gate: &impl Gate,
    ) -> Result<RunReply, Fault> {
        let shared = self.shared;
        shared.run_program(rt, self.alloc, &mut self.seat, program, &[], gate)
    }

    /// What a run of a text on no context answers, with a gate.
    pub(crate) fn run_text(
        &mut self,
        rt: &impl Wait,
        text: &[u8],
        gate: &impl Gate,
    ) -> Result<RunReply, Fault> {
        let program = self.load(rt, text, 0)?;
        self.run(rt, &program, gate)
    }

    /// What a run of the counter answers, with a gate.
    pub(crate) fn count(&mut self, rt: &impl Wait, gate: &impl Gate) -> Result<RunReply, Fault> {
        self.run_text(rt, &COUNTER, gate)
    }

    /// A new map, whose pages may be merged or not.
    pub(crate) fn create_map(
        &mut self,
        rt: &impl Wait,
        shape: (u32, u32),
        mergeable: bool,
    ) -> Result<MapNo, Fault> {
        let shared = self.shared;
        shared.create_map(rt, &mut self.seat, shape.0, shape.1, mergeable)
    }

    /// Drops map 0.
    pub(crate) fn drop_map(&mut self, rt: &impl Wait) -> Result<(), Fault> {
        let shared = self.shared;
        shared.drop_map(rt, &mut self.seat, 0)
    }

    /// Writes an element of a map.
    pub(crate) fn update(
        &mut self,
        rt: &impl Wait,
        map: MapNo,
        key: u32,
        value: &[u8],
    ) -> Result<(), Fault> {
        let shared = self.shared;
        shared.update(rt, &mut self.seat, map, key, value)
    }

    /// The bytes of an element of a map.
    pub(crate) fn read(&mut self, rt: &impl Wait, map: MapNo, key: u32) -> Result<Vec<u8>, Fault> {
        let shared = self.shared;
        shared.read(rt, self.alloc, &mut self.seat, map, key)
    }

    /// How many bytes an element of a map has, and how many of them are zeros.
    pub(crate) fn zeros(
        &mut self,
        rt: &impl Wait,
        map: MapNo,
        key: u32,
    ) -> Result<(usize, usize), Fault> {
        let value = self.read(rt, map, key)?;
        let zeros = value.iter().filter(|byte| **byte == 0).count();
        Ok((value.len(), zeros))
    }
}
