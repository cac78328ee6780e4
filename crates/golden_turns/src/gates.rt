//! Gates at which others have turns of their own between the instructions of a run. That what they do stands between
//! those instructions, no contract says.

ghost use Rattle.std.specs.Prelude.{◌≡◌};
ghost use Rattle.turn.specs.Seats.{IsIdle};

use crate::print;
use crate::tenants::{Tenant, two_tenants};
use host_types::Fault;
use std::io;
use std::sync::{Mutex, Wait};
use tenant_runs::RunReply;
use tenant_workers::{Gate, Open, Shared};
use tests_inputs::texts::COUNTER;
use turn::ScanSeat;
use verifier::Verified;

/// Somebody who has turns of its own at a gate.
pub(crate) trait Guest {
    fn act<R: Wait>(&mut self, rt: &R, slot: u32);
}

/// A gate at which somebody has turns of its own.
#[derive(Drop)]
pub(crate) struct Visited<G: Drop> {
    guest: Mutex<G>,
}

impl<G: Drop> Visited<G> {
    pub(crate) fn by(guest: G) -> Self {
        Visited {
            guest: Mutex::new(guest),
        }
    }

    pub(crate) fn into_guest(self) -> G {
        self.guest.into_inner()
    }
}

impl<G: Guest + Drop> Gate for Visited<G> {
    fn at<R: Wait>(&self, rt: &R, _tenant: u32, slot: u32) {
        self.guest.lock(rt).act(rt, slot);
    }
}

/// The scanner, which visits two pages.
#[derive(Drop)]
struct Scanning<'a> {
    shared: &'a Shared,
    seat: ScanSeat,
    ghost idle: { IsIdle shared.now seat },
}

impl<'a> Guest for Scanning<'a> {
    fn act<R: Wait>(&mut self, rt: &R, _slot: u32) {
        let shared = self.shared;
        shared.scan_batch(rt, &mut self.seat, 2);
    }
}

/// What two runs answer, and their tenants' values.
#[derive(Debug, Drop)]
pub(crate) struct Runs {
    replies: [Result<RunReply, Fault>; 2],
    values: [Result<Vec<u8>, Fault>; 2],
}

/// One tenant's run after the other's, with two visits before each instruction. A run that held the turn to its end
/// would wait for ever for its gate, which takes turns to scan.
fn runs_scanned(rt: &(impl Wait + AllocGlobal)) -> Result<Runs, Fault> {
    let alloc = rt.alloc();
    let (shared, first, second, scanner, _host) = two_tenants(alloc, 8)?;
    let mut first = Tenant::new(&shared, alloc, first);
    let mut second = Tenant::new(&shared, alloc, second);
    let gate = Visited::by(Scanning {
        shared: &shared,
        seat: scanner,
    });
    let replies = [first.count(rt, &gate), second.count(rt, &gate)];
    let values = [first.read(rt, 0, 0), second.read(rt, 0, 0)];
    Ok(Runs { replies, values })
}

/// Another tenant, which runs its program.
#[derive(Drop)]
struct Other<'a> {
    tenant: Tenant<'a>,
    program: Verified,
    last: Result<RunReply, Fault>,
}

impl<'a> Guest for Other<'a> {
    fn act<R: Wait>(&mut self, rt: &R, _slot: u32) {
        self.last = self.tenant.run(rt, &self.program, &Open);
    }
}

/// What the first tenant's run answers, and the last of the second's, which runs before each instruction.
fn run_overtaken(rt: &(impl Wait + AllocGlobal)) -> Result<[Result<RunReply, Fault>; 2], Fault> {
    let alloc = rt.alloc();
    let (shared, first, second, _scanner, _host) = two_tenants(alloc, 8)?;
    let mut first = Tenant::new(&shared, alloc, first);
    let mut second = Tenant::new(&shared, alloc, second);
    let program = second.load(rt, &COUNTER, 0)?;
    let gate = Visited::by(Other {
        tenant: second,
        program,
        last: Err(Fault::NoRun),
    });
    let reply = first.count(rt, &gate);
    Ok([reply, gate.into_guest().last])
}

pub(crate) fn print_rows(rt: &(impl Print + Wait + AllocGlobal)) -> io::Result<()> {
    print(rt, "turn_held_through_run", runs_scanned(rt))?;
    print(rt, "a gate runs another tenant", run_overtaken(rt))
}
