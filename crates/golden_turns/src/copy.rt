//! The row of workers and the scanner: a run on merged pages that the host watches, and what the host, a tenant
//! and the scanner do then.

ghost use Rattle.std.specs.Prelude.{◌≡◌};
ghost use Rattle.turn.specs.Seats.{IsIdle};

use crate::gates::{Guest, Visited};
use crate::tenants::{Tenant, two_tenants};
use host_types::{Fault, Opt};
use ksm_counters::Counters;
use std::io;
use std::sync::Wait;
use tenant_runs::RunReply;
use tenant_workers::Shared;
use turn::HostSeat;

/// The slot of the counter's store, and the one after it.
const STORE: u32 = 11;

const AFTER_STORE: u32 = 12;

/// The host at a gate: the counters before the store and after it.
#[derive(Drop)]
struct Watching<'a> {
    shared: &'a Shared,
    seat: HostSeat,
    before: Option<Counters>,
    after: Option<Counters>,
    ghost idle: { IsIdle shared.now seat },
}

impl<'a> Watching<'a> {
    fn new(shared: &'a Shared, seat: HostSeat) -> Watching<'a>
        requires { IsIdle shared.now seat }
    {
        Watching {
            shared,
            seat,
            before: None,
            after: None,
        }
    }

    fn set(&mut self, rt: &impl Wait, option: Opt, value: u32) -> Result<(), Fault> {
        let shared = self.shared;
        shared.set(rt, &mut self.seat, option, value)
    }

    fn unmerge(&mut self, rt: &impl Wait) -> Result<(), Fault> {
        let shared = self.shared;
        shared.unmerge(rt, &mut self.seat)
    }

    fn look(&mut self, rt: &impl Wait) -> Counters {
        let shared = self.shared;
        shared.counters(rt, &mut self.seat)
    }
}

impl<'a> Guest for Watching<'a> {
    fn act<R: Wait>(&mut self, rt: &R, slot: u32) {
        match slot {
            STORE => self.before = Some(self.look(rt)),
            AFTER_STORE => self.after = Some(self.look(rt)),
            _ => {}
        }
    }
}

/// What is answered of the run, in whose middle the host looks at the counters, and of the calls after it.
#[derive(Drop)]
struct Row {
    merged: Counters,
    sets: [Result<(), Fault>; 4],
    watched: [Option<Counters>; 2],
    reply: Result<RunReply, Fault>,
    unmerged: (Result<(), Fault>, Counters),
    updated: (Result<(), Fault>, Counters),
    values: [Result<Vec<u8>, Fault>; 2],
    /// After visits of a scanner that is stopped, and of one that runs again.
    scanned: [Counters; 2],
}

fn watched_row(rt: &(impl Wait + AllocGlobal)) -> Result<Row, Fault> {
    let alloc = rt.alloc();
    let (shared, first, second, mut scanner, host) = two_tenants(alloc, 4)?;
    let mut first = Tenant::new(&shared, alloc, first);
    let mut second = Tenant::new(&shared, alloc, second);
    shared.scan_batch(rt, &mut scanner, 4);
    let mut watching = Watching::new(&shared, host);
    let merged = watching.look(rt);
    let shared_pages = watching.set(rt, Opt::MaxPageSharing, 3);
    let gate = Visited::by(watching);
    let reply = first.count(rt, &gate);
    let mut watching = gate.into_guest();
    let watched = [watching.before, watching.after];
    let unmerged = (watching.unmerge(rt), watching.look(rt));
    let five = second.update(rt, 0, 0, &[5, 0, 0, 0, 0, 0, 0, 0]);
    let updated = (five, watching.look(rt));
    let values = [first.read(rt, 0, 0), second.read(rt, 0, 0)];
    shared.scan_batch(rt, &mut scanner, 4);
    let stopped = watching.look(rt);
    let two = watching.set(rt, Opt::Run, 2);
    let more = watching.set(rt, Opt::MaxPageSharing, 3);
    let one = watching.set(rt, Opt::Run, 1);
    shared.scan_batch(rt, &mut scanner, 4);
    Ok(Row {
        merged,
        sets: [shared_pages, two, more, one],
        watched,
        reply,
        unmerged,
        updated,
        values,
        scanned: [stopped, watching.look(rt)],
    })
}

impl Row {
    /// Writes what is answered.
    fn print(&self, rt: &impl Print) -> io::Result<()> {
        println!(rt; "run_on_a_copy: four visits: {:?}", self.merged)?;
        println!(rt;
            "run_on_a_copy: before the store and after it: {:?}",
            self.watched
        )?;
        println!(rt; "run_on_a_copy: {:?}", self.reply)?;
        println!(rt; "run_on_a_copy: unmerged: {:?}", self.unmerged)?;
        println!(rt; "run_on_a_copy: updated: {:?}", self.updated)?;
        println!(rt; "run_on_a_copy: values: {:?}", self.values)?;
        println!(rt;
            "run_on_a_copy: four visits when the scanner is stopped, and four when it runs: {:?}",
            self.scanned
        )?;
        println!(rt; "run_on_a_copy: sets: {:?}", self.sets)
    }
}

/// Writes the row. A run on a copy of the maps, written back at its end, fulfils its contract, as does a scanner
/// that visits nothing: this row rules them out.
pub(crate) fn print_row(rt: &(impl Print + Wait + AllocGlobal)) -> io::Result<()> {
    match watched_row(rt) {
        Ok(row) => row.print(rt),
        Err(fault) => println!(rt; "run_on_a_copy: {fault}"),
    }
}
