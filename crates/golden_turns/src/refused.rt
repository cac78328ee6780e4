//! Calls for which frames are missing. That they are refused needlessly, and with which numbers, a seat can't know.

ghost use Rattle.std.specs.Prelude.{◌≡◌, IfOk};
ghost use Rattle.turn.specs.Seats.{IsIdle, own_part};
ghost use Rattle.tenant_workers.specs.Runs.{IsResting};

use crate::numbers::with_numbers;
use crate::print;
use crate::tenants::{Tenant, two_tenants};
use host_types::{Fault, MapNo, Options};
use std::alloc::Global;
use std::io;
use std::sync::Wait;
use tenant_runs::RunReply;
use tenant_workers::{Open, Shared};
use tests_inputs::texts::RETURN;
use turn::{Seat, Turn};

/// What is answered where each frame has a page of its own, and when two of them are merged.
#[derive(Debug, Drop)]
pub(crate) struct Crowded {
    update: Result<(), Fault>,
    run: Result<RunReply, Fault>,
    maps: [Result<MapNo, Fault>; 2],
    unmerged: Result<(), Fault>,
}

/// What the first of two tenants is answered, and the host at last, whose frame a new map has.
fn answers(rt: &(impl Wait + AllocGlobal)) -> Result<Crowded, Fault> {
    let alloc = rt.alloc();
    let (shared, first, _second, mut scanner, mut host) = two_tenants(alloc, 3)?;
    let mut tenant = Tenant::new(&shared, alloc, first);
    let update = tenant.update(rt, 0, 0, &[5; 8]);
    let run = tenant.count(rt, &Open);
    let map = tenant.create_map(rt, (8, 513), true);
    shared.scan_batch(rt, &mut scanner, 4);
    Ok(Crowded {
        update,
        run,
        maps: [map, tenant.create_map(rt, (8, 1), true)],
        unmerged: shared.unmerge(rt, &mut host),
    })
}

/// Three tenants of the same number on the frames that their pages take, and their seats, all at rest.
#[tactic(auto, using(tenant_workers::proofs::Resting::new_resting))]
fn lend_to_three(alloc: Global) -> Result<(Shared, Seat, Seat, Seat), Fault>
    ensures first { IfOk result (λ lent. IsIdle lent.0 lent.1) }
    ensures second { IfOk result (λ lent. IsIdle lent.0 lent.2) }
    ensures third { IfOk result (λ lent. IsIdle lent.0 lent.3) }
    ensures first_rests { IfOk result (λ lent. IsResting (own_part lent.1)) }
    ensures second_rests { IfOk result (λ lent. IsResting (own_part lent.2)) }
    ensures third_rests { IfOk result (λ lent. IsResting (own_part lent.3)) }
{
    let memory = with_numbers(alloc, 4, 3, Options::standard())?;
    let (turn, mut seats, _scanner, _host) = Turn::new(alloc, memory, 3)?;
    let third = seats.remove(2);
    let second = seats.remove(1);
    let first = seats.remove(0);
    Ok((Shared::new(turn), first, second, third))
}

/// What runs of three tenants answer whose pages have all frames: the counter's of each, and one of the first
/// that needs no frame.
fn three_answers(rt: &(impl Wait + AllocGlobal)) -> Result<[Result<RunReply, Fault>; 4], Fault> {
    let alloc = rt.alloc();
    let (shared, first, second, third) = lend_to_three(alloc)?;
    let mut first = Tenant::new(&shared, alloc, first);
    let mut second = Tenant::new(&shared, alloc, second);
    let mut third = Tenant::new(&shared, alloc, third);
    Ok([
        first.count(rt, &Open),
        second.count(rt, &Open),
        third.count(rt, &Open),
        first.run_text(rt, &RETURN, &Open),
    ])
}

pub(crate) fn print_rows(rt: &(impl Print + Wait + AllocGlobal)) -> io::Result<()> {
    print(rt, "no frame is free", answers(rt))?;
    print(rt, "no frame is free for three counters", three_answers(rt))
}
