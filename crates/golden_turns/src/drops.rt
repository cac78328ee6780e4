//! A map that goes and comes again while a program of its tenant names it, beside another tenant's map.

use crate::print;
use crate::tenants::{Tenant, two_tenants};
use host_types::{Fault, MapNo};
use ksm_counters::Counters;
use std::io;
use std::sync::Wait;
use tenant_runs::RunReply;
use tenant_workers::Open;
use tests_inputs::texts::COUNTER;
use verifier::Verified;

/// What is answered to a seat that drops its tenant's map 0.
#[derive(Debug, Drop)]
struct Gone {
    /// The first time and the second.
    drops: [Result<(), Fault>; 2],
    value: Result<(usize, usize), Fault>,
    /// Of a program that names the map.
    run: Result<RunReply, Fault>,
}

/// What is answered to a seat that makes a map, and runs a program that names map 0.
#[derive(Debug, Drop)]
struct Back {
    map: Result<MapNo, Fault>,
    run: Result<RunReply, Fault>,
}

/// What is answered to two tenants whose pages share a frame, of whom the first drops its map.
#[derive(Debug, Drop)]
pub(crate) struct Dropped {
    merged: Counters,
    gone: Gone,
    left: Counters,
    /// A map of another shape at its number.
    wider: Back,
    wider_gone: Gone,
    /// A map of the first one's shape.
    same: Back,
    /// How many bytes the first tenant's number has and the second's, and how many of them are zeros.
    values: [Result<(usize, usize), Fault>; 2],
    /// The second tenant's.
    run: Result<RunReply, Fault>,
    last: Counters,
}

/// Drops a map twice.
fn drop_map(rt: &impl Wait, tenant: &mut Tenant<'_>, program: &Verified) -> Gone {
    let first = tenant.drop_map(rt);
    let second = tenant.drop_map(rt);
    Gone {
        drops: [first, second],
        value: tenant.zeros(rt, 0, 0),
        run: tenant.run(rt, program, &Open),
    }
}

/// Makes a map of one element.
fn create_map(
    rt: &impl Wait,
    tenant: &mut Tenant<'_>,
    program: &Verified,
    value_size: u32,
) -> Back {
    Back {
        map: tenant.create_map(rt, (value_size, 1), true),
        run: tenant.run(rt, program, &Open),
    }
}

/// The answers in their order. The group of both pages keeps its frame when the first page goes, and the second
/// tenant's store then writes there in place.
fn answers(rt: &(impl Wait + AllocGlobal)) -> Result<Dropped, Fault> {
    let alloc = rt.alloc();
    let (shared, first, second, mut scanner, mut host) = two_tenants(alloc, 4)?;
    let mut first = Tenant::new(&shared, alloc, first);
    let mut second = Tenant::new(&shared, alloc, second);
    let program = first.load(rt, &COUNTER, 0)?;
    shared.scan_batch(rt, &mut scanner, 4);
    Ok(Dropped {
        merged: shared.counters(rt, &mut host),
        gone: drop_map(rt, &mut first, &program),
        left: shared.counters(rt, &mut host),
        wider: create_map(rt, &mut first, &program, 16),
        wider_gone: drop_map(rt, &mut first, &program),
        same: create_map(rt, &mut first, &program, 8),
        values: [first.zeros(rt, 0, 0), second.zeros(rt, 0, 0)],
        run: second.count(rt, &Open),
        last: shared.counters(rt, &mut host),
    })
}

pub(crate) fn print_row(rt: &(impl Print + Wait + AllocGlobal)) -> io::Result<()> {
    print(rt, "a map goes and comes again", answers(rt))
}
