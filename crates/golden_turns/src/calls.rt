//! Calls that may answer `OutOfMemory`. A body that always does fulfils its contract, as memory may run out.

use crate::print;
use crate::tenants::{Tenant, two_tenants};
use host_types::{Fault, MapNo};
use ksm_counters::Counters;
use std::io;
use std::sync::Wait;
use tenant_runs::RunReply;
use tenant_workers::Open;
use tests_inputs::texts::COUNTER;

/// Where the counter's slot 3 names its map.
const MAP_NUMBER: usize = 28;

/// What is answered to calls of a seat whose tenant has one map, on frames enough.
#[derive(Debug, Drop)]
pub(crate) struct Made {
    run: Result<RunReply, Fault>,
    /// Two shapes out of the limits, two maps, and one more than there are frames for.
    maps: [Result<MapNo, Fault>; 5],
    /// Slots, instructions and reserve of the counter, of itself on another map, and of texts that aren't accepted.
    programs: [Result<[u32; 3], Fault>; 5],
    updates: [Result<(), Fault>; 4],
    /// How many bytes values have, and how many of them are zeros.
    values: [Result<(usize, usize), Fault>; 3],
}

/// The slots, the instructions and the reserve of a program that a tenant loads.
fn loaded(
    rt: &impl Wait,
    tenant: &mut Tenant<'_>,
    text: &[u8],
    size: u32,
) -> Result<[u32; 3], Fault> {
    let program = tenant.load(rt, text, size)?;
    Ok([program.slots(), program.instructions(), program.reserve(0)])
}

/// What loads of the counter are answered: as it is, on its tenant's last map, on a map that isn't there, on a context
/// of another size, and of no text.
fn counters_loaded(rt: &impl Wait, tenant: &mut Tenant<'_>) -> [Result<[u32; 3], Fault>; 5] {
    let mut last_map = COUNTER;
    last_map[MAP_NUMBER] = 2;
    let mut no_map = COUNTER;
    no_map[MAP_NUMBER] = 3;
    [
        loaded(rt, tenant, &COUNTER, 0),
        loaded(rt, tenant, &last_map, 8),
        loaded(rt, tenant, &no_map, 8),
        loaded(rt, tenant, &COUNTER, 12),
        loaded(rt, tenant, &[], 256),
    ]
}

/// What the first of two tenants is answered.
fn answers(rt: &(impl Wait + AllocGlobal)) -> Result<Made, Fault> {
    let alloc = rt.alloc();
    let (shared, first, _second, _scanner, _host) = two_tenants(alloc, 7)?;
    let mut tenant = Tenant::new(&shared, alloc, first);
    let run = tenant.count(rt, &Open);
    let maps = [
        tenant.create_map(rt, (0, 1), true),
        tenant.create_map(rt, (4097, 1), true),
        tenant.create_map(rt, (24, 200), true),
        tenant.create_map(rt, (8, 1), true),
        tenant.create_map(rt, (8, 513), true),
    ];
    let programs = counters_loaded(rt, &mut tenant);
    let updates = [
        tenant.update(rt, 0, 0, &[5, 0, 0, 0, 0, 0, 0, 9]),
        tenant.update(rt, 3, 0, &[5; 8]),
        tenant.update(rt, 0, 1, &[5; 8]),
        tenant.update(rt, 0, 0, &[5; 7]),
    ];
    let values = [
        tenant.zeros(rt, 0, 0),
        tenant.zeros(rt, 1, 199),
        tenant.zeros(rt, 1, 200),
    ];
    Ok(Made {
        run,
        maps,
        programs,
        updates,
        values,
    })
}

/// Makes maps, each third of which may be merged, until there is a refusal: how many, and the refusal.
fn made_until_refused(rt: &impl Wait, mut tenant: Tenant<'_>) -> (u32, Option<Fault>) {
    for made in 0..20 {
        if let Err(fault) = tenant.create_map(rt, (8, 1), made % 3 == 0) {
            return (made, Some(fault));
        }
    }
    (20, None)
}

/// How many maps each of two tenants makes beside its first one and why no more, and the counters after visits
/// of all pages. Of each tenant's eight pages of zeros the first one and three of the others may be merged: these
/// eight have one frame, and the other eight their own. One stays for the page of zeros: seven of seventeen are left.
fn filled(rt: &(impl Wait + AllocGlobal)) -> Result<([(u32, Option<Fault>); 2], Counters), Fault> {
    let alloc = rt.alloc();
    let (shared, first, second, mut scanner, mut host) = two_tenants(alloc, 17)?;
    let maps = [
        made_until_refused(rt, Tenant::new(&shared, alloc, first)),
        made_until_refused(rt, Tenant::new(&shared, alloc, second)),
    ];
    shared.scan_batch(rt, &mut scanner, 40);
    Ok((maps, shared.counters(rt, &mut host)))
}

pub(crate) fn print_rows(rt: &(impl Print + Wait + AllocGlobal)) -> io::Result<()> {
    print(rt, "always_out_of_memory", answers(rt))?;
    print(rt, "maps of a seat", filled(rt))
}
