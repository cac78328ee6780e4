//! The memory beside the plain program of pages that share frames, over operations that a fixed generator draws: new
//! maps and dropped ones, stores, begins and ends of runs, visits, options and unmergings. After each one both have to
//! give the same, the counters, the runs and what they pinned too, and all bytes are those of a plain copy.

ghost use Rattle.std.specs.Prelude.{◌<◌, ◌≤◌};

use crate::both::{Both, MAPS, TENANTS};
use host_types::Options;
use std::alloc::{AllocError, Global};
use std::io;
use tests_inputs::Draws;

/// How many operations are drawn for each number of frames.
const OPERATIONS: u32 = 10_000;

/// Draws a map and makes it, by a tenant that may not be there: of one short value, or of some pages.
fn map(alloc: Global, both: &mut Both, draws: &mut Draws, pages: u32) -> Result<bool, AllocError>
    requires { 0 < pages }
{
    let tenant = draws.below(TENANTS + 1);
    let mergeable = draws.below(8) > 0;
    let (value_size, entries) = match draws.below(4) {
        0 => (8, 1),
        _ => (4096, draws.below(pages) + 1),
    };
    both.create_map(alloc, tenant, value_size, entries, mergeable)
}

/// Draws a map, which may not be there, and drops it.
fn drop_map(both: &mut Both, draws: &mut Draws) -> bool {
    let tenant = draws.below(TENANTS + 1);
    let map = draws.below(MAPS);
    both.drop_map(tenant, map)
}

/// Draws a store to the first or the last bytes of a page, or over the end of it.
fn store(both: &mut Both, draws: &mut Draws, pages: u32) -> bool
    requires some { 0 < pages }
    requires few { pages ≤ 256 }
{
    let tenant = draws.below(TENANTS);
    let map = draws.below(MAPS);
    let first = draws.below(pages) * 4096;
    let byte = draws.below(2) as u8;
    match draws.below(3) {
        0 => both.store_number(tenant, map, first, byte),
        1 => both.store_number(tenant, map, first + 4088, byte),
        _ => both.store(tenant, map, first + 4092, &[byte; 8]),
    }
}

/// Draws a tenant, and begins a run of it or ends it.
fn run(both: &mut Both, draws: &mut Draws) {
    let tenant = draws.below(TENANTS + 1);
    let reserve = draws.below(4);
    if draws.below(3) > 0 {
        both.begin(tenant, reserve);
    } else {
        both.end(tenant);
    }
}

/// Draws an option and a value, and sets it.
fn set(both: &mut Both, draws: &mut Draws) -> bool {
    let (option, value) = draws.option();
    both.set(option, value)
}

/// Draws an operation and does it to both. It answers whether both answered the same.
fn operate(
    alloc: Global,
    both: &mut Both,
    draws: &mut Draws,
    pages: u32,
) -> Result<bool, AllocError>
    requires some { 0 < pages }
    requires few { pages ≤ 256 }
{
    match draws.below(64) {
        0 => Ok(both.unmerge()),
        1..=10 => map(alloc, both, draws, pages),
        11..=18 => Ok(drop_map(both, draws)),
        19..=23 => Ok(set(both, draws)),
        24..=31 => Ok(store(both, draws, pages)),
        32..=35 => {
            run(both, draws);
            Ok(true)
        }
        _ => Ok(both.visit(alloc)?.1),
    }
}

/// Whether an operation that is drawn gives the same, and leaves both alike.
fn agrees(alloc: Global, both: &mut Both, draws: &mut Draws, pages: u32) -> Result<bool, AllocError>
    requires some { 0 < pages }
    requires few { pages ≤ 256 }
{
    let is_reported = operate(alloc, both, draws, pages)?;
    Ok(is_reported && both.agree(alloc)? && both.bytes_agree())
}

/// The number of the first operation after which both don't give the same.
fn first_of(
    alloc: Global,
    both: &mut Both,
    draws: &mut Draws,
    pages: u32,
) -> Result<Option<u32>, AllocError>
    requires some { 0 < pages }
    requires few { pages ≤ 256 }
{
    for number in 0..OPERATIONS {
        if !agrees(alloc, both, draws, pages)? {
            return Ok(Some(number));
        }
    }
    Ok(None)
}

/// The number of the first operation on so many frames after which both don't give the same.
fn first_wrong(alloc: Global, frames: u32) -> Result<Option<u32>, AllocError> {
    let pages = frames / 8 % 128 + 2;
    let mut draws = Draws::new(u64::from(frames));
    match Both::new(alloc, frames, Options::standard())? {
        Some(mut both) => first_of(alloc, &mut both, &mut draws, pages),
        None => Ok(Some(0)),
    }
}

/// Prints the row of so many frames.
pub(crate) fn print_frames(rt: &(impl AllocGlobal + Print), frames: u32) -> io::Result<()> {
    match first_wrong(rt.alloc(), frames) {
        Ok(None) => println!(rt; "{frames} frames: {OPERATIONS} operations agree"),
        Ok(Some(number)) => println!(rt; "{frames} frames: operation {number} differs"),
        Err(AllocError) => println!(rt; "{frames} frames: no memory"),
    }
}
