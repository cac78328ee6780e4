//! The plain program's passes up to the largest number, to which no number of visits would get.

use host_types::Options;
use reference_sharing::PlainSharing;
use std::alloc::{AllocError, Global};
use std::io;

/// How many passes are counted after each of two visits of the only page, from one before the largest
/// number on: each visit ends a pass.
fn passes_of(alloc: Global, plain: &mut PlainSharing) -> Result<[u64; 2], AllocError> {
    plain.add(0, true);
    plain.count_from(u64::MAX - 1);
    plain.visit(alloc, &[])?;
    let first = plain.full_scans();
    plain.visit(alloc, &[])?;
    Ok([first, plain.full_scans()])
}

/// How many passes are counted where the plain program has one page.
fn passes_at_their_end(alloc: Global) -> Result<[u64; 2], AllocError> {
    let mut plain = PlainSharing::new(alloc, 1, Options::standard())?;
    passes_of(alloc, &mut plain)
}

/// Prints the row of the passes.
pub(crate) fn print_passes(rt: &(impl AllocGlobal + Print)) -> io::Result<()> {
    match passes_at_their_end(rt.alloc()) {
        Ok(passes) => println!(rt; "passes: {passes:?}"),
        Err(AllocError) => println!(rt; "passes: no memory"),
    }
}
