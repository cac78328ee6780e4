//! Runs of a program, on the memory and on the plain machine.

ghost use Rattle.verifier.specs.Subject.{IsContextSize};

use crate::fixture::{Fixture, Maps, put_all};
use crate::pages::{has_maps, memory_of};
use crate::row::Row;
use admission::release;
use bpf_decode::decode;
use golden_compared::verdicts_agree;
use host_types::rule::CUT_WIDE;
use host_types::{Fault, Refused};
use page_table::Memory;
use reference_machine::{ArrayMap, Ending, Machine};
use std::alloc::Global;
use tenant_runs::{RunReply, run};
use tests_inputs::Pages;
use verifier::{Verified, is_context_size, verify};

/// As many steps as a program has instructions at most.
const STEPS: u32 = 4096;

/// The tenant that runs a program; the other one does nothing.
const RUNNING: u32 = 0;

/// The tenant that does nothing.
const RESTING: u32 = 1;

/// Where the pages lie when a program is run.
const PAGE_INDICES: [Pages; 3] = [Pages::Own, Pages::Merged, Pages::Zero];

/// How a program goes.
#[derive(Clone, Copy, PartialEq, Eq)]
pub(crate) enum Outcome {
    Returned { number: u64, steps: u32 },
    /// The decoder or the verifier refused it.
    Refused(Refused),
}

/// The size of a row's context; one that no context has is 0.
fn context_size(fixture: &Fixture) -> u32
    ensures { IsContextSize result }
{
    match u32::try_from(fixture.context().len()) {
        Ok(size) if is_context_size(size) => size,
        _ => 0,
    }
}

/// A text as `verify` verifies it.
fn verdict(alloc: Global, fixture: &Fixture, text: &[u8]) -> Result<Verified, Refused> {
    let program = decode(alloc, text)?;
    verify(alloc, program, fixture.shapes(), context_size(fixture))
}

/// Whether both passes of the plain verifier say of a text what `verify` said. What the decoder refuses
/// they don't verify.
fn is_verdict_alike(
    alloc: Global,
    fixture: &Fixture,
    text: &[u8],
    verified: &Result<Verified, Refused>,
) -> bool {
    if let Err(refused) = verified {
        if refused.number <= CUT_WIDE {
            return true;
        }
    }
    verdicts_agree(
        alloc,
        text,
        fixture.shapes(),
        context_size(fixture),
        verified,
    )
}

/// How a text goes on the plain machine, with the machine as the run left it. `None` if it doesn't end.
fn on_the_plain_machine(
    alloc: Global,
    fixture: &Fixture,
    text: &[u8],
) -> Option<(RunReply, Machine)> {
    if text.len() % 8 != 0 {
        return None;
    }
    let mut machine = fixture.machine(alloc)?;
    match machine.run(text, STEPS) {
        Ending::Exited { number, steps } => Some((RunReply { ret: number, steps }, machine)),
        _ => None,
    }
}

/// Runs a program on the memory.
fn ran(
    alloc: Global,
    memory: &mut Memory,
    program: &Verified,
    context: &[u8],
) -> Result<RunReply, Fault> {
    memory.maps_are_flat();
    if memory.tenants() <= RUNNING {
        return Err(Fault::BadTenant);
    }
    release(memory, RUNNING);
    run(alloc, memory, RUNNING, program, context)
}

/// Whether a run on a memory answers this, leaves its tenant these maps, and the other one the first.
fn ends_as(
    alloc: Global,
    mut memory: Memory,
    program: &Verified,
    context: &[u8],
    reply: RunReply,
    maps: [&[Option<ArrayMap>]; 2],
) -> bool {
    let answered = ran(alloc, &mut memory, program, context);
    answered == Ok(reply)
        && has_maps(&memory, RUNNING, maps[0])
        && has_maps(&memory, RESTING, maps[1])
}

/// Whether a program that is accepted goes on own, merged and zero pages as on the reference machine, and within
/// its instructions. It answers how it goes, and the maps that it leaves.
fn gone(
    alloc: Global,
    fixture: &Fixture,
    text: &[u8],
    program: &Verified,
) -> Option<(RunReply, Machine)> {
    let (reply, machine) = on_the_plain_machine(alloc, fixture, text)?;
    let first = fixture.maps(alloc)?;
    let maps = [machine.maps(), first.as_slice()];
    if reply.steps > program.instructions() {
        return None;
    }
    for pages in PAGE_INDICES {
        let memory = memory_of(alloc, fixture, first.as_slice(), pages)?;
        if !ends_as(alloc, memory, program, fixture.context(), reply, maps) {
            return None;
        }
    }
    Some((reply, machine))
}

/// Whether a text is refused, or goes as on the plain machine.
pub(crate) fn is_refused_or_agrees(alloc: Global, fixture: &Fixture, text: &[u8]) -> bool {
    match verdict(alloc, fixture, text) {
        Ok(program) => gone(alloc, fixture, text, &program).is_some(),
        Err(refused) => refused != Refused::OUT_OF_MEMORY,
    }
}

/// What is found of a text, by the program and by the reference verifier and the reference machine.
pub(crate) enum Found {
    RefusedByDecoder,
    /// The reference verifier refuses it alike.
    RefusedByVerifier,
    /// The reference verifier knows the same of it, and it goes as on the reference machine.
    Ran,
    Differs,
}

/// What is found of a text.
pub(crate) fn found_of(alloc: Global, fixture: &Fixture, text: &[u8]) -> Found {
    let verified = verdict(alloc, fixture, text);
    if !is_verdict_alike(alloc, fixture, text, &verified) {
        return Found::Differs;
    }
    match verified {
        Ok(program) if gone(alloc, fixture, text, &program).is_some() => Found::Ran,
        Err(refused) if refused.number <= CUT_WIDE => Found::RefusedByDecoder,
        Err(refused) if refused != Refused::OUT_OF_MEMORY => Found::RefusedByVerifier,
        _ => Found::Differs,
    }
}

/// Whether both have the same maps.
fn are_same(maps: &[Option<ArrayMap>], others: &[Option<ArrayMap>]) -> bool {
    maps.len() == others.len()
        && maps.iter().zip(others.iter()).all(|(map, other)| match (map, other) {
            (Some(map), Some(other)) => map.bytes() == other.bytes(),
            _ => false,
        })
}

/// Whether the maps that a row wants are these.
fn are_wanted(alloc: Global, row: &Row, maps: &[Option<ArrayMap>]) -> bool {
    match row.fixture.maps(alloc) {
        Some(wanted) => are_put(wanted, row, maps),
        None => false,
    }
}

/// Whether the first maps of a row are these where the values that are wanted afterwards stand in them.
fn are_put(mut wanted: Maps, row: &Row, maps: &[Option<ArrayMap>]) -> bool {
    put_all(wanted.as_mut_slice(), row.after.as_slice()) && are_same(wanted.as_slice(), maps)
}

/// Whether a program that is accepted answers this, and leaves the maps that its row wants.
fn goes_as(alloc: Global, row: &Row, program: &Verified, wanted: RunReply) -> bool {
    match gone(alloc, &row.fixture, row.text.as_slice(), program) {
        Some((reply, machine)) => reply == wanted && are_wanted(alloc, row, machine.maps()),
        None => false,
    }
}

/// Whether a program that was verified goes as its row says.
fn is_as(alloc: Global, row: &Row, verified: &Result<Verified, Refused>) -> bool {
    match (verified, row.wanted) {
        (Ok(program), Outcome::Returned { number, steps }) => {
            goes_as(alloc, row, program, RunReply { ret: number, steps })
        }
        (Err(refused), Outcome::Refused(wanted)) => *refused == wanted,
        _ => false,
    }
}

/// Whether a program goes as its row says, and the reference verifier says the same of it.
pub(crate) fn agrees(alloc: Global, row: &Row) -> bool {
    let text = row.text.as_slice();
    let verified = verdict(alloc, &row.fixture, text);
    is_as(alloc, row, &verified) && is_verdict_alike(alloc, &row.fixture, text, &verified)
}
