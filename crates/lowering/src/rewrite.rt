ghost use Rattle.std.specs.Prelude.{◌≡◌, ◌<◌, ◌⊎◌, ◌↔◌, ℕ, length, slice_index, IfOk, IfErr, IsTrue};
ghost use Rattle.bpf_decode.specs.Text.{out_of_memory};
ghost use Rattle.verifier.specs.Subject.{IsContextSize};
ghost use Rattle.verifier.specs.Verified.{AreShapes};
ghost use Rattle.loop_copies.specs.declared.stop.Stop.TheVariants.{OutOfMemory};
ghost use Rattle.lowering.specs.Covering.{IsShorterCovering};
ghost use Rattle.lowering.specs.Laws.{EndAlike, KeepsFaultless};
ghost use Rattle.lowering.specs.Lowering.{subject_with, VerifierAccepts, IsRefusedBy, IsLeftAsItIs, IsLowered};

use crate::accept::accept;
use crate::cover::shortens;
use bpf_decode::{Program, decode};
use host_types::{Refused, Shape};
use loop_copies::{Keeping, Parts, Shorter, Stop};
use std::alloc::{AllocError, Global};

/// A lowered text, and for each of its slots the slot of the text for which it stands.
#[derive(Drop)]
pub struct Lowered {
    pub text: Vec<u8>,
    pub origins: Vec<u16>,
}

/// Why a text isn't lowered: its own refusal, and what stopped the lowering.
#[derive(Clone, Copy, PartialEq, Eq)]
pub struct NotLowered {
    pub refused: Refused,
    pub stop: Stop,
}

/// A text with the same runs that the verifier accepts, for maps of these shapes and a context of so many bytes. A
/// text that is accepted stays as it is. Of another one the blocks that may be reached are put into an order in which
/// only loops lead back, and loops are copied as often as something flows back to them, up to 4096 slots.
pub fn lower(
    alloc: Global,
    text: &[u8],
    shapes: &[Option<Shape>],
    context_size: u32,
) -> Result<Lowered, NotLowered>
    requires shapes { AreShapes shapes.now }
    requires context { IsContextSize context_size }
    ensures lowered { IfOk result (λ lowered. IsLowered text.now lowered.text.items lowered.origins.items) }
    ensures runs { IfOk result (λ lowered. EndAlike text.now lowered.text.items) }
    ensures faults { IfOk result (λ lowered. KeepsFaultless text.now lowered.text.items) }
    ensures accepted { IfOk result (λ lowered. VerifierAccepts (subject_with lowered.text.items shapes.now context_size)) }
    ensures unchanged { VerifierAccepts (subject_with text.now shapes.now context_size)
        → IfOk result (λ lowered. IsLeftAsItIs text.now lowered.text.items lowered.origins.items) }
    ensures refused { IfErr result (λ stopped. (stopped.stop ≡ OutOfMemory)
        ⊎ IsRefusedBy (subject_with text.now shapes.now context_size) stopped.refused) }
{
    let refused = match accept(alloc, text, shapes, context_size) {
        Ok(verified) => return left_as_it_is(alloc, text, verified.program()),
        Err(refused) => refused,
    };
    if is_for_memory(refused) {
        return Err(NotLowered {
            refused,
            stop: Stop::OutOfMemory,
        });
    }
    match rewritten(alloc, text, shapes, context_size) {
        Ok(lowered) => Ok(lowered),
        Err(stop) => Err(NotLowered { refused, stop }),
    }
}

/// Whether a refusal is the one for want of memory.
fn is_for_memory(refused: Refused) -> bool
    ensures { IsTrue result ↔ refused ≡ out_of_memory }
{
    refused == Refused::OUT_OF_MEMORY
}

/// An accepted text as it is.
fn left_as_it_is(alloc: Global, text: &[u8], program: &Program) -> Result<Lowered, NotLowered>
    requires { program.now ≡ text.now }
    ensures unchanged { IfOk result (λ lowered. IsLeftAsItIs text.now lowered.text.items lowered.origins.items) }
    ensures refused { IfErr result (λ stopped. stopped.stop ≡ OutOfMemory) }
{
    match unchanged(alloc, text, program) {
        Ok(lowered) => Ok(lowered),
        Err(_) => Err(NotLowered {
            refused: Refused::OUT_OF_MEMORY,
            stop: Stop::OutOfMemory,
        }),
    }
}

/// A copy of a text, of which each slot stands for itself.
fn unchanged(alloc: Global, text: &[u8], program: &Program) -> Result<Lowered, AllocError>
    requires { program.now ≡ text.now }
    ensures { IfOk result (λ lowered. IsLeftAsItIs text.now lowered.text.items lowered.origins.items) }
{
    let origins = own_slots(alloc, program.slots() as u16)?;
    let text = text.to_vec(alloc)?;
    Ok(Lowered { text, origins })
}

/// The slots from 0 to a number.
fn own_slots(alloc: Global, slots: u16) -> Result<Vec<u16>, AllocError>
    ensures count { IfOk result (λ own. length own.items ≡ slots) }
    ensures own { IfOk result (λ own. (slot : ℕ) → slot < slots → slice_index own.items slot ≡ slot) }
{
    let mut own = Vec::new(alloc);
    for slot in 0..slots {
        own.push(slot)?;
    }
    Ok(own)
}

/// The text with its blocks in another order, and with copies of its loops: one for each turn, or, where that doesn't
/// serve, one for each of the constants with which a block is reached.
fn rewritten(
    alloc: Global,
    text: &[u8],
    shapes: &[Option<Shape>],
    context_size: u32,
) -> Result<Lowered, Stop>
    requires shapes { AreShapes shapes.now }
    requires context { IsContextSize context_size }
    ensures shortened { IfOk result (λ lowered. IsShorterCovering text.now lowered.text.items lowered.origins.items) }
    ensures accepted { IfOk result (λ lowered. VerifierAccepts (subject_with lowered.text.items shapes.now context_size)) }
{
    let program = decode(alloc, text)?;
    let parts = Parts::of(alloc, text, &program, shapes, context_size)?;
    let by_turns = Keeping::Turns;
    match copied(
        alloc,
        text,
        &program,
        &parts,
        &by_turns,
        shapes,
        context_size,
    ) {
        Ok(lowered) => Ok(lowered),
        Err(stop) => {
            let by_constants = parts.by_constants(alloc, &program)?;
            match copied(
                alloc,
                text,
                &program,
                &parts,
                &by_constants,
                shapes,
                context_size,
            ) {
                Ok(lowered) => Ok(lowered),
                Err(_) => Err(stop),
            }
        }
    }
}

/// The text made of copies that are kept apart in a way, if that is one with the same runs that the verifier accepts.
fn copied(
    alloc: Global,
    text: &[u8],
    program: &Program,
    parts: &Parts,
    keeping: &Keeping,
    shapes: &[Option<Shape>],
    context_size: u32,
) -> Result<Lowered, Stop>
    requires shapes { AreShapes shapes.now }
    requires context { IsContextSize context_size }
    ensures shortened { IfOk result (λ lowered. IsShorterCovering program.now lowered.text.items lowered.origins.items) }
    ensures accepted { IfOk result (λ lowered. VerifierAccepts (subject_with lowered.text.items shapes.now context_size)) }
{
    let emitted = parts.copies(alloc, text, keeping)?;
    let whole = match decode(alloc, &emitted.text) {
        Ok(whole) => whole,
        Err(refused) => return Err(Stop::from(of_original(refused, &emitted.origins))),
    };
    let shorter = Shorter::of(alloc, &emitted, &whole)?;
    checked(
        alloc,
        program,
        &whole,
        &emitted.origins,
        shorter,
        shapes,
        context_size,
    )
}

/// The shorter text, if it came of a whole one that covers a program's text, and the verifier accepts it.
fn checked(
    alloc: Global,
    program: &Program,
    whole: &Program,
    far: &[u16],
    shorter: Shorter,
    shapes: &[Option<Shape>],
    context_size: u32,
) -> Result<Lowered, Stop>
    requires shapes { AreShapes shapes.now }
    requires context { IsContextSize context_size }
    ensures shortened { IfOk result (λ lowered. IsShorterCovering program.now lowered.text.items lowered.origins.items) }
    ensures accepted { IfOk result (λ lowered. VerifierAccepts (subject_with lowered.text.items shapes.now context_size)) }
{
    let Shorter {
        text,
        origins,
        new_slots,
    } = shorter;
    let verified = match accept(alloc, &text, shapes, context_size) {
        Ok(verified) => verified,
        Err(refused) => return Err(Stop::from(of_original(refused, &origins))),
    };
    let is_right = shortens(
        program,
        whole,
        verified.program(),
        far,
        &new_slots,
        &origins,
    );
    if !is_right {
        return Err(Stop::Uncovered);
    }
    Ok(Lowered { text, origins })
}

/// A refusal at the slot of the original.
fn of_original(refused: Refused, origins: &[u16]) -> Refused {
    match origins.get(refused.slot as usize) {
        Some(origin) if refused != Refused::OUT_OF_MEMORY => Refused {
            number: refused.number,
            slot: u32::from(*origin),
        },
        _ => refused,
    }
}
