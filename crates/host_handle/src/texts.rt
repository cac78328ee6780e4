//! Texts alone: whether the verifier accepts one, and what the lowering makes of it.
ghost use Rattle.std.specs.Prelude.{IfErr, IfOk, OnOk};
ghost use Rattle.engines.specs.Check.{IsAccepted};
ghost use Rattle.host_handle.specs.Texts.{AreAllowed, HasRefused, IsFaultOf, IsLoweredText, RefusesLowering, RefusesText, subject_given};

use crate::given::allowed;
use crate::structs::{BpfHostRefused, BpfHostShape};
use host_calls::decode_and_verify;
use host_types::Fault;
use lowering::{Lowered, NotLowered, Stop, lower};
use std::alloc::Global;
use verifier::Verified;

/// Why no text is made: the refusal, and what stopped the lowering, if it was tried.
#[derive(Clone, Copy)]
pub struct NotMade {
    pub fault: Fault,
    pub stopped: Option<NotLowered>,
}

/// The verifier's verdict on a text.
pub fn verified(
    alloc: Global,
    text: &[u8],
    shapes: &[BpfHostShape],
    context_size: u32,
) -> Result<Verified, Fault>
    ensures allowed { OnOk result (AreAllowed shapes.now context_size) }
    ensures accepted { IfOk result (IsAccepted (subject_given text.now shapes.now context_size)) }
    ensures refused { IfErr result (RefusesText text.now shapes.now context_size) }
{
    let shapes = allowed(shapes, context_size)?;
    decode_and_verify(alloc, &shapes, text, context_size)
}

/// What the lowering makes of a text.
pub fn made(
    alloc: Global,
    text: &[u8],
    shapes: &[BpfHostShape],
    context_size: u32,
) -> Result<Lowered, NotMade>
    ensures made { IfOk result (λ made. IsLoweredText text.now shapes.now context_size made.text.items) }
    ensures refused { IfErr result (λ not_made. RefusesLowering text.now shapes.now context_size not_made.fault) }
{
    let shapes = match allowed(shapes, context_size) {
        Ok(shapes) => shapes,
        Err(fault) => {
            return Err(NotMade {
                fault,
                stopped: None,
            });
        }
    };
    match lower(alloc, text, &shapes, context_size) {
        Ok(lowered) => Ok(lowered),
        Err(stopped) => Err(NotMade {
            fault: fault_of(stopped),
            stopped: Some(stopped),
        }),
    }
}

/// Why a text isn't lowered, as a refusal: for want of memory, or as the verifier refuses the text.
fn fault_of(stopped: NotLowered) -> Fault
    ensures { IsFaultOf stopped result }
{
    if stopped.stop == Stop::OutOfMemory {
        Fault::OutOfMemory
    } else {
        stopped.refused.fault()
    }
}

/// Writes what a refusal says beside its number: the number that the call returns.
pub fn refuse(fault: Fault, refused: &mut BpfHostRefused) -> u32
    ensures { HasRefused fault result refused.old refused.new }
{
    refused.write(&fault);
    fault.number()
}
