ghost use Rattle.std.specs.Prelude.{◌≡◌, IfOk, IfErr};
ghost use Rattle.bpf_decode.specs.Text.{IsWellFormed};
ghost use Rattle.verifier.specs.Subject.{IsContextSize};
ghost use Rattle.verifier.specs.Verified.{AreShapes, IsVerified};
ghost use Rattle.host_calls.specs.Programs.{IsVerdict, subject_for};

use bpf_decode::decode;
use host_types::{Fault, Shape};
use std::alloc::Global;
use verifier::{Verified, verify};

/// Verifies a text as a program that may use maps of these shapes by number, `None` where no map has the number,
/// and whose context has so many bytes: it is accepted if it is well formed and breaks no rule.
///
/// A refusal is the text's first fault (`BadLength` to `CutWide`), or else the first rule that it breaks
/// (`BackJump` to `PointerLeaks`); or `OutOfMemory` where memory ran out, and only of a text without a fault.
pub fn decode_and_verify(
    alloc: Global,
    shapes: &[Option<Shape>],
    text: &[u8],
    ctx_size: u32,
) -> Result<Verified, Fault>
    requires shapes { AreShapes shapes.now }
    requires context { IsContextSize ctx_size }
    ensures subject { IfOk result (λ v. v.subject ≡ subject_for shapes.now text.now ctx_size) }
    ensures well_formed { IfOk result (λ _. IsWellFormed text.now) }
    ensures verified { IfOk result IsVerified }
    ensures refused { IfErr result (IsVerdict (subject_for shapes.now text.now ctx_size)) }
{
    let program = match decode(alloc, text) {
        Ok(program) => program,
        Err(refused) => return Err(refused.fault()),
    };
    match verify(alloc, program, shapes, ctx_size) {
        Ok(program) => Ok(program),
        Err(refused) => Err(refused.fault()),
    }
}
