ghost use Rattle.std.specs.Prelude.{◌≡◌, IfOk, IfErr};
ghost use Rattle.verifier.specs.Subject.{IsContextSize};
ghost use Rattle.verifier.specs.Verified.{AreShapes};
ghost use Rattle.lowering.specs.Lowering.{subject_with, VerifierAccepts, IsRefusedBy};

use bpf_decode::decode;
use host_types::{Refused, Shape};
use std::alloc::Global;
use verifier::{Verified, verify};

/// Decodes a text and verifies it.
pub(crate) fn accept(
    alloc: Global,
    text: &[u8],
    shapes: &[Option<Shape>],
    context_size: u32,
) -> Result<Verified, Refused>
    requires shapes { AreShapes shapes.now }
    requires context { IsContextSize context_size }
    ensures subject { IfOk result (λ verified. verified.subject ≡ subject_with text.now shapes.now context_size) }
    ensures accepted { IfOk result (λ verified. VerifierAccepts (subject_with text.now shapes.now context_size)) }
    ensures refused { IfErr result (IsRefusedBy (subject_with text.now shapes.now context_size)) }
{
    let program = decode(alloc, text)?;
    verify(alloc, program, shapes, context_size)
}
