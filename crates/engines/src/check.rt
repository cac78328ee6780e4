//! The engine of `check`: one program, verified and not run.

ghost use Rattle.std.specs.Prelude.{◌≡◌, ◌≤◌, ◌↔◌, IfErr, IfOk, IfSome, IsTrue, OnErr, OnOk};
ghost use Rattle.std.specs.Io.KnownBytes.{Appends};
ghost use Rattle.host_types.specs.Refusals.{refusal_text};
ghost use Rattle.host_types.specs.Shapes.{IsShape};
ghost use Rattle.host_file.specs.Faults.{IsBad, IsOfWords, IsUsage};
ghost use Rattle.engines.specs.Check.{AnswersRequest, AnswersWords, AskNothing, IsAccepted, IsCheckRefusal, acceptance_of, subject_asked};
ghost use Rattle.engines.specs.Lines.{line_of};

mod acceptance;
pub(crate) mod request;

use crate::explanation::explain_check;
use crate::fault::written;
use crate::lines::write_refusal;
use acceptance::Acceptance;
use host_calls::decode_and_verify;
use host_file::FileFault;
use host_types::limits::MAX_MAPS;
use host_types::{Fault, Shape};
pub use request::{CheckRequest, check_request_of};
use std::alloc::Global;
use std::io::Write;
use verifier::{Verified, is_context_size};

/// Verifies the program that the words of a command line ask for: hex text, the shapes of its maps,
/// and the size of its context. The output gets one line: that it is accepted, with its slots, its
/// instructions and its reserve, or the refusal; and what the refusal means goes to `words`. Answers
/// the status: 0, or 1 for a refusal. Words that can't be read write nothing.
pub fn check<W: Write, E: Write>(
    alloc: Global,
    hex: &str,
    shapes: &[&str],
    context: &str,
    output: &mut W,
    diagnostics: &mut E,
) -> Result<u8, FileFault>
    ensures status { IfOk result (λ status. status ≤ 1) }
    ensures verdict { IfOk result (AnswersWords hex.now shapes.now context.now (W.contents output.old) (W.contents output.new)) }
    ensures usage { IfErr result (λ fault. IsUsage fault → AskNothing hex.now shapes.now context.now) }
    ensures unwritten { IfErr result (λ fault. IsOfWords fault → output.new ≡ output.old) }
    ensures silent { OnErr result (diagnostics.new ≡ diagnostics.old) }
{
    let asked = check_request_of(alloc, hex, shapes, context)?;
    let status = answer_request(alloc, &asked, output, diagnostics)?;
    Ok(status)
}

/// Verifies a program that is asked for, and writes what `check` writes of it. Answers the status.
pub fn answer_request<W: Write, E: Write>(
    alloc: Global,
    asked: &CheckRequest,
    output: &mut W,
    diagnostics: &mut E,
) -> Result<u8, FileFault>
    ensures status { IfOk result (λ status. status ≤ 1) }
    ensures verdict { IfOk result (AnswersRequest asked.now (W.contents output.old) (W.contents output.new)) }
    ensures words { IfErr result (λ fault. ¬ IsOfWords fault) }
    ensures silent { OnErr result (diagnostics.new ≡ diagnostics.old) }
{
    match verdict(alloc, asked) {
        Ok(program) => {
            print_accepted(output, &program)?;
            Ok(0)
        }
        Err(fault) => {
            write_refusal(output, fault)?;
            // The answer is written: what it means may be lost.
            let _ = explain_check(alloc, diagnostics, asked, fault);
            Ok(1)
        }
    }
}

/// Verifies a program. How many maps it has is looked at first, then their shapes, then the size of its
/// context.
fn verdict(alloc: Global, asked: &CheckRequest) -> Result<Verified, Fault>
    ensures accepted { IfOk result (IsAccepted (subject_asked asked.now)) }
    ensures refused { IfErr result (IsCheckRefusal asked.now) }
{
    let shapes = asked.shapes.as_slice();
    if shapes.len() > MAX_MAPS {
        return Err(Fault::TooManyMaps);
    }
    if !shapes.iter().all(|shape| may_be(shape)) {
        return Err(Fault::BadShape);
    }
    if !is_context_size(asked.context_size) {
        return Err(Fault::BadContext);
    }
    decode_and_verify(alloc, shapes, asked.text.as_slice(), asked.context_size)
}

/// Whether a map may have a shape, if there is one.
fn may_be(shape: &Option<Shape>) -> bool
    ensures { IsTrue result ↔ IfSome shape.now IsShape }
{
    match shape {
        Some(shape) => shape.is_valid(),
        None => true,
    }
}

/// Writes that a program is accepted, and passes it on.
fn print_accepted<W: Write>(output: &mut W, program: &Verified) -> Result<(), FileFault>
    ensures line { OnOk result (Appends (W.contents output.old) (W.contents output.new) (line_of (acceptance_of program.now))) }
    ensures bad { IfErr result (λ fault. ¬ IsBad fault) }
    ensures diagnostics { IfErr result (λ fault. ¬ IsOfWords fault) }
{
    let acceptance = Acceptance::of(program);
    written(writeln!(output, "{acceptance}"))?;
    written(output.flush())
}
