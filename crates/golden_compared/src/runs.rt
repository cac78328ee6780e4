ghost use Rattle.std.specs.Prelude.{◌≡◌, [], IfOk};
ghost use Rattle.verifier.specs.Subject.{IsContextSize, padded};
ghost use Rattle.interp.specs.Machine.{MachineState};
ghost use Rattle.interp.specs.StandsFor.{StandsFor};

use crate::verdicts::verdicts_agree;
use bpf_decode::{Program, decode};
use host_types::Refused;
use interp::{Need, Run};
use reference_machine::{Ending, Machine};
use std::alloc::Global;
use verifier::{Verified, is_context_size, verify};

/// As many steps as a program has instructions at most.
const STEPS: u32 = 4096;

/// How a program went, with no maps.
#[derive(Clone, Copy, PartialEq, Eq)]
pub(crate) enum Outcome {
    Returned { number: u64, steps: u32 },
    /// The decoder or the verifier refused it.
    Refused,
    /// It had no memory to run in.
    Unable,
    /// The plain verifier verifies it otherwise than `verify`.
    Disputed,
    /// It was at fault, or it didn't end.
    Endless,
    /// It asked for a map, though it has none.
    NeedsMap,
}

/// The size of a row's context; one that no context has is 0.
fn size_of(context: &[u8]) -> u32
    ensures { IsContextSize result }
{
    match u32::try_from(context.len()) {
        Ok(size) if is_context_size(size) => size,
        _ => 0,
    }
}

/// How a program goes on a context that is decoded, verified by `verify`, perhaps by the plain verifier too, and run.
pub(crate) fn on_the_host(
    alloc: Global,
    text: &[u8],
    context: &[u8],
    verdicts_twice: bool,
) -> Outcome {
    match decode(alloc, text) {
        Ok(program) => {
            let verified = verdict(alloc, program, size_of(context));
            verified_on_the_host(alloc, text, context, verified, verdicts_twice)
        }
        Err(refused) => refusal(refused),
    }
}

/// How a text goes that `verify` verified.
fn verified_on_the_host(
    alloc: Global,
    text: &[u8],
    context: &[u8],
    verified: Result<Verified, Refused>,
    verdicts_twice: bool,
) -> Outcome
    requires { IfOk verified (λ v. v.subject.shapes ≡ padded []) }
{
    if verdicts_twice && !verdicts_agree(alloc, text, &[], size_of(context), &verified) {
        return Outcome::Disputed;
    }
    match verified {
        Ok(program) => run_to_end(alloc, &program, context),
        Err(refused) => refusal(refused),
    }
}

/// How a text goes that is refused.
fn refusal(refused: Refused) -> Outcome {
    if refused == Refused::OUT_OF_MEMORY {
        Outcome::Unable
    } else {
        Outcome::Refused
    }
}

/// How a text goes on the plain machine, on a context.
pub(crate) fn on_the_plain_machine(alloc: Global, text: &[u8], context: &[u8]) -> Outcome {
    if text.len() % 8 != 0 {
        return Outcome::Refused;
    }
    let Ok(context) = context.to_vec(alloc) else {
        return Outcome::Unable;
    };
    let mut machine = Machine::start(context, Vec::new(alloc));
    match machine.run(text, STEPS) {
        Ending::Exited { number, steps } => Outcome::Returned { number, steps },
        _ => Outcome::Endless,
    }
}

/// The program as `verify` verifies it, for a context of a size and no maps.
fn verdict(alloc: Global, program: Program, size: u32) -> Result<Verified, Refused>
    requires { IsContextSize size }
    ensures { IfOk result (λ v. v.subject.shapes ≡ padded []) }
{
    verify(alloc, program, &[], size)
}

/// Runs the program on a context to its end.
fn run_to_end(alloc: Global, program: &Verified, context: &[u8]) -> Outcome
    requires { program.now.subject.shapes ≡ padded [] }
{
    match Run::begin(alloc, program, context) {
        Ok(run) => ended(run, program),
        Err(_) => Outcome::Unable,
    }
}

/// How a run ends.
fn ended(mut run: Run, program: &Verified) -> Outcome
    requires { (s : MachineState) × StandsFor program.now run s }
{
    'steps: for _ in 0..STEPS {
        match run.next(program) {
            Need::Ended(number) => {
                let steps = run.steps();
                return Outcome::Returned { number, steps };
            }
            Need::Private => {}
            _ => return Outcome::NeedsMap,
        }
    }
    Outcome::Endless
}
