//! Texts that a fixed generator draws, each verified by `verify` and by both passes of the plain verifier, which
//! reads the profile a second time. Half of them are built of instructions one by one (`built.rt`), the others are
//! changed from programs that are accepted (`changed.rt`). The verdict, the slot, the number and what is known of
//! each register at each slot have to be the same; a text that differs is printed, and ends the program. The last
//! lines count the verdicts.
#![tactic(auto)]

ghost use Rattle.verifier.specs.Subject.{IsContextSize};
ghost use Rattle.verifier.specs.Verified.{AreShapes};

mod built;
mod changed;
mod choices;
mod instructions;
mod tally;

use bpf_decode::decode;
use built::built_text;
use changed::changed_text;
use golden_compared::{shapes_of, verdicts_agree};
use host_types::{Refused, Shape};
use std::alloc::{AllocError, Global};
use std::io;
use tally::{Tally, Verdict};
use tests_inputs::Draws;
use verifier::{is_context_size, verify};

/// How many texts are drawn.
const TEXTS: u32 = 5120;

/// The maps that texts may use, by turns: no map has the number 1.
const SHAPES: &str = "16:2 - 64:4 8:1";

/// The other ones.
const OTHER_SHAPES: &str = "64:4 - 24:4 8:1";

/// The size of the context, or 0 if no context has it.
fn context_size() -> u32
    ensures { IsContextSize result }
{
    if is_context_size(16) { 16 } else { 0 }
}

/// What `verify` says of a text, if both passes of the plain verifier say the same.
fn verdict_of(alloc: Global, text: &[u8], shapes: &[Option<Shape>]) -> Option<Verdict>
    requires { AreShapes shapes.now }
{
    let Ok(program) = decode(alloc, text) else {
        return Some(Verdict::NoProgram);
    };
    let verified = verify(alloc, program, shapes, context_size());
    if !verdicts_agree(alloc, text, shapes, context_size(), &verified) {
        return None;
    }
    match verified {
        Ok(_) => Some(Verdict::Accepted),
        Err(Refused { number, slot }) => Some(Verdict::Refused { number, slot }),
    }
}

/// Draws a text.
fn drawn(alloc: Global, draws: &mut Draws, number: u32) -> Result<Vec<u8>, AllocError> {
    if number % 2 == 0 {
        built_text(alloc, draws)
    } else {
        changed_text(alloc, draws)
    }
}

/// Verifies a text that is drawn. It answers whether the text is verified alike.
fn verify_next(
    rt: &(impl AllocGlobal + Print),
    draws: &mut Draws,
    number: u32,
    shapes: &[Option<Shape>],
    others: &[Option<Shape>],
    tally: &mut Tally,
) -> io::Result<bool>
    requires shapes { AreShapes shapes.now }
    requires others { AreShapes others.now }
{
    let text = drawn(rt.alloc(), draws, number)?;
    let verdict = if number % 4 < 2 {
        verdict_of(rt.alloc(), text.as_slice(), shapes)
    } else {
        verdict_of(rt.alloc(), text.as_slice(), others)
    };
    match verdict {
        Some(verdict) => {
            tally.count(verdict);
            Ok(true)
        }
        None => {
            let hex = hex::encode(rt.alloc(), text.as_slice())?;
            println!(rt; "text {number} has another verdict by the reference verifier: {hex}")?;
            Ok(false)
        }
    }
}

/// Verifies all texts, which may use maps of these shapes and of others by turns, and prints the counts.
fn verify_all(
    rt: &(impl AllocGlobal + Print),
    shapes: &[Option<Shape>],
    others: &[Option<Shape>],
) -> io::Result<()>
    requires shapes { AreShapes shapes.now }
    requires others { AreShapes others.now }
{
    let mut draws = Draws::new(1);
    let mut tally = Tally::new();
    for number in 0..TEXTS {
        if !verify_next(rt, &mut draws, number, shapes, others, &mut tally)? {
            return Ok(());
        }
    }
    println!(rt; "{TEXTS} drawn texts agree")?;
    tally.print(rt)
}

fn main(rt: HostRuntime) -> io::Result<()> {
    let shapes = shapes_of(rt.alloc(), SHAPES)?;
    let others = shapes_of(rt.alloc(), OTHER_SHAPES)?;
    verify_all(&rt, shapes.as_slice(), others.as_slice())
}
