//! What the verifier answers of texts, and what it knows at their slots. A row of the standard input is
//! four texts between tabs: a name, a program in hex, the size of its context with the shapes of its maps
//! after it, and registers at slots, `slot.register`, or `map NUMBER`. Its line is the name and the answer: that the program is accepted,
//! with what is known of these, or the number and the slot of its refusal; and whether both passes of
//! the plain verifier differ from that. Other rows ask a rule of kinds alone, with `insn` or `join` after the
//! name (`rules.rt`), or with `first` of every offset in a map's first value (`first_values.rt`). The file `stdout` of this crate says what is wanted.
#![tactic(auto)]

ghost use Rattle.verifier.specs.Subject.{IsContextSize};

mod first_values;
mod kinds;
mod rules;

use bpf_decode::decode;
use first_values::print_first_values;
use golden_compared::{shapes_of, verdicts_agree};
use host_types::Refused;
use kinds::print_kind;
use rules::{print_insn, print_join};
use std::alloc::{AllocError, Global};
use std::io;
use std::io::Input;
use verifier::{Verified, is_context_size, verify};
use verifier_kinds::Kind;

/// The kind of a register at a slot, which is written `slot.register`.
fn kind_at(program: &Verified, begin: &str) -> Option<Kind> {
    let (slot, register) = begin.split_once('.')?;
    let register: u8 = register.parse().ok()?;
    if register > 10 {
        return None;
    }
    program.kind(slot.parse().ok()?, register)
}

/// A text that was verified, and whether both passes of the plain verifier say the same of it.
#[derive(Drop)]
struct Answer {
    outcome: Result<Verified, Refused>,
    is_alike: bool,
}

/// The size of a row's context; one that no context has is 0.
fn size_of(given: &str) -> u32
    ensures { IsContextSize result }
{
    match given.split(' ').next().unwrap_or("").parse() {
        Ok(size) if is_context_size(size) => size,
        _ => 0,
    }
}

/// The answer to a text of a row. A text that isn't hex is empty.
fn answer_of(alloc: Global, hex: &str, given: &str) -> Result<Answer, AllocError> {
    let size = size_of(given);
    let shapes = shapes_of(alloc, given)?;
    let text = hex::decode(alloc, hex).unwrap_or(Vec::new(alloc));
    let outcome = match decode(alloc, &text) {
        Ok(program) => verify(alloc, program, &shapes, size),
        Err(refused) => Err(refused),
    };
    let is_alike = verdicts_agree(alloc, &text, &shapes, size, &outcome);
    Ok(Answer { outcome, is_alike })
}

/// Prints what is known of a register at a slot, or of `map NUMBER` whether the program names that map.
fn print_begin(rt: &impl Print, program: &Verified, begin: &str) -> io::Result<()> {
    match begin.strip_prefix("map ") {
        Some(map) if program.names(map.parse().unwrap_or(u32::MAX)) => print!(rt; "named"),
        Some(_) => print!(rt; "not named"),
        None => print_kind(rt, kind_at(program, begin)),
    }
}

/// Prints what is answered to a row's text, and what is known of the registers that it names.
fn print_answer(rt: &(impl AllocGlobal + Print), asked: &str) -> io::Result<()> {
    let mut fields = asked.split('\t');
    let hex = fields.next().unwrap_or("");
    let given = fields.next().unwrap_or("");
    let Answer { outcome, is_alike } = answer_of(rt.alloc(), hex, given)?;
    match outcome {
        Err(Refused { number, slot }) => print!(rt; "refused {number} at {slot}")?,
        Ok(program) => {
            let slots = program.slots();
            let instructions = program.instructions();
            print!(rt; "accepted {slots} {instructions}")?;
            for begin in fields {
                print!(rt; "\t{begin}: ")?;
                print_begin(rt, &program, begin)?;
            }
        }
    }
    if is_alike {
        Ok(())
    } else {
        print!(rt; "\tthe plain verifier differs")
    }
}

/// Prints the line of a row.
fn print_line(rt: &(impl AllocGlobal + Print), row: &str) -> io::Result<()> {
    let (name, asked) = row.split_once('\t').unwrap_or((row, ""));
    print!(rt; "{name}\t")?;
    match asked.split_once('\t') {
        Some(("insn", operands)) => print_insn(rt, operands)?,
        Some(("join", slots)) => print_join(rt, slots)?,
        Some(("first", shape)) => print_first_values(rt, shape)?,
        _ => print_answer(rt, asked)?,
    }
    println!(rt;)
}

fn main(rt: HostRuntime) -> io::Result<()> {
    for line in rt.lines(rt.alloc()) {
        print_line(&rt, line?.as_str())?;
    }
    Ok(())
}
