//! Decodes the texts of the standard input, a line of hex for each, in which spaces set the slots apart; `x4096 `
//! in front says how often the rest stands. Below each line stand the instructions of an accepted text, by slot and
//! in the syntax of LLVM's assembler, or the refusal. The file `stdout` of this crate says what is wanted: its
//! lines were written by a program of their own from RFC 9669, and some are LLVM's.
#![tactic(auto)]

use bpf_decode::{Program, decode};
use disassembly::Assembly;
use std::alloc::Global;
use std::io;
use std::io::Input;

/// The most instructions that are shown.
const SHOWN: u32 = 8;

/// The bytes of a line, and how often they stand.
fn text_of(alloc: Global, line: &str) -> io::Result<Vec<u8>> {
    let (times, digits) = match line.strip_prefix("x") {
        Some(rest) => rest.split_once(' ').unwrap_or(("", "")),
        None => ("1", line),
    };
    let mut words = String::new(alloc);
    for word in digits.split(' ') {
        words.push_str(word)?;
    }
    let bytes = hex::decode(alloc, words.as_str()).unwrap_or(Vec::new(alloc));
    let mut text = Vec::new(alloc);
    for _ in 0..times.parse::<u16>().unwrap_or(0) {
        text.extend_from_slice(bytes.as_slice())?;
    }
    Ok(text)
}

/// Prints the first instructions of a program, and how many slots it has.
fn print_program(rt: &impl Print, program: &Program) -> io::Result<()> {
    let slots = program.slots();
    println!(rt; "accepted, {slots} slots")?;
    if slots > SHOWN {
        return Ok(());
    }
    for slot in 0..slots {
        if program.begins(slot) {
            let insn = Assembly(program.insn(slot));
            println!(rt; "  {slot}: {insn}")?;
        }
    }
    Ok(())
}

/// Prints a line and what is decoded of it.
fn print_answer(rt: &(impl AllocGlobal + Print), line: &str) -> io::Result<()> {
    let shown = if line.is_empty() { "(no text)" } else { line };
    println!(rt; "{shown}")?;
    if line.starts_with('#') {
        return Ok(());
    }
    let text = text_of(rt.alloc(), line)?;
    match decode(rt.alloc(), text.as_slice()) {
        Ok(program) => print_program(rt, &program),
        Err(refused) => println!(rt; "refused {} at {}", refused.number, refused.slot),
    }
}

fn main(rt: HostRuntime) -> io::Result<()> {
    for line in rt.lines(rt.alloc()) {
        print_answer(&rt, line?.as_str())?;
    }
    Ok(())
}
