//! The program `explain` (docs/EXPLAIN.md): a listing of a program with what the verifier knows at each instruction, as text
//! or as an HTML page.
//! With no words it answers each line of the standard input, whose words spaces set apart.
#![tactic(auto)]

mod answer;
mod folds;
mod sources;
mod view;

use answer::answer;
use engines::{status_of, words_from, write_fault, write_line, written};
use host_file::FileFault;
use listing::Paint;
use program_source::words_of;
use std::alloc::AllocError;
use std::io::{self, BufWriter, Input, IsTerminal, Write};
use std::process::ExitCode;
use std::rt::{Env, Files};

fn main(rt: HostRuntime) -> ExitCode {
    let stderr = rt.stderr();
    let mut errors = io::writer(&stderr);
    let paint = if rt.stdout().is_terminal() {
        Paint::Colours
    } else {
        Paint::Plain
    };
    let outcome = run(&rt, paint);
    if let Err(fault) = &outcome {
        // The status says it too: the words may be lost.
        let _ = write_fault(rt.alloc(), &mut errors, fault);
    }
    ExitCode::from(status_of(&outcome))
}

/// Does what the command line asks for. Answers the status 0 or 1, or the fault of status 2.
fn run<R: AllocGlobal + Env + Files + Input + Print>(
    rt: &R,
    paint: Paint,
) -> Result<u8, FileFault> {
    let words = words_from(rt)?;
    let output = BufWriter::new(rt.alloc(), io::writer(rt));
    let mut output = output.map_err(|_| FileFault::OutOfMemory(AllocError))?;
    if words.len() < 2 {
        answer_lines(rt, paint, &mut output)
    } else {
        answer(rt, words.as_slice(), paint, &mut output)
    }
}

/// Answers each line of the standard input, below the line itself. The status is that of the last.
fn answer_lines<R: AllocGlobal + Files + Input, W: Write>(
    rt: &R,
    paint: Paint,
    output: &mut W,
) -> Result<u8, FileFault> {
    let alloc = rt.alloc();
    let mut status = 0;
    for line in rt.lines(alloc) {
        let line = line.map_err(FileFault::Read)?;
        status = answer_line(rt, line.as_str(), paint, output)?;
    }
    Ok(status)
}

/// Answers a line. One that begins with `#` is a title, and asks for nothing.
fn answer_line<R: AllocGlobal + Files, W: Write>(
    rt: &R,
    line: &str,
    paint: Paint,
    output: &mut W,
) -> Result<u8, FileFault> {
    let alloc = rt.alloc();
    if line.starts_with('#') {
        written(write_line(output, "", line))?;
        return Ok(0);
    }
    written(write_line(output, "$ ", line))?;
    let words = words_of(alloc, "explain", line)?;
    answer(rt, words.as_slice(), paint, output)
}
