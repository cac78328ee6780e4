//! The program `bpf_object`: the lines of a host file that load a program from an object file, as `clang -target bpf -c` makes
//! it, lowered for the verifier; or what runs of it return. With no words it answers each line of the standard input, whose
//! words spaces set apart.
#![tactic(auto)]

mod accepted;
mod answer;
mod events;
mod fault;
mod file;
mod fronts;
mod runs;

use answer::answer;
use engines::write_line;
use fault::{Fault, Printed, status_of, write_words, written};
use std::alloc::{AllocError, Global};
use std::env;
use std::io::{self, BufWriter, Input, Write};
use std::process::ExitCode;
use std::rt::{Env, Files};

fn main(rt: HostRuntime) -> ExitCode {
    let stderr = rt.stderr();
    let mut errors = io::writer(&stderr);
    let outcome = run(&rt);
    // The words may be lost: the status says too whether all went well.
    let _ = write_words(&mut errors, &outcome);
    ExitCode::from(status_of(&outcome))
}

/// Does what the command line asks for.
fn run<R>(rt: &R) -> Result<Printed, Fault>
where
    R: AllocGlobal + Env + Files + Input + Print,
{
    let words = words_from(rt)?;
    answer_words(rt, words.as_slice())
}

/// Does what words ask for, or each line of the standard input where there are none.
fn answer_words<R>(rt: &R, words: &[String]) -> Result<Printed, Fault>
where
    R: AllocGlobal + Files + Input + Print,
{
    let output = BufWriter::new(rt.alloc(), io::writer(rt));
    let mut output = output.map_err(|_| Fault::OutOfMemory(AllocError))?;
    let printed = if words.len() < 2 {
        answer_lines(rt, &mut output)?;
        Printed::Whole
    } else {
        answer(rt, words, &mut output)?
    };
    written(output.flush())?;
    Ok(printed)
}

/// The words of the command line.
fn words_from<R: AllocGlobal + Env>(rt: &R) -> Result<Vec<String>, Fault> {
    match env::args(rt) {
        Ok(words) => Ok(words.collect(rt.alloc())?),
        Err(error) if error.kind() == io::ErrorKind::OutOfMemory => {
            Err(Fault::OutOfMemory(AllocError))
        }
        Err(_) => Err(Fault::Usage(String::from_str(rt.alloc(), "the words can't be read")?)),
    }
}

/// Answers each line of the standard input, below the line itself.
fn answer_lines<R, W>(rt: &R, output: &mut W) -> Result<(), Fault>
where
    R: AllocGlobal + Files + Input,
    W: Write,
{
    for line in rt.lines(rt.alloc()) {
        let line = line.map_err(Fault::Read)?;
        if line.as_str().starts_with('#') {
            // A title asks for nothing.
            written(write_line(output, "", line.as_str()))?;
        } else {
            answer_line(rt, line.as_str(), output)?;
        }
    }
    Ok(())
}

/// Answers a line: what goes to the standard output, then each line that goes to standard error, after `! `, and then the
/// status.
fn answer_line<R, W>(rt: &R, line: &str, output: &mut W) -> Result<(), Fault>
where
    R: AllocGlobal + Files,
    W: Write,
{
    let alloc = rt.alloc();
    written(write_line(output, "$ ", line))?;
    let words = words_of(alloc, line)?;
    let outcome = answer(rt, words.as_slice(), output);
    write_outcome(alloc, &outcome, output)
}

/// Writes what goes to standard error, and the status.
fn write_outcome<W: Write>(
    alloc: Global,
    outcome: &Result<Printed, Fault>,
    output: &mut W,
) -> Result<(), Fault> {
    write_said(alloc, outcome, output)?;
    let status = status_of(outcome);
    written(writeln!(output, "status {status}"))
}

/// Writes what goes to standard error.
fn write_said<W: Write>(
    alloc: Global,
    outcome: &Result<Printed, Fault>,
    output: &mut W,
) -> Result<(), Fault> {
    let mut said = Vec::new(alloc);
    written(write_words(&mut said, outcome))?;
    written(write_lines(said.as_slice(), output))
}

/// Writes each line of a text after `! `.
fn write_lines<W: Write>(text: &[u8], output: &mut W) -> io::Result<()> {
    let Ok(text) = str::from_utf8(text) else {
        return Ok(());
    };
    for line in text.lines().filter(|line| !line.is_empty()) {
        writeln!(output, "! {line}")?;
    }
    Ok(())
}

/// The words of a line, which single spaces set apart, after the program's name.
fn words_of(alloc: Global, line: &str) -> Result<Vec<String>, AllocError> {
    let mut words = Vec::new(alloc);
    words.push(String::from_str(alloc, "bpf_object")?)?;
    for word in line.split(' ') {
        words.push(String::from_str(alloc, word)?)?;
    }
    Ok(words)
}
