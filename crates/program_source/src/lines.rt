//! A program whose words stand on its command line or, with none there, in lines of the standard input.

use crate::line::words_of;
use engines::{status_of, words_from, write_fault, write_line, written};
use host_file::FileFault;
use std::alloc::AllocError;
use std::io::{self, BufWriter, Input, Write};
use std::rt::{Env, Files};

/// A program that answers words.
pub trait Answers {
    /// What it is called.
    fn name() -> &'static str;

    /// Does what words ask for. Answers the status 0 or 1, or the fault of status 2.
    fn answer<R, W, E>(
        rt: &R,
        words: &[String],
        output: &mut W,
        errors: &mut E,
    ) -> Result<u8, FileFault>
    where
        R: AllocGlobal + Files,
        W: Write,
        E: Write;
}

/// Does what the command line asks for. Answers the status 0 or 1, or the fault of status 2.
pub fn run<P, R, E>(rt: &R, errors: &mut E) -> Result<u8, FileFault>
where
    P: Answers,
    R: AllocGlobal + Env + Files + Input + Print,
    E: Write,
{
    let words = words_from(rt)?;
    let output = BufWriter::new(rt.alloc(), io::writer(rt));
    let mut output = output.map_err(|_| FileFault::OutOfMemory(AllocError))?;
    let status = if words.len() < 2 {
        answer_lines::<P, R, _>(rt, &mut output)
    } else {
        P::answer(rt, words.as_slice(), &mut output, errors)
    }?;
    written(output.flush())?;
    Ok(status)
}

/// Answers each line of the standard input, below the line itself. The status is that of the last.
fn answer_lines<P, R, W>(rt: &R, output: &mut W) -> Result<u8, FileFault>
where
    P: Answers,
    R: AllocGlobal + Files + Input,
    W: Write,
{
    let mut status = 0;
    for line in rt.lines(rt.alloc()) {
        let line = line.map_err(FileFault::Read)?;
        if line.as_str().starts_with('#') {
            // A title asks for nothing.
            written(write_line(output, "", line.as_str()))?;
        } else {
            status = answer_line::<P, R, W>(rt, line.as_str(), output)?;
        }
    }
    Ok(status)
}

/// Answers a line: what goes to the standard output, then each line that goes to standard error, after `! `, and then
/// the status.
fn answer_line<P, R, W>(rt: &R, line: &str, output: &mut W) -> Result<u8, FileFault>
where
    P: Answers,
    R: AllocGlobal + Files,
    W: Write,
{
    let alloc = rt.alloc();
    written(write_line(output, "$ ", line))?;
    let words = words_of(alloc, P::name(), line)?;
    let mut said = Vec::new(alloc);
    let outcome = P::answer(rt, words.as_slice(), output, &mut said);
    if let Err(fault) = &outcome {
        written(write_fault(alloc, &mut said, fault))?;
    }
    if let Ok(said) = str::from_utf8(said.as_slice()) {
        for line in said.lines().filter(|line| !line.is_empty()) {
            written(writeln!(output, "! {line}"))?;
        }
    }
    let status = status_of(&outcome);
    written(writeln!(output, "status {status}"))?;
    Ok(status)
}
