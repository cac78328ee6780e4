//! Reads command lines from the standard input, whose words bars set apart, and prints what each asks for, or
//! what is said of words that ask for nothing, after `! `, and a text that is asked for, after `= `. Words after `explain`, `lower`,
//! `merging` and `bpf_object` are those programs', and others `bpf_host`'s. The file `stdout` of this crate says what is wanted.
#![tactic(auto)]

use command_line::{Asked, WrongWords, drawn_of, explained_of, loaded_of, lowered_of, request_of};
use std::alloc::{AllocError, Global};
use std::fmt::Debug;
use std::io;
use std::io::Input;

/// The path of `bpf_host`, which is longer than what is printed of a word.
const BPF_HOST: &str = "/home/someone/projects/bpf_host/crates/bpf_host/out/bpf_host";

/// That of `explain`.
const EXPLAIN: &str = "/home/someone/projects/bpf_host/crates/explain/out/explain";

/// That of `lower`.
const LOWER: &str = "/home/someone/projects/bpf_host/crates/lower/out/lower";

/// That of `merging`.
const MERGING: &str = "/home/someone/projects/bpf_host/crates/merging/out/merging";

/// That of `bpf_object`.
const BPF_OBJECT: &str = "/home/someone/projects/bpf_host/crates/bpf_object/out/bpf_object";

/// The words of a line, after the path of a program.
fn words_of(alloc: Global, path: &str, line: &str) -> Result<Vec<String>, AllocError> {
    let mut words = Vec::new(alloc);
    words.push(String::from_str(alloc, path)?)?;
    for word in line.split('|').filter(|_| !line.is_empty()) {
        words.push(String::from_str(alloc, word)?)?;
    }
    Ok(words)
}

/// Prints what a line asks for, or what is said of it.
fn print_asked(rt: &(impl AllocGlobal + Print), line: &str) -> io::Result<()> {
    println!(rt; "$ {}", line.escape_debug())?;
    if let Some(words) = line.strip_prefix("explain") {
        print_explained(rt, words.trim_start())
    } else if let Some(words) = line.strip_prefix("lower") {
        print_lowered(rt, words.trim_start())
    } else if let Some(words) = line.strip_prefix("merging") {
        print_drawn(rt, words.trim_start())
    } else if let Some(words) = line.strip_prefix("bpf_object") {
        print_loaded(rt, words.trim_start())
    } else {
        print_requested(rt, line)
    }
}

/// Prints what words ask `explain` for.
fn print_explained(rt: &(impl AllocGlobal + Print), line: &str) -> io::Result<()> {
    let words = words_of(rt.alloc(), EXPLAIN, line)?;
    print_asked_of(rt, explained_of(rt.alloc(), words.as_slice()))
}

/// Prints what words ask `lower` for.
fn print_lowered(rt: &(impl AllocGlobal + Print), line: &str) -> io::Result<()> {
    let words = words_of(rt.alloc(), LOWER, line)?;
    print_asked_of(rt, lowered_of(rt.alloc(), words.as_slice()))
}

/// Prints what words ask `merging` for.
fn print_drawn(rt: &(impl AllocGlobal + Print), line: &str) -> io::Result<()> {
    let words = words_of(rt.alloc(), MERGING, line)?;
    print_asked_of(rt, drawn_of(rt.alloc(), words.as_slice()))
}

/// Prints what words ask `bpf_object` for.
fn print_loaded(rt: &(impl AllocGlobal + Print), line: &str) -> io::Result<()> {
    let words = words_of(rt.alloc(), BPF_OBJECT, line)?;
    print_answer(rt, loaded_of(rt.alloc(), words.as_slice()))
}

/// Prints what words ask `bpf_host` for.
fn print_requested(rt: &(impl AllocGlobal + Print), line: &str) -> io::Result<()> {
    let words = words_of(rt.alloc(), BPF_HOST, line)?;
    print_answer(rt, request_of(rt.alloc(), words.as_slice()))
}

/// Prints what words of another program ask for, a text as what is said on standard output.
fn print_asked_of<T: Debug + Drop>(
    rt: &impl Print,
    answer: Result<Asked<T>, WrongWords>,
) -> io::Result<()> {
    match answer {
        Ok(Asked::Program(program)) => println!(rt; "{program:?}"),
        Ok(Asked::Text(text)) => print_lines(rt, "=", text.as_str()),
        Err(wrong) => print_wrong(rt, &wrong),
    }
}

/// Prints what words ask for, or what is said of them.
fn print_answer<A: Debug + Drop>(rt: &impl Print, answer: Result<A, WrongWords>) -> io::Result<()> {
    match answer {
        Ok(asked) => println!(rt; "{asked:?}"),
        Err(wrong) => print_wrong(rt, &wrong),
    }
}

/// Prints what is said of words that ask for nothing.
fn print_wrong(rt: &impl Print, wrong: &WrongWords) -> io::Result<()> {
    match wrong {
        WrongWords::Usage(said) => print_lines(rt, "!", said.as_str()),
        WrongWords::OutOfMemory(_) => println!(rt; "out of memory"),
    }
}

/// Prints each line of a text, but the empty ones, after a sign.
fn print_lines(rt: &impl Print, sign: &str, text: &str) -> io::Result<()> {
    for line in text.lines().filter(|line| !line.is_empty()) {
        println!(rt; "{sign} {line}")?;
    }
    Ok(())
}

fn main(rt: HostRuntime) -> io::Result<()> {
    for line in rt.lines(rt.alloc()) {
        print_asked(&rt, line?.as_str())?;
    }
    Ok(())
}
