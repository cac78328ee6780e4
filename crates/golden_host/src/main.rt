//! Answers the requests of the standard input as the program `bpf_host` does (docs/HOST.md), in one run. A
//! request is a line `$ check`, `$ replay` or `$ serve`. The words of a check stand after it between tabs:
//! HEX, the size of the context, and any V:E. A host file stands in the lines below its `$ replay` or `$ serve`.
//! Below each request stands what goes to the standard output, then, after `! `, what goes to standard error,
//! and last the exit status, or the words of a fault; it ends with the status of the last. The file `stdout` of
//! this crate says what is wanted; rows are cheaper there than in tests, whose texts are proved. The output of a
//! `$ full serve` takes nothing, and that of a `$ stuck serve` fails when it is asked to pass on what it took. In
//! that of a `$ marked replay` or `$ marked serve` a line `~` stands where it passed on what it took. A `$ failing` or
//! `$ cut` request is answered as one without that word; a script asks the program for it while reads and writes fail.
#![tactic(auto)]

mod asked;
mod printed;

use asked::Asked;
use cli::{Progress, answer_words};
use engines::{status_of, write_fault};
use host_file::FileFault;
use printed::Printed;
use std::alloc::{AllocError, Global};
use std::io;
use std::io::{Input, Write};
use std::process::ExitCode;
use std::rt::Files;
use std::sync::Wait;
use std::thread::Threads;
use std::time::Clock;

/// What stands before a request.
const MARK: &str = "$ ";

/// What stands before the words of a command line, between spaces. Its files are those of the folder `data`.
const WORDS: &str = "words ";

/// What stands before a request whose output takes nothing.
const FULL: &str = "full ";

/// What stands before a request whose output fails at its end.
const STUCK: &str = "stuck ";

/// What stands before a request whose output is marked.
const MARKED: &str = "marked ";

/// What stands before a request whose reads and writes fail.
const FAILING: &str = "failing ";

/// What stands before a request whose file is cut.
const CUT: &str = "cut ";

/// An output with a line where it was asked to pass on what it took, if it took anything since the last one.
#[derive(Drop)]
struct Marked {
    taken: Vec<u8>,
    /// How many bytes were passed on, the mark among them.
    passed: usize,
}

impl Write for Marked {
    fn write(&mut self, buf: &[u8]) -> io::Result<usize> {
        self.taken.extend_from_slice(buf)?;
        Ok(buf.len())
    }

    fn flush(&mut self) -> io::Result<()> {
        if self.passed < self.taken.len() {
            self.taken.extend_from_slice(b"~\n")?;
            self.passed = self.taken.len();
        }
        Ok(())
    }
}

/// An output that fails.
#[derive(Drop)]
enum Broken {
    /// It takes nothing.
    Full,
    /// It fails when it is asked to pass on what it took.
    Stuck,
}

impl Write for Broken {
    fn write(&mut self, buf: &[u8]) -> io::Result<usize> {
        match self {
            Broken::Full => Err(io::Error::from(io::ErrorKind::StorageFull)),
            Broken::Stuck => Ok(buf.len()),
        }
    }

    fn flush(&mut self) -> io::Result<()> {
        match self {
            Broken::Full => Ok(()),
            Broken::Stuck => Err(io::Error::from(io::ErrorKind::StorageFull)),
        }
    }
}

/// The words of a command line, after the program's name.
fn words_of(alloc: Global, line: &str) -> Result<Vec<String>, AllocError> {
    let mut words = Vec::new(alloc);
    words.push(String::from_str(alloc, "bpf_host")?)?;
    for word in line.split(' ') {
        words.push(String::from_str(alloc, word)?)?;
    }
    Ok(words)
}

impl Printed {
    /// Does what the words of a command line ask for.
    fn command<R: AllocGlobal + Clock + Files + Threads + Wait + Sync>(
        &mut self,
        rt: &R,
        line: &str,
    ) -> Result<u8, FileFault> {
        let alloc = rt.alloc();
        let words = words_of(alloc, line)?;
        let progress = Progress::new(rt, Vec::new(alloc), false);
        answer_words(
            rt,
            words.as_slice(),
            &mut self.output,
            &mut self.words,
            progress,
        )
    }

    /// Does what a request asks for, into an output of its own kind.
    fn answer_into<R: AllocGlobal + Threads + Wait + Sync, W: Write>(
        &mut self,
        rt: &R,
        line: &str,
        below: &str,
        output: &mut W,
    ) -> Result<u8, FileFault> {
        Asked::of(line).answer(rt, &mut below.as_bytes(), output, &mut self.words)
    }

    /// Does what a request asks for, into an output that is marked.
    fn marked<R: AllocGlobal + Threads + Wait + Sync>(
        &mut self,
        rt: &R,
        line: &str,
        below: &str,
    ) -> Result<u8, FileFault> {
        let mut output = Marked {
            taken: Vec::new(rt.alloc()),
            passed: 0,
        };
        let answer = self.answer_into(rt, line, below, &mut output);
        self.output = output.taken;
        answer
    }

    /// Does what a request asks for, whose line after the mark and the lines below are given.
    fn answer<R: AllocGlobal + Clock + Files + Threads + Wait + Sync>(
        &mut self,
        rt: &R,
        line: &str,
        below: &str,
    ) -> Result<u8, FileFault> {
        if let Some(words) = line.strip_prefix(WORDS) {
            self.command(rt, words)
        } else if let Some(line) = line.strip_prefix(MARKED) {
            self.marked(rt, line, below)
        } else if let Some(line) = line.strip_prefix(FULL) {
            self.answer_into(rt, line, below, &mut Broken::Full)
        } else if let Some(line) = line.strip_prefix(STUCK) {
            self.answer_into(rt, line, below, &mut Broken::Stuck)
        } else {
            self.take(rt, Asked::of(plain(line)), &mut below.as_bytes())
        }
    }
}

/// A request without what says that it is to fail or that its file is to be cut.
fn plain(line: &str) -> &str {
    match line.strip_prefix(FAILING) {
        Some(line) => line,
        None => line.strip_prefix(CUT).unwrap_or(line),
    }
}

/// Prints the lines of some bytes, each after a mark.
fn print_lines(rt: &impl Print, mark: &str, bytes: &[u8]) -> io::Result<()> {
    for line in str::from_utf8(bytes).unwrap_or("no text").lines() {
        println!(rt; "{mark}{line}")?;
    }
    Ok(())
}

/// Prints what a request is answered, below the request.
fn print_printed(rt: &impl Print, head: &str, printed: &Printed) -> io::Result<()> {
    println!(rt; "{head}")?;
    print_lines(rt, "", printed.output.as_slice())?;
    print_lines(rt, "! ", printed.words.as_slice())
}

/// Prints the last line of an answer.
fn print_outcome(
    rt: &(impl AllocGlobal + Print),
    outcome: &Result<u8, FileFault>,
) -> io::Result<()> {
    match outcome {
        Ok(status) => println!(rt; "= {status}"),
        Err(fault) => print_fault(rt, fault),
    }
}

/// Prints a request and what it is answered. Answers the exit status that it would have.
fn print_answer<R: AllocGlobal + Clock + Files + Print + Threads + Wait + Sync>(
    rt: &R,
    head: &str,
    below: &str,
) -> io::Result<u8> {
    let line = head.strip_prefix(MARK).unwrap_or(head);
    let mut printed = Printed::new(rt.alloc());
    let outcome = printed.answer(rt, line, below);
    print_printed(rt, head, &printed)?;
    print_outcome(rt, &outcome)?;
    Ok(status_of(&outcome))
}

/// Prints the words of a fault.
fn print_fault(rt: &(impl AllocGlobal + Print), fault: &FileFault) -> io::Result<()> {
    let mut said = Vec::new(rt.alloc());
    write_fault(rt.alloc(), &mut said, fault)?;
    print!(rt;
        "= {}",
        str::from_utf8(said.as_slice()).unwrap_or("no text")
    )
}

/// The request whose lines are read: its first line, and those below it.
#[derive(Drop)]
struct Request {
    head: String,
    below: String,
}

impl Request {
    /// Takes one more line of the input. One that begins a request ends the one before, which is answered then.
    fn take<R: AllocGlobal + Clock + Files + Print + Threads + Wait + Sync>(
        &mut self,
        rt: &R,
        line: String,
    ) -> io::Result<()> {
        if !line.as_str().starts_with(MARK) {
            return self.take_below(line.as_str());
        }
        let ended = self.end(rt);
        self.head = line;
        ended
    }

    /// Takes a line below the first one.
    fn take_below(&mut self, line: &str) -> io::Result<()> {
        self.below.push_str(line)?;
        self.below.push('\n')?;
        Ok(())
    }

    /// Answers the request, where there is one.
    fn end<R: AllocGlobal + Clock + Files + Print + Threads + Wait + Sync>(
        &mut self,
        rt: &R,
    ) -> io::Result<()> {
        if !self.head.is_empty() {
            print_answer(rt, self.head.as_str(), self.below.as_str())?;
        }
        self.below.clear();
        Ok(())
    }
}

/// Answers the requests of the input, but for the last one.
fn answer_all<R: AllocGlobal + Clock + Files + Input + Print + Threads + Wait + Sync>(
    rt: &R,
    request: &mut Request,
) -> io::Result<()> {
    for line in rt.lines(rt.alloc()) {
        request.take(rt, line?)?;
    }
    Ok(())
}

fn main(rt: HostRuntime) -> io::Result<ExitCode> {
    let alloc = rt.alloc();
    let mut request = Request {
        head: String::new(alloc),
        below: String::new(alloc),
    };
    answer_all(&rt, &mut request)?;
    let last = print_answer(&rt, request.head.as_str(), request.below.as_str())?;
    Ok(ExitCode::from(last))
}
