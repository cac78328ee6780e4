//! The program `bpf_host` (docs/HOST.md).
#![tactic(auto)]

use cli::{Progress, answer_words};
use engines::{status_of, words_from, write_fault};
use host_file::FileFault;
use std::alloc::AllocError;
use std::io::{self, BufWriter, IsTerminal, LineWriter, Write};
use std::process::ExitCode;
use std::rt::{Env, Files};
use std::sync::Wait;
use std::thread::Threads;
use std::time::Clock;

fn main(rt: HostRuntime) -> ExitCode {
    let stderr = rt.stderr();
    let mut errors = io::writer(&stderr);
    let progress = Progress::new(&rt, io::writer(&stderr), stderr.is_terminal());
    let outcome = run(&rt, rt.stdout().is_terminal(), &mut errors, progress);
    if let Err(fault) = &outcome {
        // The status says it too: the words may be lost.
        let _ = write_fault(rt.alloc(), &mut errors, fault);
    }
    ExitCode::from(status_of(&outcome))
}

/// Does what the command line asks for. What a refusal means goes to `errors`. On a terminal each line is written
/// when it is whole, else when many are. Answers the status 0 or 1, or the fault of status 2.
fn run<R, E, P>(
    rt: &R,
    is_terminal: bool,
    errors: &mut E,
    progress: Progress<'_, R, P>,
) -> Result<u8, FileFault>
where
    R: AllocGlobal + Clock + Env + Files + Print + Threads + Wait + Sync,
    E: Write,
    P: Write + Send + Drop,
{
    let alloc = rt.alloc();
    let words = words_from(rt)?;
    if is_terminal {
        let output = LineWriter::new(alloc, io::writer(rt));
        let mut output = output.map_err(|_| FileFault::OutOfMemory(AllocError))?;
        answer_words(rt, words.as_slice(), &mut output, errors, progress)
    } else {
        let output = BufWriter::new(alloc, io::writer(rt));
        let mut output = output.map_err(|_| FileFault::OutOfMemory(AllocError))?;
        answer_words(rt, words.as_slice(), &mut output, errors, progress)
    }
}
