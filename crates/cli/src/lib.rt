//! Does what the words of the command line of `bpf_host` ask for (docs/HOST.md): opens the file, and replays or serves it,
//! or checks a program.
#![tactic(auto)]

mod progress;

use command_line::{Request, WrongWords, request_of};
use engines::check::check;
use engines::replay::replay;
use host_file::FileFault;
use host_source::{name_file, open};
use progress::Plans;
pub use progress::Progress;
use serving::serve_file;
use std::io::Write;
use std::rt::Files;
use std::sync::Wait;
use std::thread::Threads;
use std::time::Clock;

/// Does what words ask for, the program's name being the first of them. What a refusal means goes to `errors`. Answers
/// the status 0 or 1, or the fault of status 2.
pub fn answer_words<R, W, E, P>(
    rt: &R,
    diagnostics: &[String],
    output: &mut W,
    errors: &mut E,
    mut progress: Progress<'_, R, P>,
) -> Result<u8, FileFault>
where
    R: AllocGlobal + Clock + Files + Threads + Wait + Sync,
    W: Write,
    E: Write,
    P: Write + Send + Drop,
{
    let alloc = rt.alloc();
    match request_of(alloc, diagnostics).map_err(words_fault)? {
        Request::Replay { path } => {
            let mut file = open(rt, path, errors)?;
            let answer = replay(alloc, &mut file, output, errors, &mut progress);
            name_file(alloc, errors, path, &mut file, answer)
        }
        Request::Serve { path } => {
            let mut file = open(rt, path, errors)?;
            let gate = Plans::new(progress);
            let answer = serve_file(rt, alloc, &mut file, output, errors, &gate);
            name_file(alloc, errors, path, &mut file, answer)
        }
        Request::Check {
            hex,
            shapes,
            context,
        } => check(alloc, hex, shapes.as_slice(), context, output, errors),
    }
}

/// The fault of words that ask for nothing.
fn words_fault(wrong: WrongWords) -> FileFault {
    match wrong {
        WrongWords::Usage(said) => FileFault::Usage(said),
        WrongWords::OutOfMemory(error) => FileFault::OutOfMemory(error),
    }
}
