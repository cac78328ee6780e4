//! What a request asks for.

use engines::Unwatched;
use engines::check::check;
use engines::replay::replay;
use host_file::FileFault;
use serving::serve_file;
use std::io::{Read, Write};
use std::sync::Wait;
use std::thread::Threads;
use tenant_workers::Open;

/// What stands before the words of a check.
const CHECK: &str = "check\t";

/// What is answered by an engine of the program.
#[derive(Clone, Copy)]
pub(crate) enum Asked<'a> {
    /// A check by its words, between tabs.
    Check(&'a str),
    Replay,
    Serve,
}

impl<'a> Asked<'a> {
    /// What a line asks for, after its mark.
    pub(crate) fn of(line: &'a str) -> Asked<'a> {
        match line.strip_prefix(CHECK) {
            Some(words) => Asked::Check(words),
            None if line.starts_with("serve") => Asked::Serve,
            None => Asked::Replay,
        }
    }

    /// Answers it. A check reads nothing.
    pub(crate) fn answer<T, R, W, E>(
        self,
        rt: &T,
        reader: &mut R,
        output: &mut W,
        words: &mut E,
    ) -> Result<u8, FileFault>
    where
        T: AllocGlobal + Threads + Wait + Sync,
        R: Read,
        W: Write,
        E: Write,
    {
        match self {
            Asked::Check(fields) => check_fields(rt, fields, output, words),
            Asked::Replay => replay(rt.alloc(), reader, output, words, &mut Unwatched),
            Asked::Serve => serve_file(rt, rt.alloc(), reader, output, words, &Open),
        }
    }
}

/// Makes a check by its words, between tabs: HEX, the context's size, and any V:E.
fn check_fields<W: Write, E: Write>(
    rt: &impl AllocGlobal,
    fields: &str,
    output: &mut W,
    words: &mut E,
) -> Result<u8, FileFault> {
    let alloc = rt.alloc();
    let mut fields = fields.split('\t');
    let hex = fields.next().unwrap_or("");
    let context = fields.next().unwrap_or("0");
    let shapes: Vec<&str> = fields.collect(alloc).map_err(FileFault::OutOfMemory)?;
    check(alloc, hex, shapes.as_slice(), context, output, words)
}
