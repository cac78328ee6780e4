//! What is said of an object file's program that the verifier doesn't accept, also when it is lowered: for `bpf_object`, and for the
//! call of the library that reads an object file.
#![tactic(auto)]

use engines::check::{CheckRequest, answer_request};
use engines::written;
use host_file::FileFault;
use host_types::Bytes;
use lowered_text::{write_refused, write_stop};
use lowering::{NotLowered, Stop};
use object_file::ShownLine;
use object_text::{ObjectLines, ObjectText, text_with_lines};
use std::alloc::{AllocError, Global};

/// A program of an object file: the file's bytes, and the name that chooses it where there are several.
#[derive(Clone, Copy)]
pub struct Chosen<'a> {
    pub file: &'a [u8],
    pub name: Option<&'a str>,
}

/// The request to verify an object's program.
pub fn request_of(
    alloc: Global,
    object: &ObjectText,
    context_size: u32,
) -> Result<CheckRequest, AllocError> {
    let mut shapes = Vec::new(alloc);
    for map in &object.maps {
        shapes.push(Some(map.shape))?;
    }
    Ok(CheckRequest {
        text: Bytes::from(object.text.clone()?),
        shapes,
        context_size,
    })
}

/// What `check` says of a program, and then what stopped the lowering, with the lines of C of their slots. Nothing stopped it where
/// it wasn't tried, for the size of the context.
pub fn refusal_words(
    alloc: Global,
    chosen: &Chosen<'_>,
    request: &CheckRequest,
    stopped: Option<NotLowered>,
) -> Result<String, FileFault> {
    let mut verdict = Vec::new(alloc);
    let mut meant = Vec::new(alloc);
    let mut said = String::new(alloc);
    let Some(stopped) = stopped else {
        let _status = answer_request(alloc, request, &mut verdict, &mut meant)?;
        add(alloc, &mut said, verdict.as_slice(), &ShownLine(None))?;
        add(alloc, &mut said, meant.as_slice(), &ShownLine(None))?;
        return Ok(said);
    };
    if stopped.stop == Stop::OutOfMemory {
        return Err(FileFault::OutOfMemory(AllocError));
    }
    write_refused(alloc, request, &stopped, &mut verdict, &mut meant)?;
    let mut stop = Vec::new(alloc);
    written(write_stop(request.text.as_slice(), &stopped, &mut stop))?;
    let lines = lines_of(alloc, chosen)?;
    let line = shown_at(alloc, lines.as_ref(), Some(stopped.refused.slot))?;
    add(alloc, &mut said, verdict.as_slice(), &line)?;
    add(alloc, &mut said, meant.as_slice(), &ShownLine(None))?;
    let line = shown_at(alloc, lines.as_ref(), slot_of(stopped.stop))?;
    add(alloc, &mut said, stop.as_slice(), &line)?;
    Ok(said)
}

/// The lines of C of an object's program. Those that can't be read are left out.
fn lines_of<'a>(alloc: Global, chosen: &Chosen<'a>) -> Result<Option<ObjectLines<'a>>, AllocError> {
    match text_with_lines(alloc, chosen.file, chosen.name) {
        Ok(lines) => Ok(Some(lines)),
        Err(error) if error.is_out_of_memory() => Err(AllocError),
        Err(_) => Ok(None),
    }
}

/// The slot at which a lowering stopped: of a loop the jump back.
fn slot_of(stop: Stop) -> Option<u32> {
    match stop {
        Stop::Rule { refused, .. } => Some(refused.slot),
        Stop::Endless { last, .. } => Some(last),
        Stop::Nested { slot } => Some(slot),
        Stop::TooLong | Stop::Uncovered | Stop::OutOfMemory => None,
    }
}

/// The line of C of a slot.
fn shown_at(
    alloc: Global,
    lines: Option<&ObjectLines<'_>>,
    slot: Option<u32>,
) -> Result<ShownLine, AllocError> {
    match (lines, slot) {
        (Some(lines), Some(slot)) => lines.shown_at(alloc, slot as usize),
        _ => Ok(ShownLine(None)),
    }
}

/// Adds words in a line of their own, if there are any, with the line of C to which they belong.
fn add(alloc: Global, said: &mut String, words: &[u8], line: &ShownLine) -> Result<(), AllocError> {
    let words = str::from_utf8(words).unwrap_or("").trim_end();
    if words.is_empty() {
        return Ok(());
    }
    if !said.is_empty() {
        said.push('\n')?;
    }
    let line = format!(in alloc; "{words}{line}")?;
    said.push_str(line.as_str())
}
