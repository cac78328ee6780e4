//! The answer to a request.

use crate::history::history_of;
use crate::page::{Page, write_page};
use crate::picture::write_picture;
use command_line::{Asked, ToDraw, drawn_of};
use engines::{file_from, refuse, written};
use host_file::{FileFault, HostFile};
use host_source::{name_file, open};
use host_types::Fault;
use program_source::{Answers, words_fault};
use std::alloc::{AllocError, Global};
use std::io::Write;
use std::rt::Files;

/// The program.
pub struct Merging;

impl Answers for Merging {
    fn name() -> &'static str {
        "merging"
    }

    /// Replays the host file that words name, and writes the counters over its events. Why there is no host of a file goes to
    /// `errors`; the status is 1 then.
    fn answer<R, W, E>(
        rt: &R,
        words: &[String],
        output: &mut W,
        errors: &mut E,
    ) -> Result<u8, FileFault>
    where
        R: AllocGlobal + Files,
        W: Write,
        E: Write,
    {
        let alloc = rt.alloc();
        match drawn_of(alloc, words).map_err(words_fault)? {
            Asked::Program(asked) => {
                let mut file = open(rt, asked.path, errors)?;
                let read = file_from(alloc, &mut file);
                let read = name_file(alloc, errors, asked.path, &mut file, read)?;
                let drawn = draw(alloc, &asked, &read, output, errors);
                name_file(alloc, errors, asked.path, &mut file, drawn)
            }
            Asked::Text(text) => {
                written(writeln!(output, "{}", text.as_str().trim_end()))?;
                Ok(0)
            }
        }
    }
}

/// Replays a host file, and writes its page or its picture.
fn draw<W: Write, E: Write>(
    alloc: Global,
    asked: &ToDraw<'_>,
    file: &HostFile,
    output: &mut W,
    errors: &mut E,
) -> Result<u8, FileFault> {
    let history = match history_of(alloc, file) {
        Ok(history) => history,
        Err(Fault::OutOfMemory) => return Err(FileFault::OutOfMemory(AllocError)),
        Err(fault) => {
            refuse(file, fault, output, errors)?;
            return Ok(1);
        }
    };
    if asked.svg {
        written(write_picture(output, &history))?;
    } else {
        let page = Page {
            alloc,
            path: asked.path,
            file,
            history: &history,
        };
        written(write_page(output, &page))?;
    }
    Ok(0)
}
