//! The answer to a request.

use crate::stats::write_stats;
use command_line::{Asked, ToLower, lowered_of};
use engines::written;
use hex::encode;
use host_file::FileFault;
use lowered_text::{Copies, ProgramWords};
use lowering::Lowered;
use program_source::{Answers, hex_of, words_fault};
use std::alloc::Global;
use std::io::Write;
use std::rt::Files;

/// The program.
pub struct Lower;

impl Answers for Lower {
    fn name() -> &'static str {
        "lower"
    }

    /// Lowers the program that words name. The lowered text goes to the output, as hex; a refusal, and what stopped the
    /// lowering, to `errors`. The status is 1 for a refusal.
    fn answer<R, W, E>(
        rt: &R,
        words: &[String],
        output: &mut W,
        errors: &mut E,
    ) -> Result<u8, FileFault>
    where
        R: AllocGlobal + Files,
        W: Write,
        E: Write,
    {
        match lowered_of(rt.alloc(), words).map_err(words_fault)? {
            Asked::Program(asked) => lower_program(rt, &asked, output, errors),
            Asked::Text(text) => {
                written(writeln!(output, "{}", text.as_str().trim_end()))?;
                Ok(0)
            }
        }
    }
}

/// Lowers a program.
fn lower_program<R, W, E>(
    rt: &R,
    asked: &ToLower<'_>,
    output: &mut W,
    errors: &mut E,
) -> Result<u8, FileFault>
where
    R: AllocGlobal + Files,
    W: Write,
    E: Write,
{
    let alloc = rt.alloc();
    let hex = hex_of(rt, asked.hex)?;
    let words = ProgramWords {
        hex: hex.as_str(),
        shapes: asked.shapes.as_slice(),
        context: asked.context,
    };
    let Some(program) = words.lower(alloc, errors)? else {
        return Ok(1);
    };
    write_text(alloc, &program.lowered, output)?;
    if asked.stats {
        let copies = Copies {
            text: program.request.text.as_slice(),
            lowered: &program.lowered,
        };
        written(write_stats(alloc, &copies, errors))?;
    }
    Ok(0)
}

/// Writes a lowered text.
fn write_text<W: Write>(alloc: Global, lowered: &Lowered, output: &mut W) -> Result<(), FileFault> {
    let hex = encode(alloc, lowered.text.as_slice())?;
    written(writeln!(output, "{hex}"))
}
