//! The words of `explain`.

use crate::{
    Asked, Parsed, VERSION, WrongWords, context, flag, option, parse, printed_of, required,
    said_of, shapes, usage,
};
use clap::Command;
use std::alloc::{AllocError, Global};

/// The program's name.
const NAME: &str = "explain";

/// A program that is to be explained, with maps of these shapes and a context of a size. The words are as they were
/// given.
#[derive(Debug, Drop)]
pub struct ToExplain<'a> {
    pub hex: &'a str,
    pub shapes: Vec<&'a str>,
    pub context: &'a str,
    /// The section or the function of an object file.
    pub section: Option<&'a str>,
    /// Whether all that is known is to be shown.
    pub all: bool,
    /// Whether the program is to be lowered first.
    pub lower: bool,
    /// Whether an HTML page is to be written.
    pub html: bool,
}

/// What the words of `explain` ask for, the program's name being the first of them.
pub fn explained_of<'a>(
    alloc: Global,
    words: &'a [String],
) -> Result<Asked<ToExplain<'a>>, WrongWords> {
    let matches = match parse(alloc, command(alloc), words)? {
        Parsed::Matches(matches) => matches,
        Parsed::Text(text) => return Ok(Asked::Text(text)),
        Parsed::Wrong => {
            let answered = printed_of(alloc, NAME, words).map_err(WrongWords::OutOfMemory)?;
            return Err(usage(said_of(alloc, command(alloc), answered.as_slice())));
        }
    };
    let Some(hex) = matches.get_str("HEX") else {
        return Err(usage(String::from_str(alloc, "no HEX is given")));
    };
    let shapes = matches.get_strs("V:E").unwrap_or(&[]);
    Ok(Asked::Program(ToExplain {
        hex,
        shapes: shapes.to_vec(alloc).map_err(WrongWords::OutOfMemory)?,
        context: matches.get_str("context").unwrap_or("0"),
        section: matches.get_str("section"),
        all: matches.get_flag("all"),
        lower: matches.get_flag("lower"),
        html: matches.get_flag("html"),
    }))
}

fn command<'a>(alloc: Global) -> Result<Command<'a>, AllocError> {
    let program = "the program, as hex text, or @FILE: its bytes, hex text, or an object file";
    let section = "the section or the function, where an object file has several";
    let args = [
        required(alloc, "HEX", program),
        shapes(alloc),
        context(alloc),
        option(alloc, "section", "NAME", section),
        flag(alloc, "all", "shows all that is known at each slot"),
        flag(alloc, "lower", "lowers the program first"),
        flag(alloc, "html", "writes an HTML page"),
    ];
    Command::new(alloc, NAME)
        .version(VERSION)
        .about("shows what the verifier knows at each instruction of a program")
        .args(Vec::from_array(alloc, args)?)
}
