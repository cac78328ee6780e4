//! The words of `lower`.

use crate::{
    Asked, Parsed, VERSION, WrongWords, context, flag, parse, printed_of, required, said_of,
    shapes, usage,
};
use clap::Command;
use std::alloc::{AllocError, Global};

/// The program's name.
const NAME: &str = "lower";

/// A program that is to be lowered, for maps of these shapes and a context of a size. The words are as they were given.
#[derive(Debug, Drop)]
pub struct ToLower<'a> {
    pub hex: &'a str,
    pub shapes: Vec<&'a str>,
    pub context: &'a str,
    /// Whether the slots and the copies of loops are to be counted.
    pub stats: bool,
}

/// What the words of `lower` ask for, the program's name being the first of them.
pub fn lowered_of<'a>(
    alloc: Global,
    words: &'a [String],
) -> Result<Asked<ToLower<'a>>, WrongWords> {
    let matches = match parse(alloc, command(alloc), words)? {
        Parsed::Matches(matches) => matches,
        Parsed::Text(text) => return Ok(Asked::Text(text)),
        Parsed::Wrong => {
            let answered = printed_of(alloc, NAME, words).map_err(WrongWords::OutOfMemory)?;
            return Err(usage(said_of(alloc, command(alloc), answered.as_slice())));
        }
    };
    let Some(hex) = matches.get_str("HEX") else {
        return Err(usage(String::from_str(alloc, "no HEX is given")));
    };
    let shapes = matches.get_strs("V:E").unwrap_or(&[]);
    Ok(Asked::Program(ToLower {
        hex,
        shapes: shapes.to_vec(alloc).map_err(WrongWords::OutOfMemory)?,
        context: matches.get_str("context").unwrap_or("0"),
        stats: matches.get_flag("stats"),
    }))
}

fn command<'a>(alloc: Global) -> Result<Command<'a>, AllocError> {
    let program = "the program, as hex text, or @FILE: its bytes or hex text";
    let stats = "tells the slots before and after, and the copies of each loop";
    let args = [
        required(alloc, "HEX", program),
        shapes(alloc),
        context(alloc),
        flag(alloc, "stats", stats),
    ];
    Command::new(alloc, NAME)
        .version(VERSION)
        .about("makes a program with the same runs that the verifier accepts")
        .args(Vec::from_array(alloc, args)?)
}
