//! The words of `merging`.

use crate::{
    Asked, Parsed, VERSION, WrongWords, flag, parse, printed_of, required, said_of, usage,
};
use clap::Command;
use std::alloc::{AllocError, Global};

/// The program's name.
const NAME: &str = "merging";

/// A host file whose counters are to be drawn.
#[derive(Debug, Drop)]
pub struct ToDraw<'a> {
    pub path: &'a str,
    /// Whether the picture alone is to be written.
    pub svg: bool,
}

/// What the words of `merging` ask for, the program's name being the first of them.
pub fn drawn_of<'a>(alloc: Global, words: &'a [String]) -> Result<Asked<ToDraw<'a>>, WrongWords> {
    let matches = match parse(alloc, command(alloc), words)? {
        Parsed::Matches(matches) => matches,
        Parsed::Text(text) => return Ok(Asked::Text(text)),
        Parsed::Wrong => {
            let answered = printed_of(alloc, NAME, words).map_err(WrongWords::OutOfMemory)?;
            return Err(usage(said_of(alloc, command(alloc), answered.as_slice())));
        }
    };
    match matches.get_str("FILE") {
        Some(path) => Ok(Asked::Program(ToDraw {
            path,
            svg: matches.get_flag("svg"),
        })),
        None => Err(usage(String::from_str(alloc, "no FILE is given"))),
    }
}

fn command<'a>(alloc: Global) -> Result<Command<'a>, AllocError> {
    Command::new(alloc, NAME)
        .version(VERSION)
        .about("shows as an HTML page what merging does over the events of a host file")
        .arg(required(alloc, "FILE", "the host file"))?
        .arg(flag(alloc, "svg", "writes the picture alone"))
}
