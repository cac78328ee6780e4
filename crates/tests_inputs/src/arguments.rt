//! What a bench is asked for.

use std::rt::Env;
use std::{env, io};

/// The number that a bench's one argument is, if it is one: mostly of rounds.
pub fn rounds_of(rt: &(impl AllocGlobal + Env)) -> io::Result<Option<u32>> {
    match env::args(rt)?.nth(1) {
        Some(word) => Ok(word.as_str().parse().ok()),
        None => Ok(None),
    }
}
