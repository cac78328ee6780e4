//! Measures memory: `arena ROUNDS` each call of an arena, `turn TURNS` a turn between threads, in rounds of so many.
//! Without these arguments nothing is measured or printed.
#![tactic(auto)]

mod arena;
mod calls;
mod jobs;
mod turns;

use arena::measure_arena;
use std::rt::Env;
use std::{env, io};
use turns::measure_turns;

/// What is measured.
#[derive(Clone, Copy)]
enum Measure {
    Arena,
    Turn,
}

impl Measure {
    /// The measure with a name.
    fn named(name: &str) -> Option<Measure> {
        match name {
            "arena" => Some(Measure::Arena),
            "turn" => Some(Measure::Turn),
            _ => None,
        }
    }

    /// The measure that the first argument names.
    fn asked(rt: &(impl AllocGlobal + Env)) -> io::Result<Option<Measure>> {
        match env::args(rt)?.nth(1) {
            Some(word) => Ok(Measure::named(word.as_str())),
            None => Ok(None),
        }
    }
}

/// The number that the second argument is.
fn count_of(rt: &(impl AllocGlobal + Env)) -> io::Result<Option<u32>> {
    match env::args(rt)?.nth(2) {
        Some(word) => Ok(word.as_str().parse().ok()),
        None => Ok(None),
    }
}

fn main(rt: HostRuntime) -> io::Result<()> {
    match (Measure::asked(&rt)?, count_of(&rt)?) {
        (Some(Measure::Arena), Some(rounds)) => measure_arena(&rt, rounds),
        (Some(Measure::Turn), Some(turns)) => measure_turns(&rt, turns),
        _ => Ok(()),
    }
}
