//! A host beside the plain host, over lists of events that a fixed generator draws: maps, loads, runs, steps,
//! visits, updates, options, unmergings, unloads and drops of 1 to 16 tenants. After each event both have to give the same
//! reply and to give the same counters, and after each list the same values. The file `stdout` says that they
//! do, and says of the lists how much happened in them.
#![tactic(auto)]

mod both;
mod events;
mod tally;

use both::Both;
use events::Events;
use std::alloc::{AllocError, Global};
use std::io;
use tally::Tally;

/// How many lists are drawn for each number of frames.
const LISTS: u32 = 8;

/// How many events a list has, 16,384 in all.
const EVENTS: u32 = 512;

/// Where both first differed.
#[derive(Clone, Copy, Drop)]
enum Outcome {
    /// Nowhere.
    Same,
    /// At an event of a list.
    Event { list: u32, number: u32 },
    /// In the values after a list.
    Values { list: u32 },
}

/// Lets the events of a list happen to both. It answers the number of the first one after which they differ.
fn first_wrong(
    alloc: Global,
    both: &mut Both,
    events: &mut Events,
    tally: &mut Tally,
) -> Result<Option<u32>, AllocError> {
    for number in 0..EVENTS {
        let event = events.next(alloc, both.was_refused())?;
        if !both.happens(&event, tally) {
            return Ok(Some(number));
        }
    }
    Ok(None)
}

/// How many tenants a list has.
fn tenants_of(list: u32) -> u32 {
    match list {
        0 => 1,
        1 | 4 => 2,
        2 => 3,
        3 => 4,
        5 => 6,
        6 => 10,
        _ => 16,
    }
}

/// Lets a list happen to a host and a plain host that are new.
fn outcome_of(
    alloc: Global,
    both: &mut Both,
    events: &mut Events,
    list: u32,
    tally: &mut Tally,
) -> Result<Outcome, AllocError> {
    match first_wrong(alloc, both, events, tally)? {
        Some(number) => Ok(Outcome::Event { list, number }),
        None if both.values_agree(tenants_of(list)) => Ok(Outcome::Same),
        None => Ok(Outcome::Values { list }),
    }
}

/// Makes a host and a plain host, and lets a list happen to them.
fn compare(
    alloc: Global,
    frames: u32,
    list: u32,
    tally: &mut Tally,
) -> Result<Outcome, AllocError> {
    let tenants = tenants_of(list);
    let seed = u64::from(frames) * 1000 + u64::from(list);
    let mut events = Events::new(seed, list, tenants);
    let options = events.options();
    match Both::new(alloc, frames, tenants, options)? {
        Some(mut both) => outcome_of(alloc, &mut both, &mut events, list, tally),
        None => Ok(Outcome::Values { list }),
    }
}

/// Lets all lists happen for a number of frames, up to the first that differs.
fn compare_all(alloc: Global, frames: u32, tally: &mut Tally) -> Result<Outcome, AllocError> {
    for list in 0..LISTS {
        match compare(alloc, frames, list, tally)? {
            Outcome::Same => {}
            other => return Ok(other),
        }
    }
    Ok(Outcome::Same)
}

/// Prints the lines for a number of frames.
fn print_lines(rt: &(impl AllocGlobal + Print), frames: u32) -> io::Result<()> {
    let mut tally = Tally::none();
    match compare_all(rt.alloc(), frames, &mut tally) {
        Ok(Outcome::Same) => {
            println!(rt; "{frames} frames: {LISTS} lists of {EVENTS} events agree")?;
            tally.print(rt)
        }
        Ok(Outcome::Event { list, number }) => {
            println!(rt; "{frames} frames: event {number} of list {list} differs")
        }
        Ok(Outcome::Values { list }) => {
            println!(rt; "{frames} frames: values after list {list} differ")
        }
        Err(AllocError) => println!(rt; "{frames} frames: no memory"),
    }
}

fn main(rt: HostRuntime) -> io::Result<()> {
    for frames in [2, 3, 4, 64] {
        print_lines(&rt, frames)?;
    }
    Ok(())
}
