//! The work of one thread: turns, or locks of a mutex.

ghost use Rattle.std.specs.Prelude.{◌≡◌, ◌≤◌, ℕ, length, slice_get, IfOk, IfSome};
ghost use Rattle.turn.specs.Seats.{IsIdle};

use host_types::{Fault, Options};
use page_table::Memory;
use std::alloc::Global;
use std::io;
use std::rt::Clock;
use std::sync::{Mutex, Wait};
use std::time::{Duration, Instant};
use turn::{Seat, Turn};

/// What a thread does again and again.
pub trait Job {
    fn work<R: Wait + Clock>(&mut self, rt: &R, count: u32);
}

/// Takes and gives the memory.
#[derive(Drop)]
pub struct Turns<'a> {
    pub turn: &'a Turn,
    pub seat: Seat,
    /// Whether each wait for the memory is timed, which takes longer than a turn.
    pub is_timed: bool,
    /// The longest of the waits that were timed.
    pub longest: Duration,
    ghost idle: { IsIdle turn.now seat },
}

/// Locks and unlocks the memory.
#[derive(Drop)]
pub struct Locks<'a> {
    pub memory: &'a Mutex<Memory>,
}

impl Job for Turns<'_> {
    fn work<R: Wait + Clock>(&mut self, rt: &R, count: u32) {
        for _turn in 0..count {
            if self.is_timed {
                let waited = timed_turn(rt, self.turn, &mut self.seat);
                self.longest = self.longest.max(waited.unwrap_or(Duration::ZERO));
            } else {
                turn(rt, self.turn, &mut self.seat);
            }
        }
    }
}

impl Job for Locks<'_> {
    fn work<R: Wait + Clock>(&mut self, rt: &R, count: u32) {
        for _turn in 0..count {
            drop(self.memory.lock(rt));
        }
    }
}

/// One turn, in which nothing is done.
fn turn(rt: &impl Wait, turn: &Turn, seat: &mut Seat)
    requires { IsIdle turn.now seat.old }
    ensures { IsIdle turn.now seat.new }
{
    let held = turn.take(rt, seat);
    turn.give(seat, held);
}

/// One turn, in which nothing is done: how long it was waited for.
fn timed_turn<R: Wait + Clock>(rt: &R, turn: &Turn, seat: &mut Seat) -> io::Result<Duration>
    requires { IsIdle turn.now seat.old }
    ensures { IsIdle turn.now seat.new }
{
    let start = Instant::now(rt)?;
    let held = turn.take(rt, seat);
    let waited = start.elapsed(rt);
    turn.give(seat, held);
    waited
}

/// A turn with four seats.
#[derive(Drop)]
pub struct Four {
    pub turn: Turn,
    pub seats: (Seat, Seat, Seat, Seat),
}

impl Four {
    /// A turn over a memory of four tenants without maps.
    pub fn new(alloc: Global) -> Result<Four, Fault>
        ensures first { IfOk result (λ four. IsIdle four.turn four.seats.0) }
        ensures second { IfOk result (λ four. IsIdle four.turn four.seats.1) }
        ensures third { IfOk result (λ four. IsIdle four.turn four.seats.2) }
        ensures fourth { IfOk result (λ four. IsIdle four.turn four.seats.3) }
    {
        let (turn, mut seats) = opened(alloc)?;
        let fourth = seats.remove(3);
        let third = seats.remove(2);
        let second = seats.remove(1);
        let first = seats.remove(0);
        Ok(Four {
            turn,
            seats: (first, second, third, fourth),
        })
    }
}

fn opened(alloc: Global) -> Result<(Turn, Vec<Seat>), Fault>
    ensures count { IfOk result (λ r. length r.1.items ≡ 4) }
    ensures idle { IfOk result (λ r. (t : ℕ) → IfSome (slice_get r.1.items t) (IsIdle r.0)) }
{
    let memory = Memory::new(alloc, 5, 4, Options::standard())?;
    let (turn, seats, _scanner, _host) = Turn::new(alloc, memory, 4)?;
    Ok((turn, seats))
}
