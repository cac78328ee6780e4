//! Threads that sleep until a turn ends. That they are woken no contract says, since a call that may wait owes no
//! return; so they are counted, and a thread that sleeps for ever ends with the program.

ghost use Rattle.std.specs.Prelude.{◌≡◌, IfOk};
ghost use Rattle.std.specs.Arc.{arc_value};
ghost use Rattle.turn.specs.Seats.{IsIdle};

use crate::ends::{Three, three_tenants};
use crate::numbers::grow;
use crate::print;
use host_types::Fault;
use std::alloc::{AllocError, Global};
use std::hint::spin_loop;
use std::sync::atomic::{AtomicU64, Ordering};
use std::sync::{Arc, Wait};
use std::thread::Threads;
use std::{io, thread};
use turn::{Seat, Turn};

/// How often a number is looked at until a thread counts as one that sleeps for ever: for seconds.
const LOOKS: u32 = 200_000_000;

/// How long the memory is kept until whoever wants it sleeps.
const UNTIL_ASLEEP: u32 = 2_000_000;

/// How many rounds a sleeper has in which the memory is given just when it is about to sleep.
const ROUNDS: u64 = 20_000;

/// How many threads sleep while the memory is kept.
const SLEEPERS: u64 = 2;

/// What threads share: the turn, which round it is, and how many turns sleepers had.
#[derive(Drop)]
struct Game {
    turn: Turn,
    round: AtomicU64,
    turns: AtomicU64,
}

/// A seat at rest of a game.
#[derive(Drop)]
struct Player {
    game: Arc<Game, Global>,
    seat: Seat,
    ghost idle: { IsIdle (arc_value game).turn seat },
}

/// Whether a number gets as large as wanted, before it was looked at too often.
fn reaches(number: &AtomicU64, wanted: u64) -> bool {
    for _look in 0..LOOKS {
        if number.load(Ordering::SeqCst) >= wanted {
            return true;
        }
        spin_loop();
    }
    false
}

/// Lets some time go by.
fn pause(looks: u32) {
    for _look in 0..looks {
        spin_loop();
    }
}

impl Player {
    /// A turn in each of some rounds.
    fn sleep_often(mut self, rt: &impl Wait, rounds: u64) {
        for round in 0..rounds {
            if !reaches(&self.game.round, round + 1) {
                return;
            }
            self.sleep(rt);
        }
    }

    /// A turn, which is counted.
    fn sleep(&mut self, rt: &impl Wait) {
        grow(rt, &self.game.turn, &mut self.seat, 1);
        self.game.turns.fetch_add(1, Ordering::SeqCst);
    }
}

/// Three players of a game.
type Players = (Player, Player, Player);

/// A player of a game.
fn seated(game: &Arc<Game, Global>, seat: Seat) -> Result<Player, Fault>
    requires { IsIdle (arc_value game.now).turn seat }
{
    match Arc::try_clone(game) {
        Ok(game) => Ok(Player { game, seat }),
        Err(AllocError) => Err(Fault::OutOfMemory),
    }
}

/// A game of three.
fn new_game(alloc: Global) -> Result<Players, Fault> {
    let Three {
        turn,
        seats,
        scanner: _scanner,
        host: _host,
    } = three_tenants(alloc)?;
    let (first, second, third) = seats;
    let game = Game {
        turn,
        round: AtomicU64::new(0),
        turns: AtomicU64::new(0),
    };
    let Ok(game) = Arc::new(alloc, game) else {
        return Err(Fault::OutOfMemory);
    };
    Ok((
        seated(&game, first)?,
        seated(&game, second)?,
        seated(&game, third)?,
    ))
}

impl Player {
    /// Keeps the memory while others get into their turns, and answers how many had one when it was given, or
    /// when it was waited for so many for too long.
    fn keep(&mut self, rt: &impl Wait, looks: u32, round: u64, wanted: u64) -> u64 {
        let held = self.game.turn.take(rt, &mut self.seat);
        self.game.round.store(round, Ordering::SeqCst);
        pause(looks);
        self.game.turn.give(&mut self.seat, held);
        reaches(&self.game.turns, wanted);
        self.game.turns.load(Ordering::SeqCst)
    }
}

/// Starts a player's thread, which nobody joins, since it may sleep for ever.
fn start<R>(rt: R, player: Player, rounds: u64) -> Result<(), Fault>
where
    R: Threads + Wait + Copy + Send + 'static,
{
    match thread::spawn(&rt, move || player.sleep_often(&rt, rounds)) {
        Ok(_thread) => Ok(()),
        Err(_) => Err(Fault::OutOfMemory),
    }
}

/// How many of two threads are woken that sleep while the memory is kept: the first by its end, and the second
/// by the first.
fn woken<R>(rt: R) -> Result<u64, Fault>
where
    R: AllocGlobal + Threads + Wait + Copy + Send + 'static,
{
    let (mut keeper, first, second) = new_game(rt.alloc())?;
    start(rt, first, 1)?;
    start(rt, second, 1)?;
    Ok(keeper.keep(&rt, UNTIL_ASLEEP, 1, SLEEPERS))
}

/// In how many rounds a thread is woken, or doesn't fall asleep, that is about to sleep while the memory is given.
fn rounds_woken<R>(rt: R) -> Result<u64, Fault>
where
    R: AllocGlobal + Threads + Wait + Copy + Send + 'static,
{
    let (mut keeper, first, _second) = new_game(rt.alloc())?;
    start(rt, first, ROUNDS)?;
    let mut woken = 0u64;
    for round in 0..ROUNDS {
        let looks = (round * 7919 % 3000) as u32;
        woken = keeper.keep(&rt, looks, round + 1, round + 1);
        if woken <= round {
            break;
        }
    }
    Ok(woken)
}

/// Whether they were woken. Where they aren't, the rows after would wait for them.
pub(crate) fn print_rows<R>(rt: R) -> io::Result<bool>
where
    R: AllocGlobal + Print + Threads + Wait + Copy + Send + 'static,
{
    let woken = woken(rt);
    print(&rt, "sleepers that are woken", woken)?;
    let rounds = rounds_woken(rt);
    print(&rt, "rounds in which no ring is missed", rounds)?;
    Ok(woken == Ok(SLEEPERS) && rounds == Ok(ROUNDS))
}
