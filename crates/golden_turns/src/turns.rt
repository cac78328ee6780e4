//! Turns of two tenants.

ghost use Rattle.std.specs.Prelude.{◌≡◌, IfOk};
ghost use Rattle.turn.specs.Seats.{IsIdle};

use crate::numbers::{grow, look, number, with_numbers};
use crate::print;
use host_types::{Fault, Options};
use std::alloc::Global;
use std::sync::Wait;
use std::thread::Threads;
use std::{io, thread};
use turn::{Seat, Turn};

/// Two tenants and four frames.
struct Two {
    turn: Turn,
    first: Seat,
    second: Seat,
}

fn two_tenants(alloc: Global) -> Result<Two, Fault>
    ensures first { IfOk result (λ two. IsIdle two.turn two.first) }
    ensures second { IfOk result (λ two. IsIdle two.turn two.second) }
{
    let memory = with_numbers(alloc, 4, 2, Options::standard())?;
    let (turn, mut seats, _scanner, _host) = Turn::new(alloc, memory, 2)?;
    let second = seats.remove(1);
    let first = seats.remove(0);
    Ok(Two {
        turn,
        first,
        second,
    })
}

/// A thousand turns.
fn add_thousand(rt: &impl Wait, turn: &Turn, mut seat: Seat) -> Seat
    requires { IsIdle turn.now seat }
    ensures { IsIdle turn.now result }
{
    for _turn in 0..1000 {
        grow(rt, turn, &mut seat, 1);
    }
    seat
}

/// What each seat sees at the end, and the first tenant's number in the memory that its seat gets.
fn numbers_at_end(rt: &impl Wait, turn: Turn, mut first: Seat, mut second: Seat) -> [Option<u64>; 3]
    requires first { IsIdle turn first }
    requires second { IsIdle turn second }
{
    let one = look(rt, &turn, &mut first);
    let other = look(rt, &turn, &mut second);
    let last = match turn.close(first) {
        Some(memory) => number(&memory, 0),
        None => None,
    };
    [one, other, last]
}

/// What each of two threads sees at the end that add 1 a thousand times, and the memory has then.
fn counted<R: AllocGlobal + Threads + Wait + Sync>(rt: &R) -> Result<[Option<u64>; 3], Fault> {
    let Two {
        turn,
        first,
        second,
    } = two_tenants(rt.alloc())?;
    let (first, second) = thread::join(
        rt,
        || add_thousand(rt, &turn, first),
        || add_thousand(rt, &turn, second),
    );
    Ok(numbers_at_end(rt, turn, first, second))
}

/// Whether a try wins. The memory is given back.
fn wins(turn: &Turn, seat: &mut Seat) -> bool
    requires { IsIdle turn.now seat.old }
    ensures { IsIdle turn.now seat.new }
{
    let Some(held) = turn.try_take(seat) else {
        return false;
    };
    turn.give(seat, held);
    true
}

/// Which tries win: the first seat's, the second's while the first has the memory, and after that.
fn tries(turn: &Turn, first: &mut Seat, second: &mut Seat) -> [bool; 3]
    requires first { IsIdle turn.now first.old }
    requires second { IsIdle turn.now second.old }
{
    let Some(held) = turn.try_take(first) else {
        return [false; 3];
    };
    let beside = wins(turn, second);
    turn.give(first, held);
    [true, beside, wins(turn, second)]
}

/// A `try_take` that never wins fulfils its contract, so this row rules it out.
fn tried(rt: &impl AllocGlobal) -> Result<[bool; 3], Fault> {
    let Two {
        turn,
        mut first,
        mut second,
    } = two_tenants(rt.alloc())?;
    Ok(tries(&turn, &mut first, &mut second))
}

pub(crate) fn print_rows<R>(rt: &R) -> io::Result<()>
where
    R: AllocGlobal + Print + Threads + Wait + Sync,
{
    print(rt, "each of two threads counts to a thousand", counted(rt))?;
    print(rt, "try_take_never_wins", tried(rt))
}
