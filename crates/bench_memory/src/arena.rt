//! How long each call of an arena takes, on one frame after another of 62 among 64.

ghost use Rattle.std.specs.Prelude.{◌≡◌, length};

use crate::calls::{Call, made};
use frame_arena::FrameArena;
use std::alloc::{AllocError, Global};
use std::io;
use std::rt::Clock;
use std::time::Instant;

/// How many calls of one kind a round has.
const CALLS: u32 = 10_000;

/// The rows of the table.
const ROWS: [(&str, Call); 13] = [
    ("`read` of 8", Call::ReadEight),
    ("`read` of 4", Call::ReadFour),
    ("`read` of 1", Call::ReadOne),
    ("`write` of 8", Call::WriteEight),
    ("`write` of 1", Call::WriteOne),
    ("`get` of 64", Call::Get),
    ("`put` of 64", Call::Put),
    ("`same`, the same", Call::Same),
    ("`order`, the same", Call::Order),
    ("`is_zero`, zeros", Call::IsZero),
    ("`copy`", Call::Copy),
    ("`clear`", Call::Clear),
    ("`fingerprint`", Call::Fingerprint),
];

/// Makes the calls of a round; a number that comes from all their results.
fn made_all(arena: &mut FrameArena, call: Call) -> u64
    requires { length arena.old ≡ 64 }
    ensures { length arena.new ≡ 64 }
{
    let mut sum = 0u64;
    for number in 0..CALLS {
        sum = sum.wrapping_add(made(arena, call, number % 31));
    }
    sum
}

/// The nanoseconds of a call: the least of so many rounds, since others use the machine too.
fn time(rt: &impl Clock, arena: &mut FrameArena, call: Call, rounds: u32) -> io::Result<(f64, u64)>
    requires { length arena.old ≡ 64 }
    ensures { length arena.new ≡ 64 }
{
    let mut least = f64::INFINITY;
    let mut sum = 0;
    for _ in 0..rounds {
        let start = Instant::now(rt)?;
        sum = made_all(arena, call);
        let spent = start.elapsed(rt)?.as_secs_f64();
        least = least.min(spent * 1e9 / f64::from(CALLS));
    }
    Ok((least, sum))
}

/// The nanoseconds of making an arena of 4,096 frames and of letting it go.
fn time_of_new(rt: &impl Clock, alloc: Global, rounds: u32) -> io::Result<f64> {
    let mut least = f64::INFINITY;
    for _ in 0..rounds {
        let start = Instant::now(rt)?;
        if let Ok(arena) = FrameArena::new(alloc, 4096) {
            drop(arena);
        }
        least = least.min(start.elapsed(rt)?.as_secs_f64() * 1e9);
    }
    Ok(least)
}

/// Measures each call, and prints the table.
fn measure(
    rt: &(impl Clock + Print),
    alloc: Global,
    arena: &mut FrameArena,
    rounds: u32,
) -> io::Result<()>
    requires { length arena.old ≡ 64 }
{
    println!(rt; "| call | ns | kept |")?;
    println!(rt; "|---|---|---|")?;
    for (name, call) in ROWS {
        let (least, sum) = time(rt, arena, call, rounds)?;
        println!(rt; "| {name} | {least:.1} | {sum} |")?;
    }
    let least = time_of_new(rt, alloc, rounds)?;
    println!(rt; "| `new` of 4,096 frames | {least:.0} | |")?;
    Ok(())
}

/// Measures the calls of an arena in so many rounds.
pub(crate) fn measure_arena(
    rt: &(impl AllocGlobal + Clock + Print),
    rounds: u32,
) -> io::Result<()> {
    match FrameArena::new(rt.alloc(), 64) {
        Ok(mut arena) => measure(rt, rt.alloc(), &mut arena, rounds),
        Err(AllocError) => println!(rt; "no memory"),
    }
}
