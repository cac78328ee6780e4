//! How long a turn takes, alone and between threads, beside a mutex of std round another such memory.

ghost use Rattle.std.specs.Prelude.{◌≡◌};
ghost use Rattle.turn.specs.Seats.{IsIdle};

use crate::jobs::{Four, Job, Locks, Turns};
use host_types::Options;
use page_table::Memory;
use std::rt::Clock;
use std::sync::{Mutex, Wait};
use std::thread::Threads;
use std::time::{Duration, Instant};
use std::{io, thread};

/// How many rounds there are of each row. Its time is the one in the middle.
const ROUNDS: usize = 11;

/// How long so many turns take, where each job is done by a thread of its own.
fn time<R: Clock + Threads + Wait + Sync, J: Job + Send>(
    rt: &R,
    jobs: &mut [J],
    each: u32,
) -> io::Result<Duration> {
    let threads = jobs.len().max(1);
    let start = Instant::now(rt)?;
    thread::for_each_mut(
        rt,
        jobs,
        threads,
        &|_index: usize, job: &mut J| job.work(rt, each),
    );
    start.elapsed(rt)
}

/// The time in the middle, of a turn and of a lock, in nanoseconds.
fn middle<R: Clock + Threads + Wait + Sync>(
    rt: &R,
    turns: &mut [Turns<'_>],
    locks: &mut [Locks<'_>],
    each: u32,
) -> io::Result<[Duration; 2]> {
    let mut of_turns = [Duration::ZERO; ROUNDS];
    let mut of_locks = [Duration::ZERO; ROUNDS];
    for round in 0..ROUNDS {
        of_turns[round] = time(rt, turns, each)?;
        of_locks[round] = time(rt, locks, each)?;
    }
    of_turns.sort_unstable();
    of_locks.sort_unstable();
    Ok([of_turns[ROUNDS / 2], of_locks[ROUNDS / 2]])
}

/// The longest time that one of the threads waited for its turn. It is measured in a round of its own, since a look at the clock
/// takes longer than a turn.
fn longest_wait<R: Clock + Threads + Wait + Sync>(
    rt: &R,
    turns: &mut [Turns<'_>],
    each: u32,
) -> io::Result<Duration> {
    for job in turns.iter_mut() {
        job.is_timed = true;
    }
    time(rt, turns, each)?;
    for job in turns.iter_mut() {
        job.is_timed = false;
    }
    Ok(
        turns
            .iter()
            .fold(Duration::ZERO, |longest, job| longest.max(job.longest)),
    )
}

/// Prints the table, a row for each number of threads.
fn print_table<R: Print + Clock + Threads + Wait + Sync>(
    rt: &R,
    turns: &mut [Turns<'_>; 4],
    locks: &mut [Locks<'_>; 4],
    count: u32,
) -> io::Result<()> {
    println!(rt;
        "| threads | turn, ns | mutex, ns | times | turns a second, all threads | longest wait, us |"
    )?;
    println!(rt; "|---|---|---|---|---|---|")?;
    for threads in [1, 2, 4] {
        let each = count / (threads as u32);
        let middles = middle(rt, &mut turns[..threads], &mut locks[..threads], each)?;
        let [turn, lock] = middles.map(|time| time.as_secs_f64() * 1e9 / f64::from(count));
        let longest = longest_wait(rt, &mut turns[..threads], each)?;
        println!(rt;
            "| {threads} | {turn:.1} | {lock:.1} | {:.1} | {:.0} | {:.0} |",
            turn / lock,
            1e9 / turn,
            longest.as_secs_f64() * 1e6
        )?;
    }
    Ok(())
}

/// Measures the turn and a mutex round another such memory.
fn measure<R: Print + Clock + Threads + Wait + Sync>(
    rt: &R,
    four: Four,
    memory: &Mutex<Memory>,
    count: u32,
) -> io::Result<()>
    requires first { IsIdle four.turn four.seats.0 }
    requires second { IsIdle four.turn four.seats.1 }
    requires third { IsIdle four.turn four.seats.2 }
    requires fourth { IsIdle four.turn four.seats.3 }
{
    let Four { turn, seats } = four;
    let (first, second, third, fourth) = seats;
    let mut turns = [
        Turns {
            turn: &turn,
            seat: first,
            is_timed: false,
            longest: Duration::ZERO,
        },
        Turns {
            turn: &turn,
            seat: second,
            is_timed: false,
            longest: Duration::ZERO,
        },
        Turns {
            turn: &turn,
            seat: third,
            is_timed: false,
            longest: Duration::ZERO,
        },
        Turns {
            turn: &turn,
            seat: fourth,
            is_timed: false,
            longest: Duration::ZERO,
        },
    ];
    let mut locks = [
        Locks { memory },
        Locks { memory },
        Locks { memory },
        Locks { memory },
    ];
    print_table(rt, &mut turns, &mut locks, count)
}

/// Measures rounds of so many turns.
pub(crate) fn measure_turns<R: AllocGlobal + Print + Clock + Threads + Wait + Sync>(
    rt: &R,
    count: u32,
) -> io::Result<()> {
    let Ok(four) = Four::new(rt.alloc()) else {
        return println!(rt; "no memory");
    };
    match Memory::new(rt.alloc(), 5, 4, Options::standard()) {
        Ok(memory) => measure(rt, four, &Mutex::new(memory), count),
        Err(_) => println!(rt; "no memory"),
    }
}
