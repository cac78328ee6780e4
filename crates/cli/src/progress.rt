use engines::Watch;
use std::fmt;
use std::io::{self, Write};
use std::sync::atomic::{AtomicU64, Ordering};
use std::sync::{Mutex, Wait};
use std::time::{Clock, Duration, Instant};
use tenant_workers::{Gate, Passed};

/// How many visits are made between two looks at the clock.
const BETWEEN: u64 = 4096;

/// Prints on standard error, where that is a terminal, how far a long work is: in one line, which is written over.
#[derive(Drop)]
pub struct Progress<'a, R, E> {
    rt: &'a R,
    errors: E,
    /// When something is to be printed next. Nothing is printed where there is no terminal, or no clock.
    next: Option<Instant>,
    is_shown: bool,
}

impl<'a, R: Clock, E: Write> Progress<'a, R, E> {
    /// Nothing is printed in the first two seconds.
    pub fn new(rt: &'a R, errors: E, is_terminal: bool) -> Self {
        let next = if is_terminal { after(rt, 2000) } else { None };
        Progress {
            rt,
            errors,
            next,
            is_shown: false,
        }
    }

    /// Writes the line over the last one, if it is time.
    fn show(&mut self, answered: &impl fmt::Display) -> io::Result<()> {
        let Some(next) = self.next else {
            return Ok(());
        };
        if Instant::now(self.rt)? < next {
            return Ok(());
        }
        self.next = after(self.rt, 200);
        self.is_shown = true;
        write!(self.errors, "\r{answered}")?;
        self.errors.flush()
    }

    /// Takes the line away.
    fn hide(&mut self) -> io::Result<()> {
        if self.is_shown {
            self.is_shown = false;
            write!(self.errors, "\r\u{1b}[K")?;
            self.errors.flush()?;
        }
        Ok(())
    }
}

/// So many milliseconds from now.
fn after<R: Clock>(rt: &R, milliseconds: u64) -> Option<Instant> {
    Instant::now(rt)
        .ok()?
        .checked_add(Duration::from_millis(milliseconds))
}

/// How far an event is.
#[derive(Drop)]
struct Visits {
    event: usize,
    made: u32,
    count: u32,
}

impl fmt::Display for Visits {
    fn fmt<W: fmt::Write>(&self, f: &mut fmt::Formatter<W>) -> fmt::Result {
        let Visits { event, made, count } = self;
        write!(f, "event {event}: {made} of {count} visits")
    }
}

impl<'a, R: Clock, E: Write> Watch for Progress<'a, R, E> {
    fn see(&mut self, event: usize, made: u32, count: u32) {
        if u64::from(made) % BETWEEN == 0 {
            // What can't be printed is lost.
            let _ = self.show(&Visits { event, made, count });
        }
    }

    fn pass(&mut self) {
        let _ = self.hide();
    }
}

/// Prints how far the threads of plans are.
#[derive(Drop)]
pub struct Plans<'a, R, E> {
    progress: Mutex<Progress<'a, R, E>>,
    is_watched: bool,
    runs: Tally,
    visits: Tally,
}

/// How many of a number there were.
#[derive(Drop)]
struct Tally {
    made: AtomicU64,
    count: AtomicU64,
}

impl Tally {
    fn new() -> Tally {
        Tally {
            made: AtomicU64::new(0),
            count: AtomicU64::new(0),
        }
    }

    /// Counts one more, and says how many there were.
    fn add(&self) -> u64 {
        self.made.fetch_add(1, Ordering::SeqCst).saturating_add(1)
    }
}

impl fmt::Display for Tally {
    fn fmt<W: fmt::Write>(&self, f: &mut fmt::Formatter<W>) -> fmt::Result {
        let made = self.made.load(Ordering::SeqCst);
        let count = self.count.load(Ordering::SeqCst);
        write!(f, "{made} of {count}")
    }
}

/// How far runs and visits are.
#[derive(Drop)]
struct Both<'a> {
    runs: &'a Tally,
    visits: &'a Tally,
}

impl<'a> fmt::Display for Both<'a> {
    fn fmt<W: fmt::Write>(&self, f: &mut fmt::Formatter<W>) -> fmt::Result {
        let Both { runs, visits } = self;
        write!(f, "{runs} runs ended, {visits} visits")
    }
}

impl<'a, R: Clock, E: Write> Plans<'a, R, E> {
    pub fn new(progress: Progress<'a, R, E>) -> Self {
        Plans {
            is_watched: progress.next.is_some(),
            progress: Mutex::new(progress),
            runs: Tally::new(),
            visits: Tally::new(),
        }
    }

    fn show<T: Wait>(&self, rt: &T) {
        let both = Both {
            runs: &self.runs,
            visits: &self.visits,
        };
        let _ = self.progress.lock(rt).show(&both);
    }
}

impl<'a, R: Clock, E: Write> Gate for Plans<'a, R, E> {
    fn at<T: Wait>(&self, _rt: &T, _tenant: u32, _slot: u32) {}

    fn is_open(&self) -> bool {
        true
    }

    fn pass<T: Wait>(&self, rt: &T, passed: Passed) {
        if !self.is_watched {
            return;
        }
        match passed {
            Passed::Start { runs, visits } => {
                self.runs.count.store(runs, Ordering::SeqCst);
                self.visits.count.store(u64::from(visits), Ordering::SeqCst);
            }
            Passed::Run => {
                self.runs.add();
                self.show(rt);
            }
            Passed::Visit => {
                if self.visits.add() % BETWEEN == 0 {
                    self.show(rt);
                }
            }
            Passed::End => {
                let _ = self.progress.lock(rt).hide();
            }
        }
    }
}
