//! Counts of verdicts.

use std::io;

/// What is said of a text.
#[derive(Clone, Copy)]
pub(crate) enum Verdict {
    /// The decoder refuses it.
    NoProgram,
    Accepted,
    Refused { number: u32, slot: u32 },
}

/// How many refusals of each number there have to be, so that each rule is asked.
const FEW: u32 = 16;

/// How many texts have to be accepted, and how many verified past their first six slots.
const MANY: u32 = 512;

/// How many texts got which verdict.
#[derive(Drop)]
pub(crate) struct Tally {
    no_program: u32,
    accepted: u32,
    refused: [u32; 26],
    beyond: u32,
}

impl Tally {
    /// Before any text.
    pub(crate) fn new() -> Tally {
        Tally {
            no_program: 0,
            accepted: 0,
            refused: [0; 26],
            beyond: 0,
        }
    }

    /// Counts a verdict.
    pub(crate) fn count(&mut self, verdict: Verdict) {
        match verdict {
            Verdict::NoProgram => self.no_program = self.no_program.saturating_add(1),
            Verdict::Accepted => {
                self.accepted = self.accepted.saturating_add(1);
                self.beyond = self.beyond.saturating_add(1);
            }
            Verdict::Refused { number, slot } => {
                self.count_refused(number);
                self.beyond = self.beyond.saturating_add(u32::from(slot > 5));
            }
        }
    }

    /// Counts a refusal.
    fn count_refused(&mut self, number: u32) {
        if let Some(count) = self.refused.get_mut(number as usize) {
            *count = count.saturating_add(1);
        }
    }

    /// Whether each rule was named, and many texts went beyond their first six slots and to their end.
    fn is_wide(&self) -> bool {
        self.refused.iter().skip(11).all(|count| *count >= FEW)
            && self.accepted >= MANY
            && self.beyond >= MANY
    }

    /// Prints the counts.
    pub(crate) fn print(&self, rt: &impl Print) -> io::Result<()> {
        let Tally {
            no_program,
            accepted,
            beyond,
            ..
        } = self;
        println!(rt; "{no_program} are no programs, {accepted} are accepted")?;
        for number in 11..26 {
            println!(rt; "refused {number}: {}", self.refused[number])?;
        }
        println!(rt; "{beyond} go beyond slot 5")?;
        if self.is_wide() {
            println!(rt; "each rule is named by {FEW} or more, and {MANY} or more are accepted")
        } else {
            println!(rt; "too few texts of a kind")
        }
    }
}
