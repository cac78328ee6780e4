use std::sync::Wait;

/// What is called while runs are made and pages are visited, always while no turn is held: so it may take turns of
/// its own.
pub trait Gate {
    /// Comes before each instruction of a run, with the tenant's number and the slot.
    fn at<R: Wait>(&self, rt: &R, tenant: u32, slot: u32);

    /// Whether `at` does nothing. Then steps that need no turn are made many at once, without it.
    fn is_open(&self) -> bool {
        false
    }

    /// Comes when a plan's threads have passed something, for those who wait. It changes no answer.
    fn pass<R: Wait>(&self, _rt: &R, _passed: Passed) {}
}

/// What the threads of a plan have passed.
#[derive(Clone, Copy)]
pub enum Passed {
    /// Nothing yet: they are to make so many runs and visits.
    Start { runs: u64, visits: u32 },
    /// A run, which has its reply.
    Run,
    /// A visit of the scanner.
    Visit,
    /// All: they have ended.
    End,
}

/// A gate that returns at once.
pub struct Open;

impl Gate for Open {
    fn at<R: Wait>(&self, _rt: &R, _tenant: u32, _slot: u32) {}

    fn is_open(&self) -> bool {
        true
    }
}
