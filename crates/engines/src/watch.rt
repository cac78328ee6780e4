/// Is given the progress of a long event, for people who wait. What it does with that changes no answer.
pub trait Watch {
    /// So many of an event's visits were made, of how many. The event is named by its number in the file.
    fn see(&mut self, event: usize, made: u32, count: u32);

    /// The event's visits are all made.
    fn pass(&mut self);
}

/// Nobody waits.
#[derive(Clone, Copy, Drop)]
pub struct Unwatched;

impl Watch for Unwatched {
    fn see(&mut self, _event: usize, _made: u32, _count: u32) {}

    fn pass(&mut self) {}
}
