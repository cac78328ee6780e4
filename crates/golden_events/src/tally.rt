//! What happened in some lists, by the replies and the counters of the host.

use host_core::{Event, Reply};
use host_types::Visited;
use std::io;

/// Above the number of any refusal.
const NUMBERS: usize = 46;

/// How many runs ended, how many pages came to share a frame in each way, how many of them got a frame of
/// their own by a write, how many unloads and drops there were and how many of them were done, and how many events
/// were refused by each number.
#[derive(Clone, Copy, Drop)]
pub(crate) struct Tally {
    ended: u32,
    joined: u32,
    paired: u32,
    zeroed: u32,
    parted: u32,
    unloads: u32,
    unloaded: u32,
    drops: u32,
    dropped: u32,
    refused: [u32; NUMBERS],
}

/// Adds one.
fn count(number: &mut u32) {
    *number = number.saturating_add(1);
}

/// Counts one, and whether it was done.
fn count_both(number: &mut u32, done: &mut u32, is_done: bool) {
    count(number);
    if is_done {
        count(done);
    }
}

/// How many pages share frames or lie on the zero frame, by the counters.
pub(crate) fn merged_pages(answered: &Reply) -> u32 {
    match answered {
        Reply::Counters(counters) => counters
            .pages_shared
            .saturating_add(counters.pages_sharing)
            .saturating_add(counters.ksm_zero_pages),
        _ => 0,
    }
}

impl Tally {
    pub(crate) fn none() -> Tally {
        Tally {
            ended: 0,
            joined: 0,
            paired: 0,
            zeroed: 0,
            parted: 0,
            unloads: 0,
            unloaded: 0,
            drops: 0,
            dropped: 0,
            refused: [0; NUMBERS],
        }
    }

    /// Counts the reply to an event.
    pub(crate) fn count(&mut self, event: &Event, reply: &Reply) {
        self.count_return(event, *reply == Reply::Done);
        match reply {
            Reply::Ended { .. } => count(&mut self.ended),
            Reply::Visited(visited) => self.count_visit(*visited),
            Reply::Refused(fault) => self.count_refusal(fault.number()),
            _ => {}
        }
    }

    /// Counts an unload or a drop, and whether it was done.
    fn count_return(&mut self, event: &Event, is_done: bool) {
        match event {
            Event::Unload { .. } => count_both(&mut self.unloads, &mut self.unloaded, is_done),
            Event::DropMap { .. } => count_both(&mut self.drops, &mut self.dropped, is_done),
            _ => {}
        }
    }

    /// Counts what a visit did.
    fn count_visit(&mut self, visited: Visited) {
        match visited {
            Visited::Joined => count(&mut self.joined),
            Visited::Paired => count(&mut self.paired),
            Visited::Zeroed => count(&mut self.zeroed),
            _ => {}
        }
    }

    /// Counts a refusal.
    fn count_refusal(&mut self, number: u32) {
        if let Some(refused) = self.refused.get_mut(number as usize) {
            count(refused);
        }
    }

    /// Counts the pages that a write gave frames of their own, by how many were merged before and after it.
    pub(crate) fn count_parted(&mut self, event: &Event, before: u32, after: u32) {
        if let Event::Step { .. } | Event::HostUpdate { .. } = event {
            self.parted = self.parted.saturating_add(before.saturating_sub(after));
        }
    }

    /// Prints three lines.
    pub(crate) fn print(&self, rt: &impl Print) -> io::Result<()> {
        println!(rt;
            "  {} runs ended; {} pages joined a group, {} were paired, {} zeroed, {} parted by writes",
            self.ended, self.joined, self.paired, self.zeroed, self.parted
        )?;
        println!(rt;
            "  {} of {} unloads and {} of {} drops were done",
            self.unloaded, self.unloads, self.dropped, self.drops
        )?;
        print!(rt; "  refusals by number:")?;
        for (number, count) in self.refused.iter().enumerate() {
            if *count > 0 {
                print!(rt; " {number}: {count},")?;
            }
        }
        println!(rt; " and no other")
    }
}
