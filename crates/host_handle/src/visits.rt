ghost use Rattle.host_handle.specs.Answered.{Goes, VisitsAndCounts};

use crate::answer::Answer;
use crate::handle::BpfHost;
use host_core::{Event, Host, Reply};
use std::alloc::Global;

impl BpfHost {
    ghost use Rattle.host_handle.specs.Answered.{HasAnswer, VisitsAndCounts};

    /// Lets the scanner visit so many pages, and counts.
    pub fn visit(&mut self, alloc: Global, visits: u32) -> Answer
        ensures { HasAnswer (VisitsAndCounts visits) result self.old.owner.host self.new.owner.host }
    {
        let Some(mut host) = self.take(alloc) else {
            return Answer::Closed;
        };
        let reply = visit_all(&mut host, visits);
        self.put(host);
        Answer::Replied(reply)
    }
}

/// Visits pages, and counts.
fn visit_all(host: &mut Host, visits: u32) -> Reply
    ensures { Goes (VisitsAndCounts visits result) host.old host.new }
{
    for _ in 0..visits {
        host.apply(&Event::Visit);
    }
    host.apply(&Event::Counters)
}
