//! What the counters are over the events of a host file.

use crate::thinned::Thinned;
use engines::write_reply;
use host_core::{Event, Host, Reply};
use host_file::{Command, HostFile};
use host_types::{Fault, Opt};
use ksm_counters::Counters;
use std::alloc::{AllocError, Global};

/// The most points of one event's visits.
const MOST_OF_EVENT: u32 = 256;

/// The most bytes of an answer that are kept.
const MOST_OF_ANSWER: usize = 96;

/// What is known after a step: an event, or some visits of one.
#[derive(Drop)]
pub struct Point {
    /// The number of the event in the file; none at the beginning.
    pub event: Option<usize>,
    /// Of an event's visits how many are made, and how many there are.
    pub visits: Option<(u32, u32)>,
    /// The lines of the event's reply, but for counters.
    pub answer: Vec<u8>,
    pub counters: Counters,
}

/// The counters over the events of a host file, from the beginning on.
#[derive(Drop)]
pub struct History {
    pub points: Vec<Point>,
    /// How many steps were made, the beginning among them, and of how many one has a point.
    pub steps: u64,
    pub stride: u64,
    /// How many events the file has.
    pub events: usize,
}

/// A host at work, and its history so far.
#[derive(Drop)]
struct Recorder {
    alloc: Global,
    host: Host,
    pages_to_scan: u32,
    /// How many runs each tenant has begun.
    begun: Vec<u64>,
    points: Thinned<Point>,
}

/// Replays a host file. The fault is that of the host itself, or `OutOfMemory`.
pub fn history_of(alloc: Global, file: &HostFile) -> Result<History, Fault> {
    let host = Host::new(alloc, file.frames, file.tenants, file.options)?;
    match replayed(alloc, host, file) {
        Ok(history) => Ok(history),
        Err(AllocError) => Err(Fault::OutOfMemory),
    }
}

/// Replays a host file on its new host.
fn replayed(alloc: Global, host: Host, file: &HostFile) -> Result<History, AllocError> {
    let commands = file.commands.as_slice();
    let mut recorder = Recorder::new(alloc, host, file)?;
    match recorder.perform_all(commands) {
        Ok(()) => recorder.history(commands.len()),
        Err(error) => Err(error),
    }
}

/// No run that a tenant has begun, of each.
fn none_begun(alloc: Global, tenants: u32) -> Result<Vec<u64>, AllocError> {
    let mut begun = Vec::new(alloc);
    for _tenant in 0..tenants {
        begun.push(0)?;
    }
    Ok(begun)
}

impl Recorder {
    /// The new host of a file at work.
    fn new(alloc: Global, host: Host, file: &HostFile) -> Result<Self, AllocError> {
        let begun = none_begun(alloc, file.tenants)?;
        Ok(Recorder {
            alloc,
            host,
            pages_to_scan: file.options.pages_to_scan,
            begun,
            points: Thinned::new(alloc),
        })
    }

    /// The history of a file of so many events. The host is dropped before what may fail.
    fn history(self, events: usize) -> Result<History, AllocError> {
        let Recorder { points, .. } = self;
        let (points, steps, stride) = points.finish()?;
        Ok(History {
            points,
            steps,
            stride,
            events,
        })
    }

    /// Performs commands in their order, and notes the counters before them and after each.
    fn perform_all(&mut self, commands: &[Command]) -> Result<(), AllocError> {
        self.note(None, None, Vec::new(self.alloc))?;
        for (number, command) in commands.iter().enumerate() {
            self.perform(number, command)?;
        }
        Ok(())
    }

    /// Performs a command, that of the file's event of this number.
    fn perform(&mut self, number: usize, command: &Command) -> Result<(), AllocError> {
        let mut answer = Vec::new(self.alloc);
        match command {
            Command::Apply(event) => self.apply(event, &mut answer)?,
            Command::Step { tenant, count } => {
                self.make_steps(*tenant, u64::from(*count), &mut answer)?;
            }
            Command::Finish { tenant } => self.make_steps(*tenant, u64::MAX, &mut answer)?,
            Command::Run {
                tenant,
                program,
                context,
            } => self.run(*tenant, *program, context.as_slice(), &mut answer)?,
            Command::Visit { count } => {
                return self.visit(number, count.unwrap_or(self.pages_to_scan));
            }
        }
        self.note(Some(number), None, answer)
    }

    /// Applies an event.
    fn apply(&mut self, event: &Event, answer: &mut Vec<u8>) -> Result<(), AllocError> {
        let reply = self.host.apply(event);
        if let Some(tenant) = event.tenant() {
            self.count_run(tenant, &reply);
        }
        if let (
            Event::Set {
                option: Opt::PagesToScan,
                value,
            },
            Reply::Done,
        ) = (event, &reply)
        {
            self.pages_to_scan = *value;
        }
        self.note_reply(event, &reply, answer)
    }

    /// Opens a run, and makes its steps where it is open then.
    fn run(
        &mut self,
        tenant: u32,
        program: u32,
        context: &[u8],
        answer: &mut Vec<u8>,
    ) -> Result<(), AllocError> {
        let reply = self.host.begin(tenant, program, context);
        self.count_run(tenant, &reply);
        // The lines of this reply are those of a reply to a step.
        self.note_reply(&Event::Step { tenant }, &reply, answer)?;
        match reply {
            Reply::Begun => self.make_steps(tenant, u64::MAX, answer),
            _ => Ok(()),
        }
    }

    /// Counts a run of a tenant, where a reply says that it was begun.
    fn count_run(&mut self, tenant: u32, reply: &Reply) {
        if let Reply::Begun = reply {
            if let Some(count) = self.begun.get_mut(tenant as usize) {
                *count = count.saturating_add(1);
            }
        }
    }

    fn make_steps(
        &mut self,
        tenant: u32,
        limit: u64,
        answer: &mut Vec<u8>,
    ) -> Result<(), AllocError> {
        match self.host.make_steps(tenant, limit) {
            Some(reply) => self.note_reply(&Event::Step { tenant }, &reply, answer),
            None => Ok(()),
        }
    }

    /// Makes visits. Of many some have a point, evenly, the last one among them.
    fn visit(&mut self, number: usize, count: u32) -> Result<(), AllocError> {
        let each = count.div_ceil(MOST_OF_EVENT).max(1);
        for visit in 0..count {
            let _ = self.host.apply(&Event::Visit);
            let made = visit.saturating_add(1);
            if made % each == 0 || made == count {
                self.note(Some(number), Some((made, count)), Vec::new(self.alloc))?;
            }
        }
        if count == 0 {
            self.note(Some(number), Some((0, 0)), Vec::new(self.alloc))?;
        }
        Ok(())
    }

    /// Keeps the lines of a reply, but for counters: a point has those.
    fn note_reply(
        &mut self,
        event: &Event,
        reply: &Reply,
        answer: &mut Vec<u8>,
    ) -> Result<(), AllocError> {
        if let Reply::Counters(_) = reply {
            return Ok(());
        }
        let runs = match event.tenant() {
            Some(tenant) => self.begun.get(tenant as usize).copied().unwrap_or(0),
            None => 0,
        };
        match write_reply(answer, event, runs.saturating_sub(1), reply) {
            Ok(()) => {
                answer.truncate(MOST_OF_ANSWER);
                Ok(())
            }
            // Memory alone takes no more.
            Err(_) => Err(AllocError),
        }
    }

    /// Notes the counters after one more step.
    fn note(
        &mut self,
        event: Option<usize>,
        visits: Option<(u32, u32)>,
        answer: Vec<u8>,
    ) -> Result<(), AllocError> {
        let Reply::Counters(counters) = self.host.apply(&Event::Counters) else {
            return Ok(());
        };
        self.points.push(Point {
            event,
            visits,
            answer,
            counters,
        })
    }
}
