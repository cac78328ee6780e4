use crate::structs::{BpfHostCounters, BpfHostRefused, BpfHostRun};
use host_core::Reply;

/// What a call comes to.
#[derive(Drop)]
pub enum Answer {
    /// Nothing happened: the handle is closed.
    Closed,
    /// The host replied.
    Replied(Reply),
}

impl Answer {
    ghost use Rattle.std.specs.Prelude.{◌≡◌};
    ghost use Rattle.host_handle.specs.Codes.{call_code, new_map_number, new_program_number, run_written, ended_written, counters_written, refused_written};

    /// The number that the call returns.
    pub fn code(&self) -> u32
        ensures { result ≡ call_code self.now }
    {
        match self {
            Answer::Closed => 100,
            Answer::Replied(Reply::Refused(fault)) => fault.number(),
            Answer::Replied(_) => 0,
        }
    }

    /// Writes the number of a map that was made.
    pub fn write_map(&self, map: &mut u32)
        ensures { map.new ≡ new_map_number self.now map.old }
    {
        if let Answer::Replied(Reply::Map(number)) = self {
            *map = *number;
        }
    }

    /// Writes the number of a program that was loaded.
    pub fn write_program(&self, program: &mut u32)
        ensures { program.new ≡ new_program_number self.now program.old }
    {
        if let Answer::Replied(Reply::Program(number)) = self {
            *program = *number;
        }
    }

    /// Writes what a run returned that ended, and how many steps it made.
    pub fn write_run(&self, run: &mut BpfHostRun)
        ensures { run.new ≡ run_written self.now run.old }
    {
        if let Answer::Replied(Reply::Ended { ret, steps }) = self {
            run.ret = *ret;
            run.steps = *steps;
        }
    }

    /// Writes whether a run ended, where its last step wasn't refused.
    pub fn write_ended(&self, ended: &mut bool)
        ensures { ended.new ≡ ended_written self.now ended.old }
    {
        match self {
            Answer::Replied(Reply::Ended { .. }) => *ended = true,
            Answer::Replied(Reply::Stepped) => *ended = false,
            _ => {}
        }
    }

    /// Writes the counters.
    pub fn write_counters(&self, counters: &mut BpfHostCounters)
        ensures { counters.new ≡ counters_written self.now counters.old }
    {
        if let Answer::Replied(Reply::Counters(counted)) = self {
            counters.full_scans = counted.full_scans;
            counters.pages_shared = counted.pages_shared;
            counters.pages_sharing = counted.pages_sharing;
            counters.pages_unshared = counted.pages_unshared;
            counters.pages_volatile = counted.pages_volatile;
            counters.ksm_zero_pages = counted.ksm_zero_pages;
            counters.stable_node_chains = counted.stable_node_chains;
            counters.stable_node_dups = counted.stable_node_dups;
            counters.frames_free = counted.frames_free;
        }
    }

    /// Writes what a refusal says beside its number.
    pub fn write_refused(&self, refused: &mut BpfHostRefused)
        ensures { refused.new ≡ refused_written self.now refused.old }
    {
        if let Answer::Replied(Reply::Refused(fault)) = self {
            refused.write(fault);
        }
    }
}
