//! Whole runs of a tenant, each in one call or many in one.
ghost use Rattle.std.specs.Prelude.{◌≡◌, ◌≤◌, ◌<◌, ◌+◌, ◌*◌, Some};

use crate::open_run::{ALL_STEPS, LOOP_OF_MANY, LOOP_OF_ONE};
use crate::reply::{Reply, Stopped};
use crate::tenant::{OpenRun, Tenant, program_of};
use host_types::Fault;
use page_table::Memory;
use tenant_runs::reopen_unreserved;
use verifier::Verified;

/// What stopped runs that are made on one context after the other.
#[derive(Clone, Copy)]
pub(crate) enum Stop {
    /// Nothing: each of them ended.
    AllEnded,
    /// The run on the context with this number asked for an update or a deletion, and goes on.
    Open(usize),
    /// The run on the context with this number wasn't begun.
    Refused(usize, Fault),
}

impl OpenRun {
    ghost use Rattle.std.specs.Prelude.{◌≡◌, ◌≤◌, ◌*◌, length, List, Option};
    ghost use Rattle.verifier.specs.Verified.{Accepted};
    ghost use Rattle.host_core.specs.WholeRuns.{IsReady, HasComeTo, HaveStopped};

    /// Makes a whole run of a tenant's program, as far as it goes without an update or a deletion: what it returned, if it ended. One that
    /// ended was never noted as open, and nothing was recorded as reserved for it: nobody could see that. The caller notes one that goes on.
    #[inline(always)]
    fn make_run<const LOOP: u8>(
        &mut self,
        program: &Verified,
        memory: &mut Memory,
        number: u32,
        context: &[u8],
    ) -> Result<Option<u64>, Fault>
        requires rests { (programs : List (Option Accepted)) × IsReady programs self.old.program program.now number memory.old }
        ensures program { self.new.program ≡ self.old.program }
        ensures made { (programs : List (Option Accepted)) → IsReady programs self.old.program program.now number memory.old
            → HasComeTo programs number self.old.program context.now memory.old result self.new memory.new }
    {
        memory.facts();
        if let Err(fault) = reopen_unreserved(memory, number, program, context, &mut self.run) {
            return Err(fault);
        }
        memory.facts();
        let ended = self.finish_started::<LOOP>(program, context, memory, number);
        memory.facts();
        Ok(ended)
    }

    /// Makes such runs on one context after the other, from the one with a number on, and writes what each returns, up to the first that
    /// doesn't end. The program is looked up once for all of them.
    #[inline(always)]
    fn make_runs(
        &mut self,
        program: &Verified,
        memory: &mut Memory,
        number: u32,
        contexts: &[u8],
        size: usize,
        rets: &mut [u64],
        from: usize,
    ) -> Stop
        requires sized { size * length rets.old ≡ length contexts.now }
        requires from { from ≤ length rets.old }
        requires rests { (programs : List (Option Accepted)) × IsReady programs self.old.program program.now number memory.old }
        ensures made { (programs : List (Option Accepted)) → IsReady programs self.old.program program.now number memory.old
            → HaveStopped programs number self.old.program contexts.now size rets.old from memory.old result self.new memory.new rets.new }
    {
        for index in from..rets.len() {
            let at = index * size;
            match self.make_run::<LOOP_OF_MANY>(program, memory, number, &contexts[at..at + size]) {
                Ok(Some(ret)) => rets[index] = ret,
                Ok(None) => return Stop::Open(index),
                Err(fault) => return Stop::Refused(index, fault),
            }
        }
        Stop::AllEnded
    }
}

impl Tenant {
    ghost use Rattle.host_core.specs.HostView.{IsKept, HasMadeRun, HasMadeSteps, steps_of};
    ghost use Rattle.host_core.specs.WholeRuns.{HasMadeRuns};
    ghost use Rattle.std.specs.Prelude.{length};

    /// Makes a whole run of a program, from its beginning to its end: the reply is that to its last step, or what refuses its
    /// beginning.
    #[inline(always)]
    pub(crate) fn run(
        &mut self,
        memory: &mut Memory,
        number: u32,
        program: u32,
        context: &[u8],
    ) -> Reply
        requires kept { IsKept number self.old memory.old }
        ensures { HasMadeRun number self.old memory.old program context.now result self.new memory.new }
    {
        memory.facts();
        if self.run.is_open {
            return Reply::Refused(Fault::Busy);
        }
        let Some(verified) = program_of(self.programs.as_slice(), program) else {
            return Reply::Refused(Fault::NoProgram);
        };
        let open = &mut self.run.latest;
        open.program = program;
        let made = open.make_run::<LOOP_OF_ONE>(verified, memory, number, context);
        let steps = open.run.steps();
        match made {
            Ok(Some(ret)) => Reply::Ended { ret, steps },
            Ok(None) => {
                self.run.is_open = true;
                self.last_reply(memory, number, ALL_STEPS - u64::from(steps))
            }
            Err(fault) => Reply::Refused(fault),
        }
    }

    /// Makes whole runs of a program on one context after the other, from the one with a number on, and writes what each returns: how many
    /// contexts are done then, or which run didn't end. It goes no further than a run that asks for an update or a deletion, since that one
    /// is noted as open.
    #[inline(always)]
    pub(crate) fn run_from(
        &mut self,
        memory: &mut Memory,
        number: u32,
        program: u32,
        contexts: &[u8],
        size: usize,
        rets: &mut [u64],
        from: usize,
    ) -> Result<usize, Stopped>
        requires sized { size * length rets.old ≡ length contexts.now }
        requires from { from < length rets.old }
        requires kept { IsKept number self.old memory.old }
        ensures { HasMadeRuns number self.old memory.old program contexts.now size rets.old from result self.new memory.new rets.new }
    {
        memory.facts();
        if self.run.is_open {
            return Err(Stopped::refused(from, Fault::Busy));
        }
        let Some(verified) = program_of(self.programs.as_slice(), program) else {
            return Err(Stopped::refused(from, Fault::NoProgram));
        };
        let open = &mut self.run.latest;
        open.program = program;
        let stop = open.make_runs(verified, memory, number, contexts, size, rets, from);
        let steps = open.run.steps();
        match stop {
            Stop::AllEnded => Ok(rets.len()),
            Stop::Open(index) => {
                self.run.is_open = true;
                match self.make_last_steps(memory, number, ALL_STEPS - u64::from(steps)) {
                    Reply::Ended { ret, steps: _ } => {
                        rets[index] = ret;
                        Ok(index + 1)
                    }
                    reply => Err(Stopped {
                        ended: index,
                        reply,
                    }),
                }
            }
            Stop::Refused(index, fault) => Err(Stopped::refused(index, fault)),
        }
    }

    /// Makes the steps that are left, as `make_last_steps`. A run that ended before has no memory for this reply to clear: it is this
    /// function's alone.
    #[inline(always)]
    fn last_reply(&mut self, memory: &mut Memory, number: u32, limit: u64) -> Reply
        requires some { 0 < limit }
        requires all { 4294967296 ≤ steps_of self.old.run + limit }
        requires kept { IsKept number self.old memory.old }
        ensures { HasMadeSteps number self.old memory.old limit (Some result) self.new memory.new }
    {
        match self.make_last_steps(memory, number, limit) {
            Reply::Ended { ret, steps } => Reply::Ended { ret, steps },
            last => last,
        }
    }

    /// Makes the steps that are left of the open run: the reply to the last one. The limit is one that the run doesn't reach.
    #[inline(never)]
    fn make_last_steps(&mut self, memory: &mut Memory, number: u32, limit: u64) -> Reply
        requires some { 0 < limit }
        requires all { 4294967296 ≤ steps_of self.old.run + limit }
        requires kept { IsKept number self.old memory.old }
        ensures { HasMadeSteps number self.old memory.old limit (Some result) self.new memory.new }
    {
        match self.make_steps(memory, number, limit) {
            Some(last) => last,
            None => unreachable!(),
        }
    }
}
