use crate::answer::Answer;
use crate::handle::BpfHost;
use host_core::Reply;
use std::alloc::Global;

impl BpfHost {
    ghost use Rattle.host_handle.specs.Answered.{HasAnswer, RunsWhole, Steps};

    /// Makes a whole run of a loaded program.
    pub fn run(&mut self, alloc: Global, tenant: u32, program: u32, context: &[u8]) -> Answer
        ensures { HasAnswer (RunsWhole tenant program context.now) result self.old.owner.host self.new.owner.host }
    {
        let Some(mut host) = self.take(alloc) else {
            return Answer::Closed;
        };
        let reply = host.run(tenant, program, context);
        self.put(host);
        Answer::Replied(reply)
    }

    /// Makes steps of a tenant's open run, up to a limit.
    pub fn step(&mut self, alloc: Global, tenant: u32, steps: u64) -> Answer
        ensures { HasAnswer (Steps tenant steps) result self.old.owner.host self.new.owner.host }
    {
        let Some(mut host) = self.take(alloc) else {
            return Answer::Closed;
        };
        let last = host.make_steps(tenant, steps);
        self.put(host);
        Answer::Replied(last.unwrap_or(Reply::Stepped))
    }
}
