ghost use Rattle.std.specs.Prelude.{◌≡◌, is_some};
ghost use Rattle.host_handle.specs.Codes.{copied_code};

use crate::answer::Answer;
use crate::loose::Loose;
use crate::owner::Owner;
use host_core::{Event, Host};
use host_types::{Fault, MapNo};
use std::alloc::Global;
use std::marker::Send;

/// A host that C holds, or a closed handle: all zeros are one.
#[repr(C)]
pub struct BpfHost {
    pub owner: Owner,
    is_open: bool,
    pub ghost known: { is_open ≡ is_some owner.host },
}

impl BpfHost {
    ghost use Rattle.std.specs.Prelude.{◌≡◌, ◌≢◌, MatchOption, Some, None, is_some};
    ghost use Rattle.host_types.specs.declared.event.Event.TheVariants.{Load, Begin, HostUpdate, HostLookup};
    ghost use Rattle.host_types.specs.declared.fault.Fault.TheVariants.{OutOfMemory};
    ghost use Rattle.host_core.specs.declared.reply.Reply.TheVariants.{Refused};
    ghost use Rattle.host_handle.specs.declared.answer.Answer.{Answer as CallAnswer};
    ghost use Rattle.host_handle.specs.declared.answer.Answer.TheVariants.{Replied};
    ghost use Rattle.host_handle.specs.Answered.{HasAnswer, Serves};
    ghost use Rattle.host_handle.specs.Codes.{lookup_code, value_copied};

    /// Whether it holds a host.
    pub fn is_open(&self) -> bool
        ensures { result ≡ is_some self.now.owner.host }
    {
        self.is_open
    }

    /// Takes the host out, which leaves the handle closed.
    pub fn take(&mut self, alloc: Global) -> Option<Box<Host>>
        ensures host { MatchOption result (self.old.owner.host ≡ None) (λ host. self.old.owner.host ≡ Some host.value) }
        ensures closed { self.new.owner.host ≡ None }
    {
        if !self.is_open {
            return None;
        }
        self.is_open = false;
        Some(self.owner.take(alloc).into_box())
    }

    /// Puts a host into a closed handle.
    pub fn put(&mut self, host: Box<Host>)
        ensures { self.new.owner.host ≡ Some host.value }
    {
        self.owner.put(Loose::of(host));
        self.is_open = true;
    }

    /// Lets an event happen.
    pub fn serve(&mut self, alloc: Global, event: &Event) -> Answer
        ensures { HasAnswer (Serves event.now) result self.old.owner.host self.new.owner.host }
    {
        let Some(mut host) = self.take(alloc) else {
            return Answer::Closed;
        };
        let reply = host.apply(event);
        self.put(host);
        Answer::Replied(reply)
    }

    /// Loads a program's text.
    pub fn load(&mut self, alloc: Global, tenant: u32, text: &[u8], context_size: u32) -> Answer
        ensures { HasAnswer (Serves (Load tenant text.now context_size)) result self.old.owner.host self.new.owner.host }
    {
        let Some(mut host) = self.take(alloc) else {
            return Answer::Closed;
        };
        let reply = host.load(tenant, text, context_size);
        self.put(host);
        Answer::Replied(reply)
    }

    /// Opens a run.
    pub fn begin(&mut self, alloc: Global, tenant: u32, program: u32, context: &[u8]) -> Answer
        ensures { HasAnswer (Serves (Begin tenant program context.now)) result self.old.owner.host self.new.owner.host }
    {
        let Some(mut host) = self.take(alloc) else {
            return Answer::Closed;
        };
        let reply = host.begin(tenant, program, context);
        self.put(host);
        Answer::Replied(reply)
    }

    /// Writes a value to a map.
    pub fn update(
        &mut self,
        alloc: Global,
        tenant: u32,
        map: MapNo,
        key: u32,
        value: &[u8],
    ) -> Answer
        ensures { HasAnswer (Serves (HostUpdate tenant map key value.now)) result self.old.owner.host self.new.owner.host }
    {
        let Some(mut host) = self.take(alloc) else {
            return Answer::Closed;
        };
        let reply = host.update(tenant, map, key, value);
        self.put(host);
        Answer::Replied(reply)
    }

    /// Copies a value of a map to bytes of its length: the number that the call returns.
    pub fn lookup(
        &mut self,
        alloc: Global,
        tenant: u32,
        map: MapNo,
        key: u32,
        value: &mut [u8],
    ) -> u32
        ensures { (answer : CallAnswer)
            × HasAnswer (Serves (HostLookup tenant map key)) answer self.old.owner.host self.new.owner.host
            × (answer ≢ Replied (Refused OutOfMemory))
            × (result ≡ lookup_code answer value.old) × (value.new ≡ value_copied answer value.old) }
    {
        let Some(host) = self.take(alloc) else {
            return 100;
        };
        let room = value.len();
        let copied = host.lookup(tenant, map, key, value);
        self.put(host);
        copied_code(copied, room)
    }
}

/// The number that a lookup returns: 102 where the value has another length than the room that there was.
fn copied_code(copied: Result<u32, Fault>, room: usize) -> u32
    ensures { result ≡ copied_code copied room }
{
    match copied {
        Ok(size) if size as usize == room => 0,
        Ok(_) => 102,
        Err(fault) => fault.number(),
    }
}

/// A handle may go to another thread: the proof that `crosses` may be called for it is the law, and the function does nothing.
pub fn handles_cross() {
    crosses::<BpfHost>();
}

/// Nothing, for a type whose values may go to another thread.
fn crosses<T: Send>() {}
