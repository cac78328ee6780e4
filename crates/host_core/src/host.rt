ghost use Rattle.std.specs.Prelude.{◌≡◌, ◌≢◌, ◌<◌, ◌≤◌, ◌↔◌, ◌⊎◌, ◌*◌, ℕ, length, IsSome, IsTrue, None, IfOk, OnOk, IfErr, OnErr, option_map};
ghost use Rattle.host_types.specs.Memory.{map_at};
ghost use Rattle.page_table.specs.Reads.{ReadsAs};
ghost use Rattle.page_table.specs.State.{part};
ghost use Rattle.host_types.specs.OptionTable.{AreOptions};
ghost use Rattle.page_table.specs.Changes.{RefusesMemory};
ghost use Rattle.page_table.specs.Limits.{AreLimits};
ghost use Rattle.host_core.specs.World.{System, IsCovered, FoundIsOpen, new_system};
ghost use Rattle.host_core.specs.Happens.{Happens, IsPromised, AllHappen, RunHappens, StepsHappen, SetHappens, UnmergeHappens, JoinHappens, SplitHappens};
ghost use Rattle.host_core.specs.HostView.{StandsForSystem, IsCopied, event_of, reply_of};
ghost use Rattle.host_core.specs.Many.{HaveRun, ended_of, stopped_by};
ghost use Rattle.host_core.specs.WholeRuns.{HaveRunFrom};
ghost use Rattle.host_types.specs.declared.fault.Fault.TheVariants.{OutOfMemory};
ghost use Rattle.host_types.specs.declared.event.Event.TheVariants.{CreateMap, Load, Begin, HostUpdate, HostLookup, Unload, DropMap, Visit};
ghost use Rattle.host_core.specs.declared.reply.Reply.{Reply as KnownReply};

use crate::reply::{Reply, Stopped};
use crate::tenant::Tenant;
use crate::tenant_event::TenantEvent;
use host_calls::{host_set, host_unmerge};
use host_types::{Event, Fault, MapNo, Opt, Options, Shape};
use ksm_counters::counters;
use page_table::Memory;
use scanner::visit;
use std::alloc::{AllocError, Global};
use std::marker::Model;

/// Several tenants, each with its own maps, programs and at most one open run, in a memory whose pages are
/// merged. Contracts see them by number, and say which system of private memories the host stands for.
#[derive(Drop)]
pub struct Host {
    alloc: Global,
    tenants: Vec<Tenant>,
    memory: Memory,
}

impl Model for Host {
    ghost use Rattle.host_core.specs.World.{System};
    ghost use Rattle.host_core.specs.HostView.{HostView, StandsForSystem};

    ghost Value = { HostView };

    ghost view = { λ host. record { tenants = host.tenants.items; memory = host.memory } };

    ghost invariant = { λ host. (x : System) × StandsForSystem (record { tenants = host.tenants.items; memory = host.memory }) x };
}

impl Host {
    /// A host of 2 to 4096 frames and 1 to 16 tenants, none of which has a map, a program or a run.
    ///
    /// Refusals in their order: `BadShape` where frames or tenants are out of limits, `BadOption` where an
    /// option can't have its value, `OutOfMemory` where memory ran out.
    pub fn new(alloc: Global, frames: u32, tenants: u32, options: Options) -> Result<Host, Fault>
        ensures new { IfOk result (λ host. StandsForSystem host (new_system frames tenants options)) }
        ensures limits { OnOk result (AreLimits frames tenants × AreOptions options) }
        ensures refused { IfErr result (RefusesMemory frames tenants options) }
    {
        let memory = Memory::new(alloc, frames, tenants, options)?;
        let Ok(mut entries) = Vec::with_capacity(alloc, tenants as usize) else {
            return Err(Fault::OutOfMemory);
        };
        for _ in 0..tenants {
            entries.push_reserved(Tenant::new(alloc));
        }
        Ok(Host {
            alloc,
            tenants: entries,
            memory,
        })
    }

    /// Lets an event happen. A refusal changes nothing; the event says which there are, and they are
    /// tested in their order.
    pub fn apply(&mut self, event: &Event) -> Reply
        ensures { (x : System) → StandsForSystem self.old x
            → (next : System) × StandsForSystem self.new next
            × Happens x event.now result next × IsPromised x event.now result next × IsCovered next }
    {
        let reply = match event {
            Event::Step { tenant } => self.serve_tenant(*tenant, TenantEvent::Step),
            _ => self.serve(event),
        };
        self.memory.facts();
        reply
    }

    /// Opens a run of a tenant's loaded program on a context: the reply is that of `apply` to `Event::Begin`. The context is
    /// read where it is, and the call takes memory only where it is longer than those of the tenant's runs before.
    #[inline(always)]
    pub fn begin(&mut self, tenant: u32, program: u32, context: &[u8]) -> Reply
        ensures { (x : System) → StandsForSystem self.old x
            → (next : System) × StandsForSystem self.new next
            × Happens x (Begin tenant program context.now) result next × IsPromised x (Begin tenant program context.now) result next × IsCovered next }
    {
        let reply = self.serve_tenant(tenant, TenantEvent::Begin { program, context });
        self.memory.facts();
        reply
    }

    /// Loads a program's text for a tenant: the reply is that of `apply` to `Event::Load`. The text is read where it is, and the call takes memory
    /// only once nothing else is refused.
    pub fn load(&mut self, tenant: u32, text: &[u8], context_size: u32) -> Reply
        ensures { (x : System) → StandsForSystem self.old x
            → (next : System) × StandsForSystem self.new next
            × Happens x (Load tenant text.now context_size) result next × IsPromised x (Load tenant text.now context_size) result next × IsCovered next }
    {
        let reply = self.serve_tenant(tenant, TenantEvent::Load { text, context_size });
        self.memory.facts();
        reply
    }

    /// Writes a value to an element of a tenant's map: the reply is that of `apply` to `Event::HostUpdate`. The value is read where it is.
    pub fn update(&mut self, tenant: u32, map: MapNo, key: u32, value: &[u8]) -> Reply
        ensures { (x : System) → StandsForSystem self.old x
            → (next : System) × StandsForSystem self.new next
            × Happens x (HostUpdate tenant map key value.now) result next × IsPromised x (HostUpdate tenant map key value.now) result next × IsCovered next }
    {
        let reply = self.serve_tenant(tenant, TenantEvent::Update { map, key, value });
        self.memory.facts();
        reply
    }

    /// Copies the value of an element of a tenant's map to bytes of its length, and returns that length: what `apply` replies to
    /// `Event::HostLookup`, without memory for the value. Bytes of another length stay as they are, and so do all where it is refused.
    pub fn lookup(&self, tenant: u32, map: MapNo, key: u32, value: &mut [u8]) -> Result<u32, Fault>
        ensures copied { (reply : KnownReply) × IsCopied reply result value.old value.new
            × ((x : System) → StandsForSystem self.now x
            → Happens x (HostLookup tenant map key) reply x × IsPromised x (HostLookup tenant map key) reply x × IsCovered x) }
        ensures memory { IfErr result (λ fault. fault ≢ OutOfMemory) }
    {
        self.memory.facts();
        let index = tenant as usize;
        if index >= self.tenants.len() {
            return Err(Fault::BadTenant);
        }
        self.tenants[index].copy_value(&self.memory, tenant, map, key, value)
    }

    /// Lets events happen in their order, and gives the reply to each. Room for the replies is
    /// reserved first: where there is none, nothing happens.
    pub fn apply_all(&mut self, events: &[Event]) -> Result<Vec<Reply>, AllocError>
        ensures happen { IfOk result (λ replies.
            (x : System) → StandsForSystem self.old x
            → (next : System) × StandsForSystem self.new next × AllHappen x events.now replies.items next) }
        ensures refused { OnErr result (self.new ≡ self.old) }
    {
        let mut replies = Vec::with_capacity(self.alloc, events.len())?;
        for event in events {
            let reply = self.apply(event);
            replies.push_reserved(reply);
        }
        Ok(replies)
    }

    /// Makes steps of a tenant's open run, up to a limit, and none after one with which the run ends or
    /// that is refused: the reply to that one, or `None` where the limit comes first. A run makes fewer
    /// than 2^32 steps, so that such a limit never comes first. It takes no memory.
    #[inline(always)]
    pub fn make_steps(&mut self, tenant: u32, limit: u64) -> Option<Reply>
        ensures steps { (x : System) → StandsForSystem self.old x
            → (next : System) × StandsForSystem self.new next × StepsHappen x tenant limit result next }
        ensures ends { 4294967296 ≤ limit → IsSome result }
    {
        if limit == 0 {
            return None;
        }
        self.memory.facts();
        let index = tenant as usize;
        if index >= self.tenants.len() {
            return Some(Reply::Refused(Fault::BadTenant));
        }
        self.tenants[index].make_steps(&mut self.memory, tenant, limit)
    }

    /// Makes a whole run of a tenant's loaded program on a context, from its beginning to its end, as `begin` and then `make_steps`
    /// without a limit: the reply is that to its last step, or what refuses its beginning.
    #[inline(always)]
    pub fn run(&mut self, tenant: u32, program: u32, context: &[u8]) -> Reply
        ensures { (x : System) → StandsForSystem self.old x
            → (next : System) × StandsForSystem self.new next × RunHappens x tenant program context.now result next }
    {
        self.memory.facts();
        let index = tenant as usize;
        if index >= self.tenants.len() {
            return Reply::Refused(Fault::BadTenant);
        }
        self.tenants[index].run(&mut self.memory, tenant, program, context)
    }

    /// Makes a whole run of a tenant's loaded program on each of some contexts, which have one size and stand one after the other, as `run`
    /// does, and writes what each returns. It stops at the first that doesn't end.
    pub fn run_many(
        &mut self,
        tenant: u32,
        program: u32,
        contexts: &[u8],
        size: usize,
        rets: &mut [u64],
    ) -> Result<(), Stopped>
        requires { size * length rets.old ≡ length contexts.now }
        ensures { HaveRun tenant program contexts.now size rets.old rets.new (ended_of (length rets.old) result) (stopped_by result) self.old self.new }
    {
        let mut done = 0;
        // Most programs ask for no update or deletion: then all runs are made at once.
        while done < rets.len() {
            done = self.run_from(tenant, program, contexts, size, rets, done)?;
        }
        Ok(())
    }

    /// Makes such runs from the context with a number on: how many contexts are done then, or which run didn't end.
    #[inline(always)]
    fn run_from(
        &mut self,
        tenant: u32,
        program: u32,
        contexts: &[u8],
        size: usize,
        rets: &mut [u64],
        from: usize,
    ) -> Result<usize, Stopped>
        requires sized { size * length rets.old ≡ length contexts.now }
        requires from { from < length rets.old }
        ensures { HaveRunFrom tenant program contexts.now size rets.old from result self.old self.new rets.new }
    {
        self.memory.facts();
        let index = tenant as usize;
        if index >= self.tenants.len() {
            return Err(Stopped::refused(from, Fault::BadTenant));
        }
        self.tenants[index].run_from(
            &mut self.memory,
            tenant,
            program,
            contexts,
            size,
            rets,
            from,
        )
    }

    /// What holds of each host's memory: how its frames and its shared pages read together. The function does nothing.
    pub fn facts(&self)
        ensures { ReadsAs self.now.memory }
    {
        self.memory.facts();
    }

    /// The shape of a tenant's map, if it has one of this number.
    pub fn shape(&self, tenant: u32, map: MapNo) -> Option<Shape>
        ensures { result ≡ option_map (λ flat. flat.shape) (map_at (part self.now.memory tenant).maps map) }
    {
        self.memory.shape(tenant, map)
    }

    /// Lets any event happen.
    #[inline(never)]
    fn serve(&mut self, event: &Event) -> Reply
        ensures { (x : System) → StandsForSystem self.old x
            → (next : System) × StandsForSystem self.new next
            × Happens x event.now result next × IsPromised x event.now result next }
    {
        match event {
            Event::CreateMap {
                tenant,
                value_size,
                entries,
                mergeable,
            } => self.create_map(*tenant, *value_size, *entries, *mergeable),
            Event::Load {
                tenant,
                text,
                context_size,
            } => self.load(*tenant, text.as_slice(), *context_size),
            Event::Begin {
                tenant,
                program,
                context,
            } => self.begin(*tenant, *program, context.as_slice()),
            Event::Step { tenant } => self.serve_tenant(*tenant, TenantEvent::Step),
            Event::HostUpdate {
                tenant,
                map,
                key,
                value,
            } => self.update(*tenant, *map, *key, value.as_slice()),
            Event::HostLookup { tenant, map, key } => self.read(*tenant, *map, *key),
            Event::Unload { tenant, program } => self.unload(*tenant, *program),
            Event::DropMap { tenant, map } => self.drop_map(*tenant, *map),
            Event::Visit => self.visit(),
            Event::Set { option, value } => into_reply(self.set(*option, *value)),
            Event::Unmerge => into_reply(self.unmerge()),
            Event::Counters => Reply::Counters(counters(&self.memory)),
        }
    }

    /// Lets an event of a tenant happen. It is part of each of its callers, so that none looks again which event it is.
    #[inline(always)]
    fn serve_tenant(&mut self, tenant: u32, event: TenantEvent<'_>) -> Reply
        ensures { (x : System) → StandsForSystem self.old x
            → (next : System) × StandsForSystem self.new next
            × Happens x (event_of tenant event.entry) result next × IsPromised x (event_of tenant event.entry) result next }
    {
        let index = tenant as usize;
        if index >= self.tenants.len() {
            return Reply::Refused(Fault::BadTenant);
        }
        self.tenants[index].serve(self.alloc, &mut self.memory, tenant, event)
    }

    /// Lets a map be made.
    fn create_map(&mut self, tenant: u32, value_size: u32, entries: u32, mergeable: bool) -> Reply
        ensures { (x : System) → StandsForSystem self.old x
            → (next : System) × StandsForSystem self.new next
            × Happens x (CreateMap tenant value_size entries mergeable) result next
            × IsPromised x (CreateMap tenant value_size entries mergeable) result next }
    {
        self.serve_tenant(
            tenant,
            TenantEvent::CreateMap {
                value_size,
                entries,
                mergeable,
            },
        )
    }

    /// Lets a value be read.
    fn read(&mut self, tenant: u32, map: MapNo, key: u32) -> Reply
        ensures { (x : System) → StandsForSystem self.old x
            → (next : System) × StandsForSystem self.new next
            × Happens x (HostLookup tenant map key) result next × IsPromised x (HostLookup tenant map key) result next }
    {
        self.serve_tenant(tenant, TenantEvent::Lookup { map, key })
    }

    /// Lets a program be taken away.
    fn unload(&mut self, tenant: u32, program: u32) -> Reply
        ensures { (x : System) → StandsForSystem self.old x
            → (next : System) × StandsForSystem self.new next
            × Happens x (Unload tenant program) result next × IsPromised x (Unload tenant program) result next }
    {
        self.serve_tenant(tenant, TenantEvent::Unload { program })
    }

    /// Lets a map be taken away.
    fn drop_map(&mut self, tenant: u32, map: MapNo) -> Reply
        ensures { (x : System) → StandsForSystem self.old x
            → (next : System) × StandsForSystem self.new next
            × Happens x (DropMap tenant map) result next × IsPromised x (DropMap tenant map) result next }
    {
        self.serve_tenant(tenant, TenantEvent::DropMap { map })
    }

    /// Lets the scanner visit a page.
    fn visit(&mut self) -> Reply
        ensures { (x : System) → StandsForSystem self.old x
            → (next : System) × StandsForSystem self.new next
            × Happens x Visit result next × IsPromised x Visit result next }
    {
        Reply::Visited(visit(&mut self.memory))
    }

    /// Sets an option of the scanner.
    fn set(&mut self, option: Opt, value: u32) -> Result<Reply, Fault>
        ensures { (x : System) → StandsForSystem self.old x
            → (next : System) × StandsForSystem self.new next × SetHappens x option value (reply_of result) next }
    {
        host_set(&mut self.memory, option, value)?;
        Ok(Reply::Done)
    }

    /// Gives each page that shares a frame one of its own.
    fn unmerge(&mut self) -> Result<Reply, Fault>
        ensures { (x : System) → StandsForSystem self.old x
            → (next : System) × StandsForSystem self.new next × UnmergeHappens x (reply_of result) next }
    {
        host_unmerge(&mut self.memory)?;
        Ok(Reply::Done)
    }
}

/// A refusal is a reply too.
#[inline(always)]
pub fn into_reply(served: Result<Reply, Fault>) -> Reply
    ensures { result ≡ reply_of served }
{
    match served {
        Ok(reply) => reply,
        Err(fault) => Reply::Refused(fault),
    }
}

/// Two lists of events, one after the other, give what their joining gives. This is a law about the
/// definitions: the function does nothing.
pub fn lists_join()
    ensures joined { JoinHappens }
    ensures split { SplitHappens }
{}

/// Each state that an open run stands for may be taken as its beginning: nothing is asked of how the run came
/// there. This is a law about the definitions: the function does nothing.
#[tactic(auto, using(crate::proofs::FoundOpen::found_is_open))]
pub fn each_state_begins()
    ensures found_open { FoundIsOpen }
{}
