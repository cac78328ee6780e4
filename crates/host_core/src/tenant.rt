ghost use Rattle.std.specs.Prelude.{◌≡◌, ◌<◌, length, position, slice_index_or, option_copied, is_none, Option, None, IfSome};
ghost use Rattle.std.specs.List.{list_any};
ghost use Rattle.verifier.specs.Verified.{Accepted};
ghost use Rattle.host_core.specs.HostView.{names_in};

use crate::host::into_reply;
use crate::reply::Reply;
use crate::tenant_event::TenantEvent;
use host_calls::{
    decode_and_verify, host_create_map, host_lookup, host_lookup_into, host_shapes, host_update,
};
use host_types::limits::MAX_PROGRAMS;
use host_types::{Fault, MapNo};
use interp::Run;
use page_table::Memory;
use std::alloc::Global;
use std::marker::Model;
use tenant_runs::reopen_run;
use verifier::{Verified, is_context_size};

/// A tenant: its eight entries for programs, and its open run, if it has one. Its maps are the memory's.
#[derive(Drop)]
pub(crate) struct Tenant {
    pub(crate) programs: [Option<Verified>; MAX_PROGRAMS],
    pub(crate) run: TenantRun,
}

/// An open run, and the number of its program.
#[derive(Drop)]
pub(crate) struct OpenRun {
    pub(crate) program: u32,
    pub(crate) run: Run,
}

/// A tenant's open run, if it has one: contracts see an `Option`. A run that ended stays where it is, and the next one takes
/// its memory, so that to open and to end a run moves nothing.
#[derive(Drop)]
pub(crate) struct TenantRun {
    pub(crate) is_open: bool,
    pub(crate) latest: OpenRun,
}

/// Steps that were made in one go: how many, and the reply to the last one where the run ended with it or it
/// was refused.
#[derive(Drop)]
pub(crate) struct Batch {
    steps: u64,
    last: Option<Reply>,
}

impl Model for TenantRun {
    ghost use Rattle.std.specs.Prelude.{Option, Some, None, if◌then◌else◌};
    ghost use Rattle.host_core.specs.declared.tenant.OpenRun.{OpenRun as KeptRun};

    ghost Value = { Option KeptRun };

    ghost view = { λ run. if run.is_open then Some run.latest else None };
}

impl Model for Tenant {
    ghost use Rattle.host_core.specs.HostView.{TenantView};

    ghost Value = { TenantView };

    ghost view = { λ tenant. record { programs = tenant.programs; run = tenant.run } };
}

impl Tenant {
    ghost use Rattle.std.specs.Prelude.{◌≡◌, ◌≢◌, ◌+◌, Some, IsSome, IfErr, ◌<◌, ◌≤◌};
    ghost use Rattle.host_types.specs.declared.fault.Fault.TheVariants.{OutOfMemory};
    ghost use Rattle.host_types.specs.declared.event.Event.TheVariants.{CreateMap, Load, Begin, Step, HostUpdate, HostLookup, Unload, DropMap};
    ghost use Rattle.host_core.specs.World.{new_tenant};
    ghost use Rattle.host_core.specs.declared.reply.Reply.{Reply as KnownReply};
    ghost use Rattle.host_core.specs.HostView.{StandsForTenant, IsKept, IsServed, IsAnswered, IsCopied, HasMadeSteps, HasCounted, event_of, reply_of, steps_of};

    pub(crate) fn new(alloc: Global) -> Tenant
        ensures { StandsForTenant result new_tenant }
    {
        Tenant {
            programs: [None, None, None, None, None, None, None, None],
            run: TenantRun::none(alloc),
        }
    }

    /// Serves an event of this tenant, the one of the memory with the number.
    #[inline(always)]
    pub(crate) fn serve(
        &mut self,
        alloc: Global,
        memory: &mut Memory,
        number: u32,
        event: TenantEvent<'_>,
    ) -> Reply
        requires kept { IsKept number self.old memory.old }
        ensures { IsServed number self.old memory.old (event_of number event.entry) result self.new memory.new }
    {
        let served = match event {
            TenantEvent::CreateMap {
                value_size,
                entries,
                mergeable,
            } => self.create_map(memory, number, value_size, entries, mergeable),
            TenantEvent::Load { text, context_size } => self.load(
                alloc,
                memory,
                number,
                text,
                context_size,
            ),
            TenantEvent::Begin { program, context } => self.begin(memory, number, program, context),
            TenantEvent::Step => Ok(self.step(memory, number)),
            TenantEvent::Update { map, key, value } => self.update(memory, number, map, key, value),
            TenantEvent::Lookup { map, key } => self.lookup(alloc, memory, number, map, key),
            TenantEvent::Unload { program } => self.unload(memory, number, program),
            TenantEvent::DropMap { map } => self.drop_map(memory, number, map),
        };
        into_reply(served)
    }

    /// Makes a map.
    fn create_map(
        &self,
        memory: &mut Memory,
        number: u32,
        value_size: u32,
        entries: u32,
        mergeable: bool,
    ) -> Result<Reply, Fault>
        requires kept { IsKept number self.now memory.old }
        ensures { IsServed number self.now memory.old (CreateMap number value_size entries mergeable) (reply_of result) self.now memory.new }
    {
        if self.run.is_open() {
            return Err(Fault::Busy);
        }
        let map = host_create_map(memory, number, value_size, entries, mergeable)?;
        memory.facts();
        memory.maps_are_flat();
        Ok(Reply::Map(map))
    }

    /// Loads a program's text to the first free entry.
    fn load(
        &mut self,
        alloc: Global,
        memory: &Memory,
        number: u32,
        text: &[u8],
        context_size: u32,
    ) -> Result<Reply, Fault>
        requires kept { IsKept number self.old memory.now }
        ensures { IsServed number self.old memory.now (Load number text.now context_size) (reply_of result) self.new memory.now }
    {
        if self.run.is_open() {
            return Err(Fault::Busy);
        }
        let Some(index) = first_free(self.programs.as_slice()) else {
            return Err(Fault::TooManyPrograms);
        };
        if !is_context_size(context_size) {
            return Err(Fault::BadContext);
        }
        let shapes = host_shapes(memory, number);
        let program = decode_and_verify(alloc, shapes.as_slice(), text, context_size)?;
        memory.facts();
        self.programs[index] = Some(program);
        Ok(Reply::Program(index as u32))
    }

    /// Opens a run of a program, with the frames that it may need.
    #[inline(always)]
    pub(crate) fn begin(
        &mut self,
        memory: &mut Memory,
        number: u32,
        program: u32,
        context: &[u8],
    ) -> Result<Reply, Fault>
        requires kept { IsKept number self.old memory.old }
        ensures { IsServed number self.old memory.old (Begin number program context.now) (reply_of result) self.new memory.new }
    {
        if self.run.is_open {
            return Err(Fault::Busy);
        }
        let Some(verified) = program_of(self.programs.as_slice(), program) else {
            return Err(Fault::NoProgram);
        };
        reopen_run(memory, number, verified, context, &mut self.run.latest.run)?;
        memory.facts();
        self.run.latest.program = program;
        self.run.is_open = true;
        Ok(Reply::Begun)
    }

    /// Writes a value to a map.
    fn update(
        &self,
        memory: &mut Memory,
        number: u32,
        map: MapNo,
        key: u32,
        value: &[u8],
    ) -> Result<Reply, Fault>
        requires kept { IsKept number self.now memory.old }
        ensures { IsServed number self.now memory.old (HostUpdate number map key value.now) (reply_of result) self.now memory.new }
    {
        if self.run.is_open() {
            return Err(Fault::Busy);
        }
        host_update(memory, number, map, key, value)?;
        memory.facts();
        memory.maps_are_flat();
        Ok(Reply::Done)
    }

    /// Reads a value of a map.
    fn lookup(
        &self,
        alloc: Global,
        memory: &Memory,
        number: u32,
        map: MapNo,
        key: u32,
    ) -> Result<Reply, Fault>
        requires kept { IsKept number self.now memory.now }
        ensures { IsServed number self.now memory.now (HostLookup number map key) (reply_of result) self.now memory.now }
    {
        let value = host_lookup(alloc, memory, number, map, key)?;
        Ok(Reply::Value(value.into()))
    }

    /// Copies a value of a map to bytes of its length, and returns that length.
    pub(crate) fn copy_value(
        &self,
        memory: &Memory,
        number: u32,
        map: MapNo,
        key: u32,
        value: &mut [u8],
    ) -> Result<u32, Fault>
        requires kept { IsKept number self.now memory.now }
        ensures copied { (reply : KnownReply) × IsCopied reply result value.old value.new
            × IsAnswered number self.now memory.now (HostLookup number map key) reply }
        ensures memory { IfErr result (λ fault. fault ≢ OutOfMemory) }
    {
        host_lookup_into(memory, number, map, key, value)
    }

    /// Takes a program from its index.
    fn unload(&mut self, memory: &Memory, number: u32, program: u32) -> Result<Reply, Fault>
        requires kept { IsKept number self.old memory.now }
        ensures { IsServed number self.old memory.now (Unload number program) (reply_of result) self.new memory.now }
    {
        if self.run.is_open() {
            return Err(Fault::Busy);
        }
        let Some(_) = program_of(self.programs.as_slice(), program) else {
            return Err(Fault::NoProgram);
        };
        memory.facts();
        self.programs[program as usize] = None;
        Ok(Reply::Done)
    }

    /// Takes a map away that no program names.
    fn drop_map(&self, memory: &mut Memory, number: u32, map: MapNo) -> Result<Reply, Fault>
        requires kept { IsKept number self.now memory.old }
        ensures { IsServed number self.now memory.old (DropMap number map) (reply_of result) self.now memory.new }
    {
        if self.run.is_open() {
            return Err(Fault::Busy);
        }
        // A map that isn't there is refused before its use is asked.
        if memory.shape(number, map).is_none() {
            return Err(Fault::NoMap);
        }
        if is_used(self.programs.as_slice(), map) {
            return Err(Fault::InUse);
        }
        memory.drop_map(number, map)?;
        memory.facts();
        memory.maps_are_flat();
        Ok(Reply::Done)
    }

    /// Makes a step of the open run.
    #[inline(always)]
    fn step(&mut self, memory: &mut Memory, number: u32) -> Reply
        requires kept { IsKept number self.old memory.old }
        ensures { IsServed number self.old memory.old (Step number) result self.new memory.new }
    {
        memory.facts();
        if !self.run.is_open {
            return Reply::Refused(Fault::NoRun);
        }
        let open = &mut self.run.latest;
        let ended = open.step(self.programs.as_slice(), memory, number);
        memory.facts();
        let steps = open.run.steps();
        match ended {
            Some(ret) => {
                self.run.is_open = false;
                Reply::Ended { ret, steps }
            }
            None => Reply::Stepped,
        }
    }

    /// Makes steps of the open run, up to a limit: the reply to the last one, or `None` where each of them was
    /// made and the run goes on.
    #[inline(always)]
    pub(crate) fn make_steps(
        &mut self,
        memory: &mut Memory,
        number: u32,
        limit: u64,
    ) -> Option<Reply>
        requires some { 0 < limit }
        requires kept { IsKept number self.old memory.old }
        ensures steps { HasMadeSteps number self.old memory.old limit result self.new memory.new }
        ensures ends { 4294967296 ≤ steps_of self.old.run + limit → IsSome result }
    {
        let mut left = limit;
        while left > 0 {
            let batch = self.batch(memory, number, left);
            if batch.last.is_some() {
                return batch.last;
            }
            left -= batch.steps;
        }
        None
    }

    /// Makes steps of the open run in one go, at most up to a limit: all up to the first that asks for an update or a
    /// deletion in the tenant's maps or with which the run ends.
    #[inline(always)]
    fn batch(&mut self, memory: &mut Memory, number: u32, limit: u64) -> Batch
        requires some { 0 < limit }
        requires kept { IsKept number self.old memory.old }
        ensures some { 0 < result.steps }
        ensures few { result.steps ≤ limit }
        ensures made { HasMadeSteps number self.old memory.old result.steps result.last self.new memory.new }
        ensures counted { HasCounted self.old result.steps result.last self.new }
    {
        memory.facts();
        let before = self.run.steps();
        if !self.run.is_open {
            return Batch {
                steps: 1,
                last: Some(Reply::Refused(Fault::NoRun)),
            };
        }
        let open = &mut self.run.latest;
        let ended = open.advance(self.programs.as_slice(), memory, number, limit);
        memory.facts();
        let steps = open.run.steps();
        let made = u64::from(steps - before);
        match ended {
            Some(ret) => {
                self.run.is_open = false;
                Batch {
                    steps: made,
                    last: Some(Reply::Ended { ret, steps }),
                }
            }
            None => Batch {
                steps: made,
                last: None,
            },
        }
    }
}

impl TenantRun {
    ghost use Rattle.std.specs.Prelude.{◌≡◌, is_some, None};
    ghost use Rattle.host_core.specs.HostView.{steps_of};

    /// No open run. It takes no memory.
    fn none(alloc: Global) -> TenantRun
        ensures { result ≡ None }
    {
        TenantRun {
            is_open: false,
            latest: OpenRun {
                program: 0,
                run: Run::new(alloc),
            },
        }
    }

    fn is_open(&self) -> bool
        ensures { result ≡ is_some self.now }
    {
        self.is_open
    }

    /// How many steps the open run made, and 0 without one.
    fn steps(&self) -> u32
        ensures { result ≡ steps_of self.now }
    {
        if self.is_open {
            self.latest.run.steps()
        } else {
            0
        }
    }
}

/// The program at an index, if there is one.
pub(crate) fn program_of(programs: &[Option<Verified>], index: u32) -> Option<&Verified>
    ensures { option_copied result ≡ slice_index_or programs.now index None }
{
    match programs.get(index as usize) {
        Some(program) => program.as_ref(),
        None => None,
    }
}

/// The first index where no program is.
fn first_free(programs: &[Option<Verified>]) -> Option<usize>
    ensures first { result ≡ position (λ (slot : Option Accepted). is_none slot) programs.now }
    ensures inside { IfSome result (λ index. index < length programs.now) }
{
    programs.iter().position(|slot| slot.is_none())
}

/// Whether one of the programs, by an instruction reached or not, names a map.
fn is_used(programs: &[Option<Verified>], map: MapNo) -> bool
    ensures { result ≡ list_any (names_in map) programs.now }
{
    programs.iter().any(|slot| names(slot, map))
}

/// Whether a program stands at an index and names a map.
fn names(slot: &Option<Verified>, map: MapNo) -> bool
    ensures { result ≡ names_in map slot.now }
{
    match slot {
        Some(program) => program.names(map),
        None => false,
    }
}
