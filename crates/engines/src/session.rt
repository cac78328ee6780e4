//! A host at work on the commands of a host file, and what is written of it.

ghost use Rattle.std.specs.Prelude.{◌≡◌, ◌↔◌, false, replicate, IfErr, IfOk, IsTrue, OnOk};
ghost use Rattle.host_core.specs.declared.reply.Reply.TheVariants.{Begun, Done};
ghost use Rattle.host_types.specs.Events.{tenant_of};
ghost use Rattle.host_file.specs.Faults.{IsBad};
ghost use Rattle.host_file.specs.declared.command.Command.TheVariants.{Run};
ghost use Rattle.engines.specs.Beginnings.{begin_event};
ghost use Rattle.engines.specs.Replay.{AreOf, AreOfAll, AreStepsToEnd, AreVisits, latest_run, one_more_run, pages_after, runs_begun};
ghost use Rattle.engines.specs.Sessions.{AreStepsMade, HasPrinted, IsOneEvent, HasPerformed};

use crate::beginning::Beginning;
use crate::explanation::{Known, explain_beginning, explain_event};
use crate::fault::written;
use crate::lines::write_reply;
use crate::watch::Watch;
use host_core::{Event, Host, Reply};
use host_file::{Command, FileFault, HostFile};
use host_types::limits::{MAX_MAPS, MAX_PROGRAMS};
use host_types::{Fault, MapNo, Opt, Shape};
use std::alloc::{AllocError, Global};
use std::io::Write;

/// A host at work, and what its output and its visits need to know.
#[derive(Drop)]
pub struct Session {
    alloc: Global,
    host: Host,
    /// How many runs each tenant has begun.
    begun: Vec<u64>,
    /// How many pages a visit without a count visits.
    pages_to_scan: u32,
    has_refused: bool,
    /// The sizes of contexts that programs were loaded with, of each tenant eight, for words alone.
    context_sizes: Vec<u32>,
}

impl Session {
    /// A session of a new host that was made for a file.
    pub fn new(alloc: Global, host: Host, file: &HostFile) -> Result<Self, FileFault>
        ensures host { IfOk result (λ session. session.host ≡ host) }
        ensures begun { IfOk result (λ session. session.begun.items ≡ replicate file.now.tenants 0) }
        ensures pages { IfOk result (λ session. session.pages_to_scan ≡ file.now.options.pages_to_scan) }
        ensures refused { IfOk result (λ session. session.has_refused ≡ false) }
        ensures bad { IfErr result (λ fault. ¬ IsBad fault) }
    {
        let tenants = file.tenants as usize;
        let Ok(begun) = vec![in alloc; 0; tenants] else {
            return Err(FileFault::OutOfMemory(AllocError));
        };
        let Ok(context_sizes) = vec![in alloc; 0; MAX_PROGRAMS * tenants] else {
            return Err(FileFault::OutOfMemory(AllocError));
        };
        Ok(Session {
            alloc,
            host,
            begun,
            pages_to_scan: file.options.pages_to_scan,
            has_refused: false,
            context_sizes,
        })
    }

    /// Whether a refusal was written.
    pub fn has_refused(&self) -> bool
        ensures { result ≡ self.now.has_refused }
    {
        self.has_refused
    }

    /// Performs commands in their order.
    pub fn perform_all<W: Write, E: Write, V: Watch>(
        &mut self,
        commands: &[Command],
        writer: &mut W,
        diagnostics: &mut E,
        watch: &mut V,
    ) -> Result<(), FileFault>
        ensures performs { OnOk result (HasPerformed (AreOfAll self.old.pages_to_scan commands.now) self.old self.new (W.contents writer.old) (W.contents writer.new)) }
        ensures bad { IfErr result (λ fault. ¬ IsBad fault) }
    {
        for (number, command) in commands.iter().enumerate() {
            self.perform(number, command, writer, diagnostics, watch)?;
        }
        Ok(())
    }

    /// Performs a command, that of the file's event of this number.
    fn perform<W: Write, E: Write, V: Watch>(
        &mut self,
        number: usize,
        command: &Command,
        writer: &mut W,
        diagnostics: &mut E,
        watch: &mut V,
    ) -> Result<(), FileFault>
        ensures performs { OnOk result (HasPerformed (AreOf self.old.pages_to_scan command.now) self.old self.new (W.contents writer.old) (W.contents writer.new)) }
        ensures bad { IfErr result (λ fault. ¬ IsBad fault) }
    {
        match command {
            Command::Apply(event) => {
                self.apply(number, event, writer, diagnostics)?;
                Ok(())
            }
            Command::Step { tenant, count } => {
                self.make_steps(number, *tenant, u64::from(*count), writer, diagnostics)
            }
            Command::Finish { tenant } => self.finish(number, *tenant, writer, diagnostics),
            Command::Run {
                tenant,
                program,
                context,
            } => {
                let beginning = Beginning {
                    tenant: *tenant,
                    program: *program,
                    context,
                };
                self.run(number, &beginning, writer, diagnostics)
            }
            Command::Visit { count } => {
                let count = count.unwrap_or(self.pages_to_scan);
                self.visit(number, count, writer, diagnostics, watch)
            }
        }
    }

    /// Lets the scanner make visits. They may take long, so what was written is passed on first.
    fn visit<W: Write, E: Write, V: Watch>(
        &mut self,
        number: usize,
        count: u32,
        writer: &mut W,
        diagnostics: &mut E,
        watch: &mut V,
    ) -> Result<(), FileFault>
        ensures performs { OnOk result (HasPerformed (AreVisits count) self.old self.new (W.contents writer.old) (W.contents writer.new)) }
        ensures bad { IfErr result (λ fault. ¬ IsBad fault) }
    {
        written(writer.flush())?;
        for _visit in 0..count {
            watch.see(number, _visit, count);
            self.apply(number, &Event::Visit, writer, diagnostics)?;
        }
        watch.pass();
        Ok(())
    }

    /// Opens a run, and makes its steps where it is open then.
    fn run<W: Write, E: Write>(
        &mut self,
        number: usize,
        beginning: &Beginning<'_>,
        writer: &mut W,
        diagnostics: &mut E,
    ) -> Result<(), FileFault>
        ensures performs { OnOk result (HasPerformed (AreOf self.old.pages_to_scan (Run beginning.now.tenant beginning.now.program beginning.now.context.now))
            self.old self.new (W.contents writer.old) (W.contents writer.new)) }
        ensures bad { IfErr result (λ fault. ¬ IsBad fault) }
    {
        let reply = self.begin(number, beginning, writer, diagnostics)?;
        if !is_begun(&reply) {
            return Ok(());
        }
        self.finish(number, beginning.tenant, writer, diagnostics)
    }

    /// Opens a run, and writes the lines of the reply if it has any.
    fn begin<W: Write, E: Write>(
        &mut self,
        number: usize,
        beginning: &Beginning<'_>,
        writer: &mut W,
        diagnostics: &mut E,
    ) -> Result<Reply, FileFault>
        ensures performs { IfOk result (λ reply. HasPerformed (IsOneEvent (begin_event beginning.now) reply) self.old self.new (W.contents writer.old) (W.contents writer.new)) }
        ensures bad { IfErr result (λ fault. ¬ IsBad fault) }
    {
        let context = beginning.context.as_slice();
        let reply = self
            .host
            .begin(beginning.tenant, beginning.program, context);
        // What is noted and written of this reply is what would be of a reply to a step.
        let step = Event::Step {
            tenant: beginning.tenant,
        };
        self.print(&step, &reply, writer)?;
        self.explain_begun(diagnostics, number, beginning, &reply);
        Ok(reply)
    }

    /// Applies an event, and writes its lines if it has any.
    fn apply<W: Write, E: Write>(
        &mut self,
        number: usize,
        event: &Event,
        writer: &mut W,
        diagnostics: &mut E,
    ) -> Result<Reply, FileFault>
        ensures performs { IfOk result (λ reply. HasPerformed (IsOneEvent event.now reply) self.old self.new (W.contents writer.old) (W.contents writer.new)) }
        ensures bad { IfErr result (λ fault. ¬ IsBad fault) }
    {
        let reply = self.host.apply(event);
        self.print(event, &reply, writer)?;
        self.explain(diagnostics, number, event, &reply);
        Ok(reply)
    }

    /// Makes steps until the run ends. Each run ends, so that the limit never comes first.
    fn finish<W: Write, E: Write>(
        &mut self,
        number: usize,
        tenant: u32,
        writer: &mut W,
        diagnostics: &mut E,
    ) -> Result<(), FileFault>
        ensures performs { OnOk result (HasPerformed (AreStepsToEnd tenant) self.old self.new (W.contents writer.old) (W.contents writer.new)) }
        ensures bad { IfErr result (λ fault. ¬ IsBad fault) }
    {
        self.make_steps(number, tenant, u64::MAX, writer, diagnostics)
    }

    /// Makes up to a number of steps of the open run, and none after its end or a refusal.
    fn make_steps<W: Write, E: Write>(
        &mut self,
        number: usize,
        tenant: u32,
        limit: u64,
        writer: &mut W,
        diagnostics: &mut E,
    ) -> Result<(), FileFault>
        ensures performs { OnOk result (HasPerformed (AreStepsMade tenant limit) self.old self.new (W.contents writer.old) (W.contents writer.new)) }
        ensures bad { IfErr result (λ fault. ¬ IsBad fault) }
    {
        let Some(reply) = self.host.make_steps(tenant, limit) else {
            return Ok(());
        };
        let event = Event::Step { tenant };
        self.print(&event, &reply, writer)?;
        self.explain(diagnostics, number, &event, &reply);
        Ok(())
    }

    /// Writes the lines of a reply if it has any, and notes what later events and lines need to know.
    fn print<W: Write>(
        &mut self,
        event: &Event,
        reply: &Reply,
        writer: &mut W,
    ) -> Result<(), FileFault>
        ensures printed { OnOk result (HasPrinted event.now reply.now self.old self.new (W.contents writer.old) (W.contents writer.new)) }
        ensures bad { IfErr result (λ fault. ¬ IsBad fault) }
    {
        write_reply(writer, event, self.latest_run(event), reply)?;
        match reply {
            Reply::Begun => self.count_run(event),
            Reply::Done => self.note_option(event),
            Reply::Refused(_) => self.has_refused = true,
            Reply::Program(program) => self.note_context_size(event, *program),
            Reply::Map(_)
            | Reply::Stepped
            | Reply::Ended { .. }
            | Reply::Visited(_)
            | Reply::Value(_)
            | Reply::Counters(_) => {}
        }
        Ok(())
    }

    /// The number of the latest run of an event's tenant.
    fn latest_run(&self, event: &Event) -> u64
        ensures { result ≡ latest_run self.now.begun.items (tenant_of event.now) }
    {
        match event.tenant() {
            Some(tenant) => self.runs_begun(tenant).saturating_sub(1),
            None => 0,
        }
    }

    fn runs_begun(&self, tenant: u32) -> u64
        ensures { result ≡ runs_begun self.now.begun.items tenant }
    {
        self.begun.get(tenant as usize).copied().unwrap_or(0)
    }

    /// Notes that an event's tenant began a run.
    fn count_run(&mut self, event: &Event)
        ensures begun { self.new.begun.items ≡ one_more_run self.old.begun.items (tenant_of event.now) }
        ensures host { self.new.host ≡ self.old.host }
        ensures pages { self.new.pages_to_scan ≡ self.old.pages_to_scan }
        ensures refused { self.new.has_refused ≡ self.old.has_refused }
    {
        let Some(tenant) = event.tenant() else {
            return;
        };
        if let Some(begun) = self.begun.get_mut(tenant as usize) {
            *begun = begun.saturating_add(1);
        }
    }

    /// Notes what an event that was done set.
    fn note_option(&mut self, event: &Event)
        ensures pages { self.new.pages_to_scan ≡ pages_after self.old.pages_to_scan event.now Done }
        ensures begun { self.new.begun.items ≡ self.old.begun.items }
        ensures host { self.new.host ≡ self.old.host }
        ensures refused { self.new.has_refused ≡ self.old.has_refused }
    {
        if let Event::Set { option, value } = event {
            if *option == Opt::PagesToScan {
                self.pages_to_scan = *value;
            }
        }
    }
}

impl Session {
    /// Notes the size of contexts that a program was loaded with.
    fn note_context_size(&mut self, event: &Event, program: u32)
        ensures begun { self.new.begun.items ≡ self.old.begun.items }
        ensures pages { self.new.pages_to_scan ≡ self.old.pages_to_scan }
        ensures host { self.new.host ≡ self.old.host }
        ensures refused { self.new.has_refused ≡ self.old.has_refused }
    {
        let Event::Load {
            tenant,
            context_size,
            ..
        } = event
        else {
            return;
        };
        let Some(index) = size_index(*tenant, program) else {
            return;
        };
        if let Some(size) = self.context_sizes.get_mut(index) {
            *size = *context_size;
        }
    }

    /// Writes, of a refusal, which event of the file was refused, and what that means.
    fn explain<E: Write>(&self, diagnostics: &mut E, number: usize, event: &Event, reply: &Reply) {
        if let Reply::Refused(fault) = reply {
            let known = Known {
                shapes: &self.shapes_for(event),
                context_size: self.context_size_for(event),
            };
            explain_at(self.alloc, diagnostics, number, event, *fault, &known);
        }
    }

    /// Writes, of the refusal of a run, which event of the file asked for it, and what that means.
    fn explain_begun<E: Write>(
        &self,
        diagnostics: &mut E,
        number: usize,
        beginning: &Beginning<'_>,
        reply: &Reply,
    ) {
        if let Reply::Refused(fault) = reply {
            let loaded = self.context_size_of(beginning.tenant, beginning.program);
            explain_beginning_at(diagnostics, number, beginning, *fault, loaded);
        }
    }

    /// The size of contexts that the program was loaded with of which an event begins a run.
    fn context_size_for(&self, event: &Event) -> Option<u32> {
        match event {
            Event::Begin {
                tenant,
                program,
                ..
            } => self.context_size_of(*tenant, *program),
            _ => None,
        }
    }

    /// The size of contexts that a tenant's program was loaded with.
    fn context_size_of(&self, tenant: u32, program: u32) -> Option<u32> {
        let index = size_index(tenant, program)?;
        self.context_sizes.get(index).copied()
    }

    /// The shapes of the maps by number that a program may use which an event loads.
    fn shapes_for(&self, event: &Event) -> [Option<Shape>; MAX_MAPS] {
        let mut shapes = [None; MAX_MAPS];
        if let Event::Load { tenant, .. } = event {
            for map in 0..MAX_MAPS as MapNo {
                shapes[map as usize] = self.host.shape(*tenant, map);
            }
        }
        shapes
    }
}

/// Where the size of contexts of a tenant's program is kept.
fn size_index(tenant: u32, program: u32) -> Option<usize> {
    let program = program as usize;
    if program >= MAX_PROGRAMS {
        return None;
    }
    (tenant as usize)
        .checked_mul(MAX_PROGRAMS)?
        .checked_add(program)
}

/// Whether a run is open now that wasn't.
fn is_begun(reply: &Reply) -> bool
    ensures { IsTrue result ↔ (reply.now ≡ Begun) }
{
    matches!(reply, Reply::Begun)
}

/// Writes which event of the file was refused, and what that means. The line of the refusal is written: the words may be
/// lost.
pub fn explain_at<W: Write>(
    alloc: Global,
    diagnostics: &mut W,
    number: usize,
    event: &Event,
    fault: Fault,
    known: &Known<'_>,
) {
    let _ = write!(diagnostics, "event {number}: ");
    let _ = explain_event(alloc, diagnostics, event, fault, known);
}

/// The same of a run that wasn't opened, whose program was loaded for contexts of a size, where it is known.
pub fn explain_beginning_at<W: Write>(
    diagnostics: &mut W,
    number: usize,
    beginning: &Beginning<'_>,
    fault: Fault,
    loaded: Option<u32>,
) {
    let _ = write!(diagnostics, "event {number}: ");
    let _ = explain_beginning(
        diagnostics,
        beginning.context.as_slice().len(),
        loaded,
        fault,
    );
}
