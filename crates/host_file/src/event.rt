ghost use Rattle.std.specs.Prelude.{codes, IfErr, IfOk};
ghost use Rattle.host_file.specs.Faults.{MeansNone, Refutes};
ghost use Rattle.host_file.specs.HostFile.{HasOption, HasString, IsEvent};
ghost use Rattle.host_file.specs.Kinds.{IsComplete};
ghost use Rattle.host_file.specs.Kinds as kind;
ghost use Rattle.host_file.specs.Section.{members_of};

use crate::command::Command;
use crate::fault::{Cause, FileFault};
use crate::key::Key;
use crate::section::Section;
use host_types::{Event, Opt};
use std::alloc::Global;
use terminal_text::quoted;

/// The command of an event's table.
pub fn command_of(alloc: Global, event: &Section<'_>) -> Result<Command, FileFault>
    ensures read { IfOk result (IsEvent (members_of event.now)) }
    ensures bad { IfErr result (MeansNone (IsEvent (members_of event.now))) }
{
    match event.text(Key::Do)? {
        "map" => map(alloc, event),
        "load" => load(alloc, event),
        "begin" => begin(alloc, event),
        "step" => step(alloc, event),
        "finish" => finish(alloc, event),
        "run" => run(alloc, event),
        "visit" => visit(alloc, event),
        "update" => update(alloc, event),
        "lookup" => lookup(alloc, event),
        "set" => set(alloc, event),
        "unmerge" => unmerge(alloc, event),
        "counters" => counters(alloc, event),
        "unload" => unload(alloc, event),
        "drop" => drop_map(alloc, event),
        other => Err(event.bad(Cause::UnknownEvent(quoted(alloc, other)?))),
    }
}

fn map(alloc: Global, event: &Section<'_>) -> Result<Command, FileFault>
    requires { HasString (members_of event.now) Key.Do (codes "map") }
    ensures read { IfOk result (IsEvent (members_of event.now)) }
    ensures bad { IfErr result (Refutes (IsComplete (members_of event.now) kind.map)) }
{
    event.require_only(
        alloc,
        &[
            Key::Do,
            Key::Tenant,
            Key::ValueSize,
            Key::Entries,
            Key::Mergeable,
        ],
    )?;
    Ok(Command::Apply(Event::CreateMap {
        tenant: event.number(Key::Tenant)?,
        value_size: event.number(Key::ValueSize)?,
        entries: event.number(Key::Entries)?,
        mergeable: event.flag_or(Key::Mergeable, true)?,
    }))
}

fn load(alloc: Global, event: &Section<'_>) -> Result<Command, FileFault>
    requires { HasString (members_of event.now) Key.Do (codes "load") }
    ensures read { IfOk result (IsEvent (members_of event.now)) }
    ensures bad { IfErr result (Refutes (IsComplete (members_of event.now) kind.load)) }
{
    event.require_only(alloc, &[Key::Do, Key::Tenant, Key::Hex, Key::Context])?;
    Ok(Command::Apply(Event::Load {
        tenant: event.number(Key::Tenant)?,
        text: event.bytes(alloc, Key::Hex)?,
        context_size: event.number(Key::Context)?,
    }))
}

fn begin(alloc: Global, event: &Section<'_>) -> Result<Command, FileFault>
    requires { HasString (members_of event.now) Key.Do (codes "begin") }
    ensures read { IfOk result (IsEvent (members_of event.now)) }
    ensures bad { IfErr result (Refutes (IsComplete (members_of event.now) kind.begin)) }
{
    event.require_only(alloc, &[Key::Do, Key::Tenant, Key::Program, Key::Context])?;
    Ok(Command::Apply(Event::Begin {
        tenant: event.number(Key::Tenant)?,
        program: event.number(Key::Program)?,
        context: event.bytes(alloc, Key::Context)?,
    }))
}

fn step(alloc: Global, event: &Section<'_>) -> Result<Command, FileFault>
    requires { HasString (members_of event.now) Key.Do (codes "step") }
    ensures read { IfOk result (IsEvent (members_of event.now)) }
    ensures bad { IfErr result (Refutes (IsComplete (members_of event.now) kind.step)) }
{
    event.require_only(alloc, &[Key::Do, Key::Tenant, Key::Count])?;
    Ok(Command::Step {
        tenant: event.number(Key::Tenant)?,
        count: event.number_or(Key::Count, 1)?,
    })
}

fn finish(alloc: Global, event: &Section<'_>) -> Result<Command, FileFault>
    requires { HasString (members_of event.now) Key.Do (codes "finish") }
    ensures read { IfOk result (IsEvent (members_of event.now)) }
    ensures bad { IfErr result (Refutes (IsComplete (members_of event.now) kind.finish)) }
{
    event.require_only(alloc, &[Key::Do, Key::Tenant])?;
    Ok(Command::Finish {
        tenant: event.number(Key::Tenant)?,
    })
}

fn run(alloc: Global, event: &Section<'_>) -> Result<Command, FileFault>
    requires { HasString (members_of event.now) Key.Do (codes "run") }
    ensures read { IfOk result (IsEvent (members_of event.now)) }
    ensures bad { IfErr result (Refutes (IsComplete (members_of event.now) kind.run)) }
{
    event.require_only(alloc, &[Key::Do, Key::Tenant, Key::Program, Key::Context])?;
    Ok(Command::Run {
        tenant: event.number(Key::Tenant)?,
        program: event.number(Key::Program)?,
        context: event.bytes(alloc, Key::Context)?,
    })
}

fn visit(alloc: Global, event: &Section<'_>) -> Result<Command, FileFault>
    requires { HasString (members_of event.now) Key.Do (codes "visit") }
    ensures read { IfOk result (IsEvent (members_of event.now)) }
    ensures bad { IfErr result (Refutes (IsComplete (members_of event.now) kind.visit)) }
{
    event.require_only(alloc, &[Key::Do, Key::Count])?;
    Ok(Command::Visit {
        count: event.any_number(Key::Count)?,
    })
}

fn update(alloc: Global, event: &Section<'_>) -> Result<Command, FileFault>
    requires { HasString (members_of event.now) Key.Do (codes "update") }
    ensures read { IfOk result (IsEvent (members_of event.now)) }
    ensures bad { IfErr result (Refutes (IsComplete (members_of event.now) kind.update)) }
{
    event.require_only(
        alloc,
        &[Key::Do, Key::Tenant, Key::Map, Key::Key, Key::Value],
    )?;
    Ok(Command::Apply(Event::HostUpdate {
        tenant: event.number(Key::Tenant)?,
        map: event.number(Key::Map)?,
        key: event.number(Key::Key)?,
        value: event.bytes(alloc, Key::Value)?,
    }))
}

fn lookup(alloc: Global, event: &Section<'_>) -> Result<Command, FileFault>
    requires { HasString (members_of event.now) Key.Do (codes "lookup") }
    ensures read { IfOk result (IsEvent (members_of event.now)) }
    ensures bad { IfErr result (Refutes (IsComplete (members_of event.now) kind.lookup)) }
{
    event.require_only(alloc, &[Key::Do, Key::Tenant, Key::Map, Key::Key])?;
    Ok(Command::Apply(Event::HostLookup {
        tenant: event.number(Key::Tenant)?,
        map: event.number(Key::Map)?,
        key: event.number(Key::Key)?,
    }))
}

fn set(alloc: Global, event: &Section<'_>) -> Result<Command, FileFault>
    requires { HasString (members_of event.now) Key.Do (codes "set") }
    ensures read { IfOk result (IsEvent (members_of event.now)) }
    ensures bad { IfErr result (Refutes (IsComplete (members_of event.now) kind.set)) }
{
    event.require_only(alloc, &[Key::Do, Key::Option, Key::Value])?;
    Ok(Command::Apply(Event::Set {
        option: option(alloc, event)?,
        value: event.number(Key::Value)?,
    }))
}

/// The option that an event names.
fn option(alloc: Global, event: &Section<'_>) -> Result<Opt, FileFault>
    ensures read { IfOk result (HasOption (members_of event.now)) }
    ensures bad { IfErr result (MeansNone (HasOption (members_of event.now))) }
{
    let name = event.text(Key::Option)?;
    match Opt::named(name) {
        Some(option) => Ok(option),
        None => Err(event.bad(Cause::UnknownOption(quoted(alloc, name)?))),
    }
}

fn unmerge(alloc: Global, event: &Section<'_>) -> Result<Command, FileFault>
    requires { HasString (members_of event.now) Key.Do (codes "unmerge") }
    ensures read { IfOk result (IsEvent (members_of event.now)) }
    ensures bad { IfErr result (Refutes (IsComplete (members_of event.now) kind.unmerge)) }
{
    event.require_only(alloc, &[Key::Do])?;
    Ok(Command::Apply(Event::Unmerge))
}

fn counters(alloc: Global, event: &Section<'_>) -> Result<Command, FileFault>
    requires { HasString (members_of event.now) Key.Do (codes "counters") }
    ensures read { IfOk result (IsEvent (members_of event.now)) }
    ensures bad { IfErr result (Refutes (IsComplete (members_of event.now) kind.counters)) }
{
    event.require_only(alloc, &[Key::Do])?;
    Ok(Command::Apply(Event::Counters))
}

fn unload(alloc: Global, event: &Section<'_>) -> Result<Command, FileFault>
    requires { HasString (members_of event.now) Key.Do (codes "unload") }
    ensures read { IfOk result (IsEvent (members_of event.now)) }
    ensures bad { IfErr result (Refutes (IsComplete (members_of event.now) kind.unload)) }
{
    event.require_only(alloc, &[Key::Do, Key::Tenant, Key::Program])?;
    Ok(Command::Apply(Event::Unload {
        tenant: event.number(Key::Tenant)?,
        program: event.number(Key::Program)?,
    }))
}

fn drop_map(alloc: Global, event: &Section<'_>) -> Result<Command, FileFault>
    requires { HasString (members_of event.now) Key.Do (codes "drop") }
    ensures read { IfOk result (IsEvent (members_of event.now)) }
    ensures bad { IfErr result (Refutes (IsComplete (members_of event.now) kind.drop)) }
{
    event.require_only(alloc, &[Key::Do, Key::Tenant, Key::Map])?;
    Ok(Command::Apply(Event::DropMap {
        tenant: event.number(Key::Tenant)?,
        map: event.number(Key::Map)?,
    }))
}
