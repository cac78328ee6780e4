//! An event in the words of a host file.

use host_core::Event;
use host_file::Command;
use host_types::{Bytes, MapNo, Opt};
use std::fmt;

/// The most bytes of a value, a text or a context that are written.
const MOST: usize = 16;

/// What an event of a host file does, with its keys.
#[derive(Clone, Copy)]
pub struct Words<'a>(pub &'a Command);

/// Bytes as hex digits; of more than a few the first, and how many there are.
#[derive(Clone, Copy)]
struct Digits<'a>(&'a [u8]);

impl fmt::Display for Words<'_> {
    fn fmt<W: fmt::Write>(&self, f: &mut fmt::Formatter<W>) -> fmt::Result {
        match self.0 {
            Command::Apply(event) => write_event(f, event),
            Command::Run {
                tenant,
                program,
                context,
            } => write_beginning(f, "run", *tenant, *program, context),
            Command::Step { tenant, count } => write!(f, "step, tenant {tenant}, count {count}"),
            Command::Finish { tenant } => write!(f, "finish, tenant {tenant}"),
            Command::Visit { count: Some(count) } => write!(f, "visit, count {count}"),
            Command::Visit { count: None } => write!(f, "visit"),
        }
    }
}

/// Writes what opens a run. `does` is the word for it.
fn write_beginning<W: fmt::Write>(
    f: &mut fmt::Formatter<W>,
    does: &str,
    tenant: u32,
    program: u32,
    context: &Bytes,
) -> fmt::Result {
    let context = Digits(context.as_slice());
    write!(
        f,
        "{does}, tenant {tenant}, program {program}, context {context}"
    )
}

/// Writes an event of the host.
fn write_event<W: fmt::Write>(f: &mut fmt::Formatter<W>, event: &Event) -> fmt::Result {
    match event {
        Event::CreateMap {
            tenant,
            value_size,
            entries,
            mergeable,
        } => write_map(f, *tenant, *value_size, *entries, *mergeable),
        Event::Load {
            tenant,
            text,
            context_size,
        } => write_load(f, *tenant, text, *context_size),
        Event::Begin {
            tenant,
            program,
            context,
        } => write_beginning(f, "begin", *tenant, *program, context),
        Event::HostUpdate {
            tenant,
            map,
            key,
            value,
        } => write_update(f, *tenant, *map, *key, value),
        Event::HostLookup { tenant, map, key } => {
            write!(f, "lookup, tenant {tenant}, map {map}, key {key}")
        }
        Event::Unload { tenant, program } => {
            write!(f, "unload, tenant {tenant}, program {program}")
        }
        Event::DropMap { tenant, map } => write!(f, "drop, tenant {tenant}, map {map}"),
        Event::Set { option, value } => {
            let name = option_name(*option);
            write!(f, "set, option {name}, value {value}")
        }
        Event::Step { tenant } => write!(f, "step, tenant {tenant}"),
        Event::Visit => write!(f, "visit"),
        Event::Unmerge => write!(f, "unmerge"),
        Event::Counters => write!(f, "counters"),
    }
}

/// Writes what makes a map.
fn write_map<W: fmt::Write>(
    f: &mut fmt::Formatter<W>,
    tenant: u32,
    value_size: u32,
    entries: u32,
    mergeable: bool,
) -> fmt::Result {
    write!(
        f,
        "map, tenant {tenant}, value_size {value_size}, entries {entries}"
    )?;
    if mergeable {
        return Ok(());
    }
    write!(f, ", mergeable false")
}

/// Writes what loads a program.
fn write_load<W: fmt::Write>(
    f: &mut fmt::Formatter<W>,
    tenant: u32,
    text: &Bytes,
    context_size: u32,
) -> fmt::Result {
    let hex = Digits(text.as_slice());
    write!(
        f,
        "load, tenant {tenant}, hex {hex}, context {context_size}"
    )
}

/// Writes what updates an element of a map.
fn write_update<W: fmt::Write>(
    f: &mut fmt::Formatter<W>,
    tenant: u32,
    map: MapNo,
    key: u32,
    value: &Bytes,
) -> fmt::Result {
    let value = Digits(value.as_slice());
    write!(
        f,
        "update, tenant {tenant}, map {map}, key {key}, value {value}"
    )
}

/// What an option is called.
fn option_name(option: Opt) -> &'static str {
    match option {
        Opt::PagesToScan => "pages_to_scan",
        Opt::Run => "run",
        Opt::UseZeroPages => "use_zero_pages",
        Opt::MaxPageSharing => "max_page_sharing",
    }
}

impl fmt::Display for Digits<'_> {
    fn fmt<W: fmt::Write>(&self, f: &mut fmt::Formatter<W>) -> fmt::Result {
        if self.0.is_empty() {
            return write!(f, "of no bytes");
        }
        for byte in self.0.iter().take(MOST) {
            write!(f, "{byte:02x}")?;
        }
        if self.0.len() > MOST {
            write!(f, ".. of {} bytes", self.0.len())?;
        }
        Ok(())
    }
}
