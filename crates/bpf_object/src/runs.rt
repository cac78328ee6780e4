//! Runs of a program, one after the other on the same maps.

use crate::events::hex_of;
use crate::fault::{Fault, written};
use engines::write_reply;
use host_core::{Event, Host, Reply};
use host_types::limits::{MAX_FRAMES, MAX_MAPS};
use host_types::{Bytes, MapNo, Options};
use object_file::Map;
use std::alloc::{AllocError, Global};
use std::io::Write;

/// The only tenant of the host.
const TENANT: u32 = 0;

/// Its only program.
const PROGRAM: u32 = 0;

/// A program that the verifier accepts.
#[derive(Clone, Copy)]
pub struct Accepted<'a> {
    pub text: &'a [u8],
    pub maps: &'a [Map],
    pub context_size: u32,
}

/// Runs a program on contexts that begin with these bytes, and prints what `bpf_host replay` prints of the runs, and then the
/// values that the program left in its maps.
pub fn print_runs<W: Write>(
    alloc: Global,
    program: &Accepted<'_>,
    fronts: &[Bytes],
    output: &mut W,
) -> Result<(), Fault> {
    match Host::new(alloc, MAX_FRAMES, 1, Options::standard()) {
        Ok(mut host) => make_runs(alloc, &mut host, program, fronts, output),
        // The limits are kept, so that memory ran out.
        Err(_) => Err(Fault::OutOfMemory(AllocError)),
    }
}

/// Loads a program into a new host, and makes its runs there.
fn make_runs<W: Write>(
    alloc: Global,
    host: &mut Host,
    program: &Accepted<'_>,
    fronts: &[Bytes],
    output: &mut W,
) -> Result<(), Fault> {
    make_maps(host, program.maps, output)?;
    let loaded = host.load(TENANT, program.text, program.context_size);
    print_reply(0, &loaded, output)?;
    for (run, front) in (0..u64::MAX).zip(fronts.iter()) {
        let context = context_of(alloc, front.as_slice(), program.context_size)?;
        let reply = host.run(TENANT, PROGRAM, context.as_slice());
        print_reply(run, &reply, output)?;
    }
    print_values(alloc, host, program.maps, output)
}

/// Makes the maps of a program, with their first bytes.
fn make_maps<W: Write>(host: &mut Host, maps: &[Map], output: &mut W) -> Result<(), Fault> {
    for (number, map) in (0..MAX_MAPS as MapNo).zip(maps.iter()) {
        let made = host.apply(&Event::CreateMap {
            tenant: TENANT,
            value_size: map.shape.value_size,
            entries: map.shape.entries,
            mergeable: false,
        });
        print_reply(0, &made, output)?;
        if !map.first.is_empty() {
            let updated = host.update(TENANT, number, 0, map.first.as_slice());
            print_reply(0, &updated, output)?;
        }
    }
    Ok(())
}

/// A context that begins with these bytes, and has zeros up to its size.
fn context_of(alloc: Global, front: &[u8], size: u32) -> Result<Vec<u8>, AllocError> {
    let mut context = Vec::from_slice(alloc, front)?;
    for _zero in front.len()..size as usize {
        context.push(0)?;
    }
    Ok(context)
}

/// Prints the line of a reply, if it has one. A refusal ends the runs.
fn print_reply<W: Write>(run: u64, reply: &Reply, output: &mut W) -> Result<(), Fault> {
    // The line names of an event the tenant alone.
    write_reply(output, &Event::Step { tenant: TENANT }, run, reply)?;
    match reply {
        Reply::Refused(_) => Err(Fault::NotRun),
        _ => Ok(()),
    }
}

/// Prints the values that aren't zero of the maps that a program can write.
fn print_values<W: Write>(
    alloc: Global,
    host: &Host,
    maps: &[Map],
    output: &mut W,
) -> Result<(), Fault> {
    for (number, map) in (0..MAX_MAPS as MapNo).zip(maps.iter()) {
        if !map.is_read_only {
            print_map(alloc, host, number, map, output)?;
        }
    }
    Ok(())
}

/// Prints the values of a map that aren't zero.
fn print_map<W: Write>(
    alloc: Global,
    host: &Host,
    number: MapNo,
    map: &Map,
    output: &mut W,
) -> Result<(), Fault> {
    let name = &map.name;
    let mut value = vec![in alloc; 0; map.shape.value_size as usize]?;
    for key in 0..map.shape.entries {
        let found = host.lookup(TENANT, number, key, value.as_mut_slice());
        if found.is_ok() && value.iter().any(|byte| *byte != 0) {
            let value = hex_of(alloc, value.as_slice())?;
            written(writeln!(output, "map {name} key {key}: {value}"))?;
        }
    }
    Ok(())
}
