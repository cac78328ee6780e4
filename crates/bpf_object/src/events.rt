//! Events of a host file (docs/HOST.md).

use hex::encode;
use object_file::Map;
use object_text::ObjectText;
use std::alloc::{AllocError, Global};
use std::io::{self, Write};

/// Writes the events that make the maps of a program, give them their first bytes and load the program.
pub fn write_events<W: Write>(
    alloc: Global,
    object: &ObjectText,
    hex: &str,
    tenant: u32,
    context: u32,
    output: &mut W,
) -> io::Result<()> {
    for map in &object.maps {
        write_map(map, tenant, output)?;
    }
    for (number, map) in object.maps.iter().enumerate() {
        if !map.first.is_empty() {
            write_update(alloc, number, map, tenant, output)?;
        }
    }
    writeln!(
        output,
        "[[event]]\ndo = \"load\"\ntenant = {tenant}\nhex = \"{hex}\"\ncontext = {context}\n"
    )
}

/// Writes the event that makes a map, after its name.
fn write_map<W: Write>(map: &Map, tenant: u32, output: &mut W) -> io::Result<()> {
    let (name, value_size, entries) = (&map.name, map.shape.value_size, map.shape.entries);
    writeln!(
        output,
        "# {name}\n[[event]]\ndo = \"map\"\ntenant = {tenant}\nvalue_size = {value_size}\nentries = {entries}\n"
    )
}

/// Writes the event that gives a map its first bytes.
fn write_update<W: Write>(
    alloc: Global,
    number: usize,
    map: &Map,
    tenant: u32,
    output: &mut W,
) -> io::Result<()> {
    let value = hex_of(alloc, map.first.as_slice())?;
    writeln!(
        output,
        "[[event]]\ndo = \"update\"\ntenant = {tenant}\nmap = {number}\nkey = 0\nvalue = \"{value}\"\n"
    )
}

/// Writes the name and the shape of each map.
pub fn write_shapes<W: Write>(object: &ObjectText, output: &mut W) -> io::Result<()> {
    for map in &object.maps {
        let (name, value_size, entries) = (&map.name, map.shape.value_size, map.shape.entries);
        writeln!(output, "{name} {value_size}:{entries}")?;
    }
    Ok(())
}

/// The hex text of bytes.
pub fn hex_of(alloc: Global, bytes: &[u8]) -> Result<String, AllocError> {
    encode(alloc, bytes)
}
