//! Global variables: each section of them is the one value of a map, as libbpf has it, but that all read-only sections are one.

ghost use Rattle.std.specs.Prelude.{◌≡◌, ◌⊎◌, [], length};
ghost use Rattle.object_file.specs.Maps.{AreShapedMaps};

use crate::map::{Maps, Reach};
use crate::object::{NOBITS, Object, REL, RELA, Section};
use host_types::Shape;
use host_types::limits::MAX_VALUE_SIZE;
use object_error::{Cause, ObjectError};
use std::alloc::Global;

/// What is done with a section of data.
#[derive(Clone, Copy, PartialEq, Eq)]
enum Kept {
    /// It is a map of its own.
    Alone,
    /// It is part of the map of read-only data.
    ReadOnly,
}

/// Whether a name is that of a section, or has it before a dot.
pub(crate) fn is_named(name: &[u8], section: &[u8]) -> bool {
    match name.strip_prefix(section) {
        Some(rest) => matches!(rest.first(), None | Some(b'.')),
        None => false,
    }
}

/// What is done with a section, if it has global variables.
fn how_kept(object: &Object<'_>, section: &Section) -> Result<Option<Kept>, ObjectError> {
    if !section.is_data() || section.size == 0 {
        return Ok(None);
    }
    let name = object.name(section)?;
    if is_named(name, b".rodata") {
        Ok(Some(Kept::ReadOnly))
    } else if is_named(name, b".data") || is_named(name, b".bss") {
        Ok(Some(Kept::Alone))
    } else {
        Ok(None)
    }
}

/// Adds the maps of global variables, in the order of their sections. Read-only data is added where its first section stands.
pub(crate) fn add_globals(
    alloc: Global,
    object: &Object<'_>,
    maps: &mut Maps,
) -> Result<(), ObjectError>
    ensures { AreShapedMaps maps.old.maps.items → AreShapedMaps maps.new.maps.items }
{
    let mut read_only = None;
    for number in 0..object.sections {
        let section = object.section(number)?;
        match how_kept(object, &section)? {
            Some(Kept::Alone) => add_alone(alloc, object, &section, maps)?,
            Some(Kept::ReadOnly) if read_only.is_none() => {
                read_only = Some(number);
                add_read_only(alloc, object, number, maps)?;
            }
            _ => refuse_addresses(object, &section)?,
        }
    }
    Ok(())
}

/// Adds a map of one section.
fn add_alone(
    alloc: Global,
    object: &Object<'_>,
    section: &Section,
    maps: &mut Maps,
) -> Result<(), ObjectError>
    ensures { AreShapedMaps maps.old.maps.items → AreShapedMaps maps.new.maps.items }
{
    let name = object.name(section)?;
    let map = if section.kind == NOBITS {
        add_value(alloc, section.number, name, section.size, &[], false, maps)?
    } else {
        let contents = object.contents(section)?;
        add_value(
            alloc,
            section.number,
            name,
            contents.len(),
            contents,
            false,
            maps,
        )?
    };
    maps.aim(section.number, Reach::Value(0), map)
}

/// Adds the map of all read-only sections. Each begins at a multiple of eight bytes.
fn add_read_only(
    alloc: Global,
    object: &Object<'_>,
    first: usize,
    maps: &mut Maps,
) -> Result<(), ObjectError>
    ensures { AreShapedMaps maps.old.maps.items → AreShapedMaps maps.new.maps.items }
{
    let map = maps.next();
    let mut bytes: Vec<u8> = Vec::new(alloc);
    for number in 0..object.sections {
        let section = object.section(number)?;
        if how_kept(object, &section)? == Some(Kept::ReadOnly) {
            let begin = append(object, &section, &mut bytes)?;
            maps.aim(number, Reach::Value(begin), map)?;
        }
    }
    add_value(
        alloc,
        first,
        b".rodata",
        bytes.len(),
        bytes.as_slice(),
        true,
        maps,
    )?;
    Ok(())
}

/// Appends the bytes of a section, from a multiple of eight on. Answers where they begin.
fn append(object: &Object<'_>, section: &Section, bytes: &mut Vec<u8>) -> Result<u32, ObjectError> {
    let contents = object.contents(section)?;
    append_zeros(bytes, (8 - bytes.len() % 8) % 8)?;
    let begin = bytes.len();
    if begin > MAX_VALUE_SIZE as usize || section.size > MAX_VALUE_SIZE as usize - begin {
        let size = begin.saturating_add(section.size);
        return Err(ObjectError::at(section.number, 0, Cause::GlobalsSize(size)));
    }
    bytes.extend_from_slice(contents)?;
    // The file has no bytes of a section of zeros.
    append_zeros(bytes, section.size.saturating_sub(contents.len()))?;
    Ok(begin as u32)
}

/// Appends so many zeros.
fn append_zeros(bytes: &mut Vec<u8>, count: usize) -> Result<(), ObjectError> {
    for _zero in 0..count {
        bytes.push(0)?;
    }
    Ok(())
}

/// Adds a map of one value.
fn add_value(
    alloc: Global,
    section: usize,
    name: &[u8],
    size: usize,
    contents: &[u8],
    is_read_only: bool,
    maps: &mut Maps,
) -> Result<u32, ObjectError>
    requires { (contents.now ≡ []) ⊎ (length contents.now ≡ size) }
    ensures { AreShapedMaps maps.old.maps.items → AreShapedMaps maps.new.maps.items }
{
    if size > MAX_VALUE_SIZE as usize {
        return Err(ObjectError::at(section, 0, Cause::GlobalsSize(size)));
    }
    let shape = Shape {
        value_size: size as u32,
        entries: 1,
    };
    maps.add(alloc, section, name, shape, contents, is_read_only)
}

/// Refuses relocations of global variables.
fn refuse_addresses(object: &Object<'_>, relocations: &Section) -> Result<(), ObjectError> {
    if relocations.kind != REL && relocations.kind != RELA || relocations.size == 0 {
        return Ok(());
    }
    let section = object.section(relocations.info)?;
    let is_maps = section.is_data() && object.name(&section)? == b".maps".as_slice();
    if is_maps || how_kept(object, &section)?.is_some() {
        return Err(ObjectError::at(section.number, 0, Cause::RelocatedData));
    }
    Ok(())
}
