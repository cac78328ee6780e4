//! Maps that a section `maps` defines by numbers (struct bpf_map_def of older libraries): type, key_size, value_size, max_entries
//! and map_flags, of 32 bits each.

ghost use Rattle.object_file.specs.Maps.{AreShapedMaps};

use crate::definition::Definition;
use crate::field::{part_at, u32_at};
use crate::map::{Maps, Reach, is_zeros};
use crate::object::{Object, Symbol, Symbols};
use object_error::{Cause, ObjectError, shown};
use std::alloc::Global;

/// The bytes of a definition.
const DEFINITION: usize = 20;

/// Adds the maps of a section `maps`, if there is one, in the order of their symbols.
pub(crate) fn add_legacy(
    alloc: Global,
    object: &Object<'_>,
    symbols: &Symbols<'_>,
    maps: &mut Maps,
) -> Result<(), ObjectError>
    ensures { AreShapedMaps maps.old.maps.items → AreShapedMaps maps.new.maps.items }
{
    let Some(section) = object.named(b"maps")? else {
        return Ok(());
    };
    let contents = object.contents(&section)?;
    for number in 0..symbols.count() {
        let symbol = symbols.symbol(number)?;
        if symbol.section == section.number && symbol.is_object() {
            add_map(alloc, contents, symbols.name(&symbol)?, &symbol, maps)?;
        }
    }
    Ok(())
}

/// Adds the map of a symbol.
fn add_map(
    alloc: Global,
    contents: &[u8],
    name: &[u8],
    symbol: &Symbol,
    maps: &mut Maps,
) -> Result<(), ObjectError>
    ensures { AreShapedMaps maps.old.maps.items → AreShapedMaps maps.new.maps.items }
{
    let section = symbol.section;
    let Some(definition) = definition_at(contents, symbol) else {
        let cause = Cause::MapDefinition(shown(alloc, name)?);
        return Err(ObjectError::at(section, symbol.value, cause));
    };
    let shape = definition.shape(alloc, section, symbol.value, name)?;
    let map = maps.add(alloc, section, name, shape, &[], false)?;
    maps.aim(section, Reach::Definition(symbol.value), map)
}

/// What the bytes of a symbol say of a map, if they are five numbers and else zeros.
fn definition_at(contents: &[u8], symbol: &Symbol) -> Option<Definition> {
    let bytes = part_at(contents, symbol.value, symbol.size)?;
    if !is_zeros(bytes.get(DEFINITION..)?) {
        return None;
    }
    Some(Definition {
        kind: u32_at(bytes, 0)?,
        key_size: u32_at(bytes, 4)?,
        value_size: u32_at(bytes, 8)?,
        entries: u32_at(bytes, 12)?,
        flags: u32_at(bytes, 16)?,
    })
}
