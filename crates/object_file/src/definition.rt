//! Maps that a section .maps defines by types (libbpf: parse_btf_map_def).

ghost use Rattle.object_file.specs.Maps.{AreShapedMaps};

use crate::btf::{ARRAY, Btf, POINTER, SECTION, STRUCT, Type, VARIABLE};
use crate::map::{Maps, Reach};
use crate::object::{Object, Symbols};
use host_types::Shape;
use object_error::{Cause, ObjectError, shown};
use std::alloc::Global;

/// The type of array maps: BPF_MAP_TYPE_ARRAY.
pub(crate) const ARRAY_MAP: u32 = 2;

/// The number of a type that is left out.
const NO_TYPE: u32 = 0;

/// The most fields of a definition that are read: twice as many as there are, and more.
const MOST_FIELDS: usize = 16;

/// What is said of a map.
#[derive(Clone, Copy)]
pub(crate) struct Definition {
    pub kind: u32,
    pub key_size: u32,
    pub value_size: u32,
    pub entries: u32,
    pub flags: u32,
}

impl Definition {
    const EMPTY: Definition = Definition {
        kind: 0,
        key_size: 0,
        value_size: 0,
        entries: 0,
        flags: 0,
    };

    /// Whether another definition says what this one says: `key` and `key_size` may both be given, and `value` and `value_size`.
    fn is_kept_by(&self, more: &Definition) -> bool {
        is_same(self.kind, more.kind)
            && is_same(self.key_size, more.key_size)
            && is_same(self.value_size, more.value_size)
            && is_same(self.entries, more.entries)
            && is_same(self.flags, more.flags)
    }

    /// The shape of an array map that is so defined. A refusal names the map.
    pub fn shape(
        &self,
        alloc: Global,
        section: usize,
        offset: usize,
        name: &[u8],
    ) -> Result<Shape, ObjectError> {
        let name = shown(alloc, name)?;
        if self.kind != ARRAY_MAP {
            return Err(ObjectError::at(section, offset, Cause::MapType(name, self.kind)));
        }
        if self.key_size != 4 {
            return Err(ObjectError::at(section, offset, Cause::MapKey(name, self.key_size)));
        }
        if self.flags != 0 {
            return Err(ObjectError::at(section, offset, Cause::MapFlags(name, self.flags)));
        }
        Ok(Shape {
            value_size: self.value_size,
            entries: self.entries,
        })
    }
}

/// Whether a number stays as it was, if it was said.
fn is_same(before: u32, after: u32) -> bool {
    before == 0 || before == after
}

/// Adds the maps of a section .maps, if there is one, in the order of their types.
pub(crate) fn add_defined(
    alloc: Global,
    object: &Object<'_>,
    symbols: &Symbols<'_>,
    maps: &mut Maps,
) -> Result<(), ObjectError>
    ensures { AreShapedMaps maps.old.maps.items → AreShapedMaps maps.new.maps.items }
{
    let Some(defined) = object.named(b".maps")? else {
        return Ok(());
    };
    let number = defined.number;
    let Some(section) = object.named(b".BTF")? else {
        return Err(ObjectError::at(number, 0, Cause::NoBtf));
    };
    let btf = Btf::read(alloc, section.number, object.contents(&section)?)?;
    let Some(variables) = btf.named(SECTION, b".maps") else {
        return Err(ObjectError::at(number, 0, Cause::NoBtf));
    };
    for variable in 0..variables.count {
        let Some((name, members)) = variable_of(&btf, &variables, variable) else {
            return Err(ObjectError::at(section.number, 0, Cause::BadBtf));
        };
        add_map(alloc, symbols, number, &btf, name, members, maps)?;
    }
    Ok(())
}

/// The name of a variable of a section, and its type, if it has one: clang gives none to an array of structs.
fn variable_of<'a>(
    btf: &Btf<'a>,
    variables: &Type,
    variable: usize,
) -> Option<(&'a [u8], Option<Type>)> {
    let variable = btf.by_number(btf.word(variables, variable.checked_mul(3)?)?)?;
    if variable.kind != VARIABLE {
        return None;
    }
    let name = btf.name(variable.name)?;
    if variable.operand == NO_TYPE {
        return Some((name, None));
    }
    Some((name, Some(btf.resolved(variable.operand)?)))
}

/// Adds the map of a name that is defined by the members of a struct, if its type is one.
fn add_map(
    alloc: Global,
    symbols: &Symbols<'_>,
    section: usize,
    btf: &Btf<'_>,
    name: &[u8],
    members: Option<Type>,
    maps: &mut Maps,
) -> Result<(), ObjectError>
    ensures { AreShapedMaps maps.old.maps.items → AreShapedMaps maps.new.maps.items }
{
    let members = match members {
        Some(members) if members.kind == STRUCT => members,
        _ => return Err(ObjectError::at(section, 0, Cause::NoMapStruct(shown(alloc, name)?))),
    };
    let Some(symbol) = symbols.named(section, name)? else {
        return Err(ObjectError::at(section, 0, Cause::NoMapSymbol(shown(alloc, name)?)));
    };
    let definition = definition_of(alloc, section, symbol.value, btf, name, &members)?;
    let shape = definition.shape(alloc, section, symbol.value, name)?;
    let map = maps.add(alloc, section, name, shape, &[], false)?;
    maps.aim(section, Reach::Definition(symbol.value), map)
}

/// What the members of a struct say of a map.
fn definition_of(
    alloc: Global,
    section: usize,
    offset: usize,
    btf: &Btf<'_>,
    name: &[u8],
    members: &Type,
) -> Result<Definition, ObjectError> {
    let mut definition = Definition::EMPTY;
    for member in 0..members.count.min(MOST_FIELDS) {
        let Some((field, kind)) = member_of(btf, members, member) else {
            return Err(ObjectError::at(btf.number, 0, Cause::BadBtf));
        };
        let Some(more) = with_field(definition, btf, field, kind) else {
            let cause = Cause::MapField(shown(alloc, name)?, shown(alloc, field)?);
            return Err(ObjectError::at(section, offset, cause));
        };
        if !definition.is_kept_by(&more) {
            let cause = Cause::MapFieldAgain(shown(alloc, name)?, shown(alloc, field)?);
            return Err(ObjectError::at(section, offset, cause));
        }
        definition = more;
    }
    if members.count > MOST_FIELDS {
        let cause = Cause::MapDefinition(shown(alloc, name)?);
        return Err(ObjectError::at(section, offset, cause));
    }
    Ok(definition)
}

/// The name and the type of a member.
fn member_of<'a>(btf: &Btf<'a>, members: &Type, member: usize) -> Option<(&'a [u8], u32)> {
    let word = member.checked_mul(3)?;
    let at = btf.word(members, word)?;
    Some((
        btf.name(at as usize)?,
        btf.word(members, word.checked_add(1)?)?,
    ))
}

/// What is said of a map with one field more: a number is the length of an array that the field points to (`__uint`), a type
/// what it points to (`__type`).
fn with_field(
    definition: Definition,
    btf: &Btf<'_>,
    field: &[u8],
    kind: u32,
) -> Option<Definition> {
    let pointer = btf.resolved(kind)?;
    if pointer.kind != POINTER {
        return None;
    }
    let points_to = pointer.operand;
    let mut definition = definition;
    match field {
        b"type" => definition.kind = number_of(btf, points_to)?,
        b"key_size" => definition.key_size = number_of(btf, points_to)?,
        b"value_size" => definition.value_size = number_of(btf, points_to)?,
        b"max_entries" => definition.entries = number_of(btf, points_to)?,
        b"map_flags" => definition.flags = number_of(btf, points_to)?,
        b"key" => definition.key_size = btf.size_of(points_to)?,
        b"value" => definition.value_size = btf.size_of(points_to)?,
        _ => return None,
    }
    Some(definition)
}

/// The length of an array type.
fn number_of(btf: &Btf<'_>, number: u32) -> Option<u32> {
    let array = btf.by_number(number)?;
    if array.kind != ARRAY {
        return None;
    }
    btf.word(&array, 2)
}
