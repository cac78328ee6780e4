//! The program of an object file.

ghost use Rattle.std.specs.Prelude.{IfOk};
ghost use Rattle.object_file.specs.Maps.{AreShapedMaps};
ghost use Rattle.object_file.specs.Programs.{AreTextsOf, IsProgramOf};

use crate::data::add_globals;
use crate::definition::add_defined;
use crate::field::{u16_at, u32_at};
use crate::function::{Function, Functions, MOST_FUNCTIONS, chosen};
use crate::instruction::first_missing;
use crate::legacy::add_legacy;
use crate::lines::with_line;
use crate::map::{Map, Maps};
use crate::object::{Object, Symbols};
use crate::text::{Tables, Text, relocated};
use host_types::limits::MAX_TEXT;
use object_error::{Cause, ObjectError};
use std::alloc::Global;

/// The most bytes of functions. A copy has all slots of its function but the last exit, and stands for one slot, its call: so at most 256 functions
/// of more than 8192 slots have more than 4096 when no function is called any more, and are refused whatever they do. But nothing stands for a call
/// of a function that only returns: a program with more than 3500 of these may be refused here alone, as README.md says.
const MOST_OF_FUNCTIONS: usize = 2 * MAX_TEXT;

/// A program for a host: the texts of a function and of those that it calls, the first of them the program's own, and the maps that
/// they name, by their numbers.
#[derive(Drop)]
pub struct Program {
    pub texts: Vec<Text>,
    pub maps: Vec<Map>,
}

/// The program of an object file. Of several functions the one that a name chooses is taken, its own or its section's. A refusal at an
/// instruction has the line of which it was made, where the file says it.
pub fn program_of(alloc: Global, bytes: &[u8], name: Option<&str>) -> Result<Program, ObjectError>
    ensures { IfOk result (IsProgramOf bytes.now) }
{
    match program_in(alloc, bytes, name) {
        Ok(program) => Ok(program),
        Err(error) => Err(with_line(error, alloc, bytes)?),
    }
}

/// The same, with no line in a refusal.
fn program_in(alloc: Global, bytes: &[u8], name: Option<&str>) -> Result<Program, ObjectError>
    ensures { IfOk result (IsProgramOf bytes.now) }
{
    let object = Object::read(bytes)?;
    refuse_core(&object)?;
    refuse_constructors(&object)?;
    let symbols = object.symbols()?;
    let maps = maps_of(alloc, &object, &symbols)?;
    let function = chosen(alloc, &object, &symbols, name)?;
    let tables = Tables {
        object,
        symbols,
        maps: &maps,
    };
    let texts = texts_of(alloc, &tables, function)?;
    Ok(Program {
        texts,
        maps: maps.maps,
    })
}

/// The texts of a function and of all that are called from it.
fn texts_of(
    alloc: Global,
    tables: &Tables<'_>,
    function: Function,
) -> Result<Vec<Text>, ObjectError>
    ensures { IfOk result (λ texts. AreTextsOf tables.now.object.bytes.now texts.items) }
{
    let mut list = Vec::new(alloc);
    list.push(function)?;
    let mut functions = Functions { list };
    let mut texts = Vec::new(alloc);
    let mut left = MOST_OF_FUNCTIONS;
    for number in 0..MOST_FUNCTIONS {
        let Some(function) = functions.list.get(number).copied() else {
            break;
        };
        let text = relocated(alloc, tables, function, &mut functions)?;
        let Some(fewer) = left.checked_sub(text.bytes.len()) else {
            return Err(function.refused(0, Cause::TooManyFunctions));
        };
        left = fewer;
        if let Some((at, cause)) = first_missing(text.bytes.as_slice()) {
            return Err(function.refused(at, cause));
        }
        texts.push(text)?;
    }
    Ok(texts)
}

/// The maps of an object file: first those that .maps and `maps` define, then global variables.
fn maps_of(alloc: Global, object: &Object<'_>, symbols: &Symbols<'_>) -> Result<Maps, ObjectError>
    ensures { IfOk result (λ maps. AreShapedMaps maps.maps.items) }
{
    let mut maps = Maps::new(alloc);
    add_defined(alloc, object, symbols, &mut maps)?;
    add_legacy(alloc, object, symbols, &mut maps)?;
    add_globals(alloc, object, &mut maps)?;
    Ok(maps)
}

/// Refuses functions that are to run before the program: nothing runs them.
fn refuse_constructors(object: &Object<'_>) -> Result<(), ObjectError> {
    for number in 0..object.sections {
        if object.section(number)?.is_of_constructors() {
            return Err(ObjectError::at(number, 0, Cause::Constructor));
        }
    }
    Ok(())
}

/// Refuses CO-RE relocations, which a section .BTF.ext has.
fn refuse_core(object: &Object<'_>) -> Result<(), ObjectError> {
    let Some(section) = object.named(b".BTF.ext")? else {
        return Ok(());
    };
    let contents = object.contents(&section)?;
    match core_length(contents) {
        Some(0) => Ok(()),
        Some(_) => Err(ObjectError::at(section.number, 28, Cause::CoreRelocations)),
        None => Err(ObjectError::at(section.number, 0, Cause::BadBtf)),
    }
}

/// The bytes of CO-RE relocations in a section .BTF.ext. Older headers, of less than 32 bytes, have none.
fn core_length(contents: &[u8]) -> Option<u32> {
    if u16_at(contents, 0)? != 0xeb9f {
        return None;
    }
    if u32_at(contents, 4)? < 32 {
        return Some(0);
    }
    u32_at(contents, 28)
}
