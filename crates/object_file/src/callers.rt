//! Which function calls another one.

use crate::function::Function;
use crate::instruction::{call_at, moved};
use crate::object::{Object, REL, RELOCATION, Section, Symbol, Symbols};
use crate::relocation::{FUNCTION, Relocation};
use object_error::{Cause, ObjectError};

/// The most relocations that are looked through, of all functions of a file.
const MOST_LOOKED_THROUGH: usize = 65536;

/// A function that calls another one, as relocations say.
pub(crate) fn caller_of(
    object: &Object<'_>,
    symbols: &Symbols<'_>,
    function: &Function,
) -> Result<Option<Symbol>, ObjectError> {
    let mut left = MOST_LOOKED_THROUGH;
    for number in 0..object.sections {
        let section = object.section(number)?;
        if section.kind != REL || !is_text(object, section.info) {
            continue;
        }
        let Some(fewer) = left.checked_sub(section.size / RELOCATION) else {
            return Err(ObjectError::at(number, 0, Cause::TooManyRelocations));
        };
        left = fewer;
        if let Some(at) = call_in(object, symbols, &section, function)? {
            return function_around(symbols, section.info, at);
        }
    }
    Ok(None)
}

/// Whether the section of a number has instructions.
fn is_text(object: &Object<'_>, number: usize) -> bool {
    match object.section(number) {
        Ok(section) => section.is_text(),
        Err(_) => false,
    }
}

/// Where a function is called from outside of it, by the relocations of a section.
fn call_in(
    object: &Object<'_>,
    symbols: &Symbols<'_>,
    relocations: &Section,
    function: &Function,
) -> Result<Option<usize>, ObjectError> {
    let text = object.contents(&object.section(relocations.info)?)?;
    let records = object.contents(relocations)?;
    for number in 0..records.len() / RELOCATION {
        let at = RELOCATION * number;
        let Some(relocation) = Relocation::read(&records[at..at + RELOCATION]) else {
            continue;
        };
        let is_outside = !function.has(relocations.info, relocation.offset);
        if is_outside && relocation.kind == FUNCTION {
            let symbol = symbols.symbol(relocation.symbol)?;
            if leads_to(text, relocation, &symbol, function) {
                return Ok(Some(relocation.offset));
            }
        }
    }
    Ok(None)
}

/// Whether the call of a relocation, by a symbol, is that of a function.
fn leads_to(text: &[u8], relocation: Relocation, symbol: &Symbol, function: &Function) -> bool {
    let Some(distance) = call_at(text, relocation.offset) else {
        return false;
    };
    symbol.section == function.section && moved(symbol.value, distance) == Some(function.begin)
}

/// The function in which an offset of a section lies.
fn function_around(
    symbols: &Symbols<'_>,
    section: usize,
    at: usize,
) -> Result<Option<Symbol>, ObjectError> {
    for number in 0..symbols.count() {
        let symbol = symbols.symbol(number)?;
        let is_here = symbol.is_function() && symbol.section == section;
        if is_here && symbol.value <= at && at - symbol.value < symbol.size {
            return Ok(Some(symbol));
        }
    }
    Ok(None)
}
