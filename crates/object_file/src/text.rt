//! The text of a function with the addresses of maps and global variables filled in.

ghost use Rattle.std.specs.Prelude.{◌≡◌, ◌+◌, ◌<◌, ◌≤◌, ℕ, List, length, vec_len, IfOk, IfSome};
ghost use Rattle.object_file.specs.Programs.{IsTextOf};
ghost use Rattle.object_file.specs.Texts.{IsFilled, IsFilledIn};

use crate::field::{part_at, u32_at};
use crate::function::{Function, Functions};
use crate::instruction::{WIDE, call_at, moved};
use crate::map::Maps;
use crate::object::{Object, REL, RELA, RELOCATION, Section, Symbol, Symbols};
use crate::relocation::{
    ADDRESS, FUNCTION, Filled, NONE, Relocation, filling, name_of, not_filled,
};
use host_types::limits::MAX_TEXT;
use object_error::{Cause, ObjectError};
use std::alloc::Global;

/// The text of a function: the offset of the file at which its bytes stand, the offsets in it of the wide instructions that were
/// filled in, and its calls of functions.
#[derive(Drop)]
pub struct Text {
    pub bytes: Vec<u8>,
    pub begin: usize,
    pub filled: Vec<usize>,
    pub calls: Vec<Call>,
}

/// A call at a slot of a text, of the function with a number.
#[derive(Clone, Copy)]
pub struct Call {
    pub slot: usize,
    pub function: usize,
}

/// The most bytes of the relocations of a section.
const MOST_RELOCATIONS: usize = 65536 * RELOCATION;

/// What is looked up to fill in addresses.
#[derive(Clone, Copy)]
pub(crate) struct Tables<'a> {
    pub object: Object<'a>,
    pub symbols: Symbols<'a>,
    pub maps: &'a Maps,
}

/// Writes a number of four bytes at an offset.
fn put(bytes: &mut [u8], at: usize, number: u32)
    requires { at + 4 ≤ length bytes.old }
    ensures { IsFilledIn bytes.old bytes.new at number }
{
    bytes[at] = (number % 256) as u8;
    bytes[at + 1] = (number / 256 % 256) as u8;
    bytes[at + 2] = (number / 65536 % 256) as u8;
    bytes[at + 3] = (number / 16777216) as u8;
}

/// Writes the fields of a wide instruction that loads an address.
fn fill(text: &mut [u8], at: usize, with: Filled)
    requires room { at + 16 ≤ length text.old }
    requires source { with.source < 16 }
    ensures { IsFilled text.old text.new at with }
{
    text[at + 1] = text[at + 1] % 16 + 16 * with.source;
    put(text, at + 4, with.map);
    put(text, at + 12, with.offset);
}

impl Text {
    ghost use Rattle.object_file.specs.Programs.{IsTextOf};

    /// The bytes of a function, with no address filled in.
    #[tactic(auto, using(crate::proofs::Standing::text_fresh))]
    fn of(alloc: Global, object: &Object<'_>, function: Function) -> Result<Self, ObjectError>
        ensures { IfOk result (IsTextOf object.now.bytes.now) }
    {
        let section = object.section(function.section)?;
        let contents = object.contents(&section)?;
        let Some(bytes) = part_at(contents, function.begin, function.size) else {
            return Err(ObjectError::at(function.section, function.begin, Cause::Cut));
        };
        if bytes.is_empty() || bytes.len() % 8 != 0 || bytes.len() > MAX_TEXT {
            let cause = Cause::TextSize(bytes.len());
            return Err(ObjectError::at(function.section, function.begin, cause));
        }
        Ok(Text {
            bytes: Vec::from_slice(alloc, bytes)?,
            begin: section.start + function.begin,
            filled: Vec::new(alloc),
            calls: Vec::new(alloc),
        })
    }

    /// Fills in the wide instruction at an offset.
    #[tactic(auto, using(crate::proofs::Standing::text_filled, crate::proofs::Standing::text_same))]
    fn fill_in(&mut self, at: usize, with: Filled) -> Result<(), ObjectError>
        requires room { at + 16 ≤ vec_len self.old.bytes }
        requires source { with.source < 16 }
        ensures kept { (file : List ℕ) → IsTextOf file self.old → IsTextOf file self.new }
        ensures same_length { vec_len self.new.bytes ≡ vec_len self.old.bytes }
    {
        self.filled.push(at)?;
        fill(self.bytes.as_mut_slice(), at, with);
        Ok(())
    }

    /// Whether the call at a slot is known.
    fn has_call(&self, slot: usize) -> bool {
        for call in &self.calls {
            if call.slot == slot {
                return true;
            }
        }
        false
    }

    /// Adds a call at a slot.
    #[tactic(auto, using(crate::proofs::Standing::text_same))]
    fn add_call(&mut self, slot: usize, function: usize) -> Result<(), ObjectError>
        ensures { (file : List ℕ) → IsTextOf file self.old → IsTextOf file self.new }
    {
        self.calls.push(Call { slot, function })?;
        Ok(())
    }
}

/// The text of a function, with the addresses that its relocations name filled in. Functions that it calls are added to those
/// that are known.
pub(crate) fn relocated(
    alloc: Global,
    tables: &Tables<'_>,
    function: Function,
    functions: &mut Functions,
) -> Result<Text, ObjectError>
    ensures { IfOk result (IsTextOf tables.now.object.bytes.now) }
{
    let mut text = Text::of(alloc, &tables.object, function)?;
    if let Some(section) = relocations_of(&tables.object, function.section)? {
        relocate_by(alloc, tables, &section, function, functions, &mut text)?;
    }
    add_calls(tables, function, functions, &mut text)?;
    Ok(text)
}

/// The section of the relocations of a section. There is one at most.
fn relocations_of(object: &Object<'_>, of: usize) -> Result<Option<Section>, ObjectError> {
    let mut found = None;
    for number in 0..object.sections {
        let section = object.section(number)?;
        if section.info != of || section.size == 0 {
            continue;
        }
        if section.kind == RELA {
            return Err(ObjectError::at(number, 0, Cause::WithAddends));
        }
        if section.kind != REL {
            continue;
        }
        if found.is_some() || section.size > MOST_RELOCATIONS {
            return Err(ObjectError::at(number, 0, Cause::TooManyRelocations));
        }
        found = Some(section);
    }
    Ok(found)
}

/// Fills in what the relocations of a section name.
fn relocate_by(
    alloc: Global,
    tables: &Tables<'_>,
    section: &Section,
    function: Function,
    functions: &mut Functions,
    text: &mut Text,
) -> Result<(), ObjectError>
    ensures kept { (file : List ℕ) → IsTextOf file text.old → IsTextOf file text.new }
{
    let records = tables.object.contents(section)?;
    for number in 0..records.len() / RELOCATION {
        let at = RELOCATION * number;
        let Some(relocation) = Relocation::read(&records[at..at + RELOCATION]) else {
            return Err(ObjectError::at(section.number, at, Cause::Cut));
        };
        relocate(alloc, tables, relocation, function, functions, text)?;
    }
    Ok(())
}

/// Does what a relocation asks for, if it is one of a function.
fn relocate(
    alloc: Global,
    tables: &Tables<'_>,
    relocation: Relocation,
    function: Function,
    functions: &mut Functions,
    text: &mut Text,
) -> Result<(), ObjectError>
    ensures kept { (file : List ℕ) → IsTextOf file text.old → IsTextOf file text.new }
{
    let Some(at) = relocation.offset.checked_sub(function.begin) else {
        return Ok(());
    };
    if at >= text.bytes.len() {
        return Ok(());
    }
    let refused = |cause: Cause| ObjectError::at(function.section, relocation.offset, cause);
    if relocation.kind == NONE {
        return Ok(());
    }
    if relocation.kind != ADDRESS && relocation.kind != FUNCTION {
        return Err(refused(Cause::UnknownRelocation(relocation.kind)));
    }
    let symbol = tables.symbols.symbol(relocation.symbol)?;
    let name = name_of(alloc, &tables.object, &tables.symbols, &symbol)?;
    if symbol.is_undefined() {
        return Err(refused(Cause::Unresolved(name)));
    }
    if symbol.is_common() {
        return Err(refused(Cause::Common(name)));
    }
    if relocation.kind == FUNCTION {
        return relocate_call(tables, &symbol, name, function, at, functions, text);
    }
    relocate_address(alloc, tables, &symbol, name, function, at, text)
}

/// Fills in the address of a symbol of a name, and what the instruction at an offset adds to it. Of a symbol that isn't a section's own clang
/// adds nothing, and other assemblers its offset, which then counts twice, if it isn't 0.
fn relocate_address(
    alloc: Global,
    tables: &Tables<'_>,
    symbol: &Symbol,
    name: String,
    function: Function,
    at: usize,
    text: &mut Text,
) -> Result<(), ObjectError>
    ensures kept { (file : List ℕ) → IsTextOf file text.old → IsTextOf file text.new }
{
    let Some(added) = added_at(text.bytes.as_slice(), at) else {
        return Err(function.refused(at, Cause::NotWide));
    };
    if added != 0 && symbol.value != 0 && !symbol.is_section() {
        return Err(function.refused(at, Cause::CountedTwice(name)));
    }
    match filling(tables.maps, symbol, added) {
        Some(with) => text.fill_in(at, with),
        None => {
            let cause = not_filled(alloc, &tables.symbols, symbol, added, name)?;
            Err(function.refused(at, cause))
        }
    }
}

/// What is added to the address at an offset of a text, if a wide instruction stands there that isn't filled in.
fn added_at(text: &[u8], at: usize) -> Option<i32>
    ensures { IfSome result (λ added. at + 16 ≤ length text.now) }
{
    let slots = part_at(text, at, 16)?;
    if at % 8 != 0 || slots[0] != WIDE || slots[1] >= 16 {
        return None;
    }
    Some(u32_at(slots, 4)?.cast_signed())
}

/// Adds the call at an offset of a text: of the function that begins as many slots after a symbol as its immediate says, and one.
fn relocate_call(
    tables: &Tables<'_>,
    symbol: &Symbol,
    name: String,
    function: Function,
    at: usize,
    functions: &mut Functions,
    text: &mut Text,
) -> Result<(), ObjectError>
    ensures kept { (file : List ℕ) → IsTextOf file text.old → IsTextOf file text.new }
{
    let slot = at / 8;
    let distance = match call_at(text.bytes.as_slice(), at) {
        Some(distance) if at % 8 == 0 && !text.has_call(slot) => distance,
        _ => return Err(function.refused(at, Cause::NotCall)),
    };
    if distance != 0 && !symbol.is_section() {
        return Err(function.refused(at, Cause::CountedTwice(name)));
    }
    let Some(begin) = moved(symbol.value, distance) else {
        return Err(function.refused(at, Cause::CallOut));
    };
    match functions.number_of(&tables.object, &tables.symbols, symbol.section, begin)? {
        Some(called) => text.add_call(slot, called),
        None => Err(function.refused(at, Cause::CallOut)),
    }
}

/// The offset that a call leads to, as many slots after its own.
fn called_from(begin: usize, at: usize, distance: i64) -> Option<usize> {
    moved(begin.checked_add(at)?, distance)
}

/// Adds the calls of a text that no relocation names: those of functions in its own section.
fn add_calls(
    tables: &Tables<'_>,
    function: Function,
    functions: &mut Functions,
    text: &mut Text,
) -> Result<(), ObjectError>
    ensures kept { (file : List ℕ) → IsTextOf file text.old → IsTextOf file text.new }
{
    let mut is_second = false;
    for slot in 0..text.bytes.len() / 8 {
        let at = 8 * slot;
        let is_wide = !is_second && text.bytes.get(at) == Some(&WIDE);
        let distance = if is_second {
            None
        } else {
            call_at(text.bytes.as_slice(), at)
        };
        is_second = is_wide;
        let Some(distance) = distance else {
            continue;
        };
        if text.has_call(slot) {
            continue;
        }
        let Some(begin) = called_from(function.begin, at, distance) else {
            return Err(function.refused(at, Cause::CallOut));
        };
        let called = functions.number_of(&tables.object, &tables.symbols, function.section, begin)?;
        let Some(called) = called else {
            return Err(function.refused(at, Cause::CallOut));
        };
        text.add_call(slot, called)?;
    }
    Ok(())
}
