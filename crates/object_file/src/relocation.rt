//! What relocations of a text ask for (the kernel's docs/bpf/llvm_reloc.rst).

ghost use Rattle.std.specs.Prelude.{◌<◌, IfSome};

use crate::field::{u32_at, u64_at, usize_at};
use crate::function::symbol_at;
use crate::map::{Maps, Reach, Target};
use crate::object::{Object, Symbol, Symbols};
use object_error::{Cause, ObjectError, shown};
use std::alloc::{AllocError, Global};

/// The kinds of relocations of a text.
pub(crate) const NONE: u32 = 0;

pub(crate) const ADDRESS: u32 = 1;

pub(crate) const FUNCTION: u32 = 10;

/// A relocation: the symbol of a number at an offset of a section.
#[derive(Clone, Copy)]
pub(crate) struct Relocation {
    pub offset: usize,
    pub kind: u32,
    pub symbol: usize,
}

impl Relocation {
    /// The relocation of a record, if it is whole.
    pub fn read(record: &[u8]) -> Option<Self> {
        Some(Relocation {
            offset: usize_at(record, 0)?,
            kind: u32_at(record, 8)?,
            symbol: u32_at(record, 12)? as usize,
        })
    }
}

/// A name for a symbol: that of its section where it is the section's own.
pub(crate) fn name_of(
    alloc: Global,
    object: &Object<'_>,
    symbols: &Symbols<'_>,
    symbol: &Symbol,
) -> Result<String, ObjectError> {
    if symbol.is_section() {
        let section = object.section(symbol.section)?;
        return Ok(shown(alloc, object.name(&section)?)?);
    }
    Ok(shown(alloc, symbols.name(symbol)?)?)
}

/// Why the address of a symbol of a name and what is added to it can't be filled in.
pub(crate) fn not_filled(
    alloc: Global,
    symbols: &Symbols<'_>,
    symbol: &Symbol,
    added: i32,
    name: String,
) -> Result<Cause, ObjectError> {
    let Some(address) = address_of(symbol, added) else {
        return Ok(Cause::OtherAddress(name));
    };
    match symbol_at(symbols, symbol.section, address)? {
        Some(function) => Ok(Cause::FunctionAddress(shown(alloc, symbols.name(&function)?)?)),
        None => Ok(Cause::OtherAddress(name)),
    }
}

/// The address of a symbol and what is added to it.
fn address_of(symbol: &Symbol, added: i32) -> Option<usize> {
    let address = i64::try_from(symbol.value)
        .ok()?
        .checked_add(i64::from(added))?;
    usize::try_from(address).ok()
}

/// What the wide instruction has for an address: its source, the number of a map, and an offset in its first value.
#[derive(Clone, Copy)]
pub(crate) struct Filled {
    pub source: u8,
    pub map: u32,
    pub offset: u32,
}

/// What the wide instruction has for the address of a symbol and what is added to it, if a map is there.
pub(crate) fn filling(maps: &Maps, symbol: &Symbol, added: i32) -> Option<Filled>
    ensures { IfSome result (λ filled. filled.source < 16) }
{
    let address = address_of(symbol, added)?;
    let target = maps.target(symbol.section, address)?;
    match target.reach {
        Reach::Definition(_) => Some(Filled {
            source: 1,
            map: target.map,
            offset: 0,
        }),
        Reach::Value(base) => {
            let offset = u32::try_from(address).ok()?;
            Some(Filled {
                source: 2,
                map: target.map,
                offset: base.checked_add(offset)?,
            })
        }
    }
}
