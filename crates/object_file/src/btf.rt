//! Types of a section .BTF (the kernel's docs/bpf/btf.rst).

use crate::field::{part_at, u16_at, u32_at};
use crate::object::name_at;
use object_error::{Cause, ObjectError};
use std::alloc::Global;

/// The bytes of a type, without what follows it by its kind.
const RECORD: usize = 12;

/// The most types of a file.
const MOST_TYPES: usize = 65536;

/// How many steps a name of a type may be away from it, as in libbpf.
const MOST_STEPS: u32 = 32;

/// Kinds of types that are looked at: BTF_KIND_.
pub(crate) const POINTER: u32 = 2;

pub(crate) const ARRAY: u32 = 3;

pub(crate) const STRUCT: u32 = 4;

pub(crate) const VARIABLE: u32 = 14;

pub(crate) const SECTION: u32 = 15;

/// The types of a file, and the names of those.
#[derive(Drop)]
pub(crate) struct Btf<'a> {
    /// The number of the section.
    pub number: usize,
    types: &'a [u8],
    names: &'a [u8],
    /// Where each type begins. Type 0 is void, and has no record.
    begins: Vec<u32>,
}

/// A type: `operand` is its size or another type, `count` how many members or the like follow at `rest`.
#[derive(Clone, Copy)]
pub(crate) struct Type {
    pub name: usize,
    pub kind: u32,
    pub count: usize,
    pub operand: u32,
    pub rest: usize,
}

/// How many bytes follow a type of a kind with so many members, if there is such a kind.
fn bytes_after(kind: u32, count: usize) -> Option<usize> {
    match kind {
        2 | 7..=12 | 16 | 18 => Some(0),
        1 | 14 | 17 => Some(4),
        3 => Some(12),
        6 | 13 => count.checked_mul(8),
        4 | 5 | 15 | 19 => count.checked_mul(12),
        _ => None,
    }
}

/// The type that begins at an offset, if it is whole.
fn type_at(types: &[u8], at: usize) -> Option<Type> {
    let record = part_at(types, at, RECORD)?;
    let info = u32_at(record, 4)?;
    Some(Type {
        name: u32_at(record, 0)? as usize,
        kind: info >> 24 & 0x1f,
        count: (info & 0xffff) as usize,
        operand: u32_at(record, 8)?,
        rest: at + RECORD,
    })
}

impl<'a> Btf<'a> {
    /// Reads the section of a number.
    pub fn read(alloc: Global, number: usize, bytes: &'a [u8]) -> Result<Self, ObjectError> {
        let Some((types, names)) = parts_of(bytes) else {
            return Err(ObjectError::at(number, 0, Cause::BadBtf));
        };
        let mut begins = Vec::new(alloc);
        let mut at: usize = 0;
        for number_of_type in 0..=types.len() / RECORD {
            if at >= types.len() {
                break;
            }
            if number_of_type >= MOST_TYPES {
                return Err(ObjectError::at(number, at, Cause::TooManyTypes));
            }
            let Some(found) = type_at(types, at) else {
                return Err(ObjectError::at(number, at, Cause::BadBtf));
            };
            let Some(after) = bytes_after(found.kind, found.count) else {
                return Err(ObjectError::at(number, at, Cause::UnknownBtfKind(found.kind)));
            };
            let Ok(begin) = u32::try_from(at) else {
                return Err(ObjectError::at(number, at, Cause::BadBtf));
            };
            begins.push(begin)?;
            at = at.saturating_add(RECORD).saturating_add(after);
        }
        Ok(Btf {
            number,
            types,
            names,
            begins,
        })
    }

    /// A type by its number, which isn't 0.
    pub fn by_number(&self, number: u32) -> Option<Type> {
        let begin = self.begins.get((number as usize).checked_sub(1)?)?;
        type_at(self.types, *begin as usize)
    }

    /// A name.
    pub fn name(&self, at: usize) -> Option<&'a [u8]> {
        name_at(self.names, at)
    }

    /// The first type of a kind with a name.
    pub fn named(&self, kind: u32, name: &[u8]) -> Option<Type> {
        for begin in &self.begins {
            let found = type_at(self.types, *begin as usize)?;
            if found.kind == kind && self.name(found.name) == Some(name) {
                return Some(found);
            }
        }
        None
    }

    /// A word of what follows a type: of members, three words each.
    pub fn word(&self, of: &Type, word: usize) -> Option<u32> {
        u32_at(self.types, of.rest.checked_add(word.checked_mul(4)?)?)
    }

    /// What a type is called for: names, and the words const, volatile and restrict, are passed over.
    pub fn resolved(&self, number: u32) -> Option<Type> {
        let mut number = number;
        for _step in 0..MOST_STEPS {
            let found = self.by_number(number)?;
            if !matches!(found.kind, 8..=11 | 18) {
                return Some(found);
            }
            number = found.operand;
        }
        None
    }

    /// The bytes of a value of a type.
    pub fn size_of(&self, number: u32) -> Option<u32> {
        let mut number = number;
        let mut count: u32 = 1;
        for _step in 0..MOST_STEPS {
            let found = self.resolved(number)?;
            match found.kind {
                1 | 4 | 5 | 6 | 16 | 19 => return count.checked_mul(found.operand),
                POINTER => return count.checked_mul(8),
                ARRAY => {
                    number = self.word(&found, 0)?;
                    count = count.checked_mul(self.word(&found, 2)?)?;
                }
                _ => return None,
            }
        }
        None
    }
}

/// The names of a section .BTF.
pub(crate) fn names_of(bytes: &[u8]) -> Option<&[u8]> {
    let (_, names) = parts_of(bytes)?;
    Some(names)
}

/// The types and the names of a section.
fn parts_of(bytes: &[u8]) -> Option<(&[u8], &[u8])> {
    let header = u32_at(bytes, 4)? as usize;
    if u16_at(bytes, 0)? != 0xeb9f || bytes.get(2) != Some(&1) {
        return None;
    }
    let body = bytes.get(header..)?;
    let types = part_at(
        body,
        u32_at(bytes, 8)? as usize,
        u32_at(bytes, 12)? as usize,
    )?;
    let names = part_at(
        body,
        u32_at(bytes, 16)? as usize,
        u32_at(bytes, 20)? as usize,
    )?;
    Some((types, names))
}
