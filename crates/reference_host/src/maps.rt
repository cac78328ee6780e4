//! Flat maps as lists of bytes, and where their pages stand.

ghost use Rattle.std.specs.Prelude.{length, IfOk};
ghost use Rattle.host_types.specs.Shapes.{IsShape};

use crate::entries;
use host_types::Shape;
use host_types::limits::{MAX_MAPS, PAGE_SIZE};
use reference_machine::ArrayMap;
use std::alloc::{AllocError, Global};

/// A tenant's maps by number.
pub(crate) type Maps = Vec<Option<ArrayMap>>;

/// The pages that some bytes of a map lie in: the first, and how many there are.
#[derive(Clone, Copy, Drop)]
pub(crate) struct PageRange {
    pub(crate) first: usize,
    pub(crate) count: u32,
}

impl PageRange {
    /// The pages of `size` bytes from an index on; the last is that of the last byte.
    pub(crate) fn of(at: usize, size: usize) -> Self {
        let first = at / PAGE_SIZE as usize;
        let last = at.saturating_add(size).saturating_sub(1) / PAGE_SIZE as usize;
        PageRange {
            first,
            count: count_of(last.saturating_sub(first).saturating_add(1)),
        }
    }
}

/// A number of things as 32 bits; none that a host counts is larger.
pub(crate) fn count_of(number: usize) -> u32 {
    u32::try_from(number).unwrap_or(u32::MAX)
}

/// How many pages a map of a shape has.
pub(crate) fn page_count(shape: Shape) -> u32
    requires { IsShape shape }
{
    shape.byte_len().div_ceil(PAGE_SIZE)
}

/// A copy of a map, if it is there.
pub(crate) fn copy_of(
    alloc: Global,
    map: Option<&ArrayMap>,
) -> Result<Option<ArrayMap>, AllocError> {
    let Some(map) = map else {
        return Ok(None);
    };
    let shape = map.shape();
    let bytes = map.bytes().to_vec(alloc)?;
    if !shape.is_valid() || bytes.len() != shape.byte_len() as usize {
        return Ok(None);
    }
    Ok(Some(ArrayMap::new(shape, bytes)))
}

/// A copy of all maps by number.
pub(crate) fn copies_of(alloc: Global, maps: &[Option<ArrayMap>]) -> Result<Maps, AllocError> {
    let mut copies = Vec::new(alloc);
    for number in 0..MAX_MAPS {
        let copy = copy_of(alloc, entries::at(maps, number))?;
        copies.push(copy)?;
    }
    Ok(copies)
}

/// Where an element begins.
pub(crate) fn element_at(shape: Shape, key: u32) -> usize {
    if !shape.is_valid() {
        return 0;
    }
    shape.stride() as usize * key as usize
}

/// The value of an element, which is there.
pub(crate) fn value_of(alloc: Global, map: &ArrayMap, key: u32) -> Result<Vec<u8>, AllocError> {
    let shape = map.shape();
    let at = element_at(shape, key);
    let mut value = Vec::new(alloc);
    for byte in map.bytes().iter().skip(at).take(shape.value_size as usize) {
        value.push(*byte)?;
    }
    Ok(value)
}
