//! Loads of one byte by its address in a map's first value, at the offsets up to the first one after it.

use crate::fixture::Value;
use crate::row::{Row, fixture_of};
use crate::runs::{Outcome, agrees};
use host_types::Refused;
use host_types::rule::OUTSIDE_MAP;
use std::alloc::{AllocError, Global};

/// Shapes as rows write them, the size of their values, and by how much the offsets of loads differ: by 1 in small
/// values. It is a power of two, and each size a multiple of it.
const SHAPES: [(&str, u32, u32); 4] = [
    ("1:1", 1, 1),
    ("7:3", 7, 1),
    ("8:1", 8, 1),
    ("4096:2", 4096, 128),
];

/// `r0` is the address at offset 0 in the first value of map 0, then the byte there, and the answer.
const LOAD: [u8; 32] = [
    0x18, 0x20, 0, 0, 0, 0, 0, 0, 0, 0, 0, 0, 0, 0, 0, 0, 0x71, 0, 0, 0, 0, 0, 0, 0, 0x95, 0, 0, 0,
    0, 0, 0, 0,
];

/// Where the offset stands in the program.
const OFFSET: usize = 12;

/// The program that loads the byte at an offset.
fn load_at(alloc: Global, offset: u32) -> Result<Vec<u8>, AllocError> {
    let mut text = LOAD;
    text[OFFSET..OFFSET + 4].copy_from_slice(&offset.to_le_bytes());
    text.to_vec(alloc)
}

/// The byte that stands at an offset.
fn byte_at(offset: u32) -> u8 {
    (offset % 251) as u8
}

/// The value of element 0 of map 0.
fn value_of(alloc: Global, size: u32) -> Result<Value, AllocError> {
    let mut bytes = Vec::new(alloc);
    for offset in 0..size {
        bytes.push(byte_at(offset))?;
    }
    Ok(Value {
        map: 0,
        key: 0,
        bytes,
    })
}

/// What a load at an offset is to do: it answers the byte, or is refused where it lies after the value.
fn wanted_at(size: u32, offset: u32) -> Outcome {
    if offset < size {
        Outcome::Returned {
            number: u64::from(byte_at(offset)),
            steps: 3,
        }
    } else {
        Outcome::Refused(Refused {
            number: OUTSIDE_MAP,
            slot: 0,
        })
    }
}

/// The row of a load at an offset. `None` where memory ran out.
fn row_at(alloc: Global, shape: &str, size: u32, offset: u32) -> Option<Row> {
    let mut values = Vec::new(alloc);
    values.push(value_of(alloc, size).ok()?).ok()?;
    Some(Row {
        text: load_at(alloc, offset).ok()?,
        fixture: fixture_of(alloc, shape, values, Vec::new(alloc))?,
        wanted: wanted_at(size, offset),
        after: Vec::new(alloc),
    })
}

/// How many loads go as they are to, at offsets from 0 to the first one after the value.
fn agreeing_of(alloc: Global, shape: &str, size: u32, apart: u32) -> usize {
    let mut count: usize = 0;
    for offset in 0..=size {
        if offset & apart.saturating_sub(1) == 0 {
            if let Some(row) = row_at(alloc, shape, size, offset) {
                count = count.saturating_add(usize::from(agrees(alloc, &row)));
            }
        }
    }
    count
}

/// How many loads of a byte go as they are to, of 52.
pub(crate) fn agreeing_offsets(alloc: Global) -> usize {
    let mut count: usize = 0;
    for (shape, size, apart) in SHAPES {
        count = count.saturating_add(agreeing_of(alloc, shape, size, apart));
    }
    count
}
