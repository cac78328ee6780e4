//! What is known of a value, in few signs.

use findings::{Moved, Multiple, greatest, least};
use std::fmt;
use verifier_kinds::{Kind, Range, StackSlot};

/// A kind: `0..56 /8`, `context + 8`, `fp - 4`, `map 0 value + 0..56 /8`, `lookup at 4, may be 0`, `map 0`.
#[derive(Clone, Copy)]
pub struct Few(pub Kind);

impl fmt::Display for Few {
    fn fmt<W: fmt::Write>(&self, f: &mut fmt::Formatter<W>) -> fmt::Result {
        match self.0 {
            Kind::Scalar(range) => write!(f, "{}", Numbers(range)),
            Kind::Context(offset) => write!(f, "context{}", Moved(i64::from(offset))),
            Kind::Stack(offset) => write!(f, "fp{}", Moved(i64::from(offset))),
            Kind::MapValue { map, offsets } => {
                write!(f, "map {map} value")?;
                let low = least(offsets);
                let high = greatest(offsets);
                if low == high {
                    write!(f, "{}", Moved(low))
                } else {
                    write!(f, " + {low}..{high}{}", Multiple("/", offsets.align))
                }
            }
            Kind::MaybeValue { call, .. } => write!(f, "lookup at {call}, may be 0"),
            Kind::MapName(map) => write!(f, "map {map}"),
        }
    }
}

/// What is known of eight bytes of the stack: the kind of their double word, or which of them are set, as `8 bytes
/// set`, `bytes 0..3 set` or `bytes 0 2 set`.
#[derive(Clone, Copy)]
pub struct StackFew(pub StackSlot);

impl fmt::Display for StackFew {
    fn fmt<W: fmt::Write>(&self, f: &mut fmt::Formatter<W>) -> fmt::Result {
        match self.0 {
            StackSlot::Kept(kind) => write!(f, "{}", Few(kind)),
            StackSlot::Bytes(0) => write!(f, "no bytes set"),
            StackSlot::Bytes(u8::MAX) => write!(f, "8 bytes set"),
            StackSlot::Bytes(set) => write_set(f, set),
        }
    }
}

/// Writes which of eight bytes are set, where some are.
fn write_set<W: fmt::Write>(f: &mut fmt::Formatter<W>, set: u8) -> fmt::Result {
    let first = set.trailing_zeros();
    let last = 7 - set.leading_zeros().min(7);
    match set.count_ones() {
        1 => write!(f, "byte {first} set"),
        count if first + count == last + 1 => write!(f, "bytes {first}..{last} set"),
        _ => {
            write!(f, "bytes")?;
            for byte in 0..8u32 {
                if set >> byte & 1 == 1 {
                    write!(f, " {byte}")?;
                }
            }
            write!(f, " set")
        }
    }
}

/// Numbers of a range: one, or the least and the greatest.
#[derive(Clone, Copy)]
struct Numbers(Range);

impl fmt::Display for Numbers {
    fn fmt<W: fmt::Write>(&self, f: &mut fmt::Formatter<W>) -> fmt::Result {
        let range = self.0;
        if range.is_constant() {
            return write!(f, "{}", Number(range.low));
        }
        let low = Number(range.low);
        let high = Number(range.high);
        write!(f, "{low}..{high}{}", Multiple("/", range.align))
    }
}

/// A number of 64 bits. Those near to a width's end are named by it.
#[derive(Clone, Copy)]
struct Number(u64);

impl fmt::Display for Number {
    fn fmt<W: fmt::Write>(&self, f: &mut fmt::Formatter<W>) -> fmt::Result {
        let left = self.0.wrapping_neg();
        if 1 <= left && left <= 4096 {
            write!(f, "2^64-{left}")
        } else if self.0 == 4294967295 {
            write!(f, "2^32-1")
        } else {
            write!(f, "{}", self.0)
        }
    }
}
