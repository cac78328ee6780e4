//! Kinds and slots of the stack, as rows write them and lines print them.

ghost use Rattle.std.specs.Prelude.{IfSome};
ghost use Rattle.verifier_kinds.specs.Kinds.{AreOffsets, IsKind, IsNormal, IsOffset};

use std::io;
use verifier_kinds::{Align, Kind, Offsets, Range, StackSlot};

/// Prints the offsets of a pointer to a value of a map.
fn print_value(rt: &impl Print, map: u32, offsets: Offsets) -> io::Result<()> {
    let low = i64::from(offsets.low) - 65536;
    let high = i64::from(offsets.high) - 65536;
    let align = offsets.align.factor();
    print!(rt; "value of {map}, {low} to {high} by {align}")
}

/// Prints what is known of a register.
pub(crate) fn print_kind(rt: &impl Print, kind: Option<Kind>) -> io::Result<()> {
    match kind {
        None => print!(rt; "nothing"),
        Some(Kind::Context(offset)) => print!(rt; "context {offset}"),
        Some(Kind::Stack(offset)) => print!(rt; "stack {offset}"),
        Some(Kind::Scalar(Range { low, high, align })) => {
            let align = align.factor();
            print!(rt; "{low} to {high} by {align}")
        }
        Some(Kind::MapValue { map, offsets }) => print_value(rt, map, offsets),
        Some(Kind::MaybeValue { map, call }) => print!(rt; "value of {map} or 0, from {call}"),
        Some(Kind::MapName(map)) => print!(rt; "map {map}"),
    }
}

/// Prints what is known of a slot of the stack: the kind that it keeps, or the bytes that are written, the
/// highest first.
pub(crate) fn print_slot(rt: &impl Print, slot: StackSlot) -> io::Result<()> {
    match slot {
        StackSlot::Kept(kind) => print_kind(rt, Some(kind)),
        StackSlot::Bytes(set) => print!(rt; "bytes {set:08b}"),
    }
}

/// The alignment that is written as its power of 2.
fn align_of(factor: &str) -> Option<Align> {
    match factor {
        "1" => Some(Align::One),
        "2" => Some(Align::Two),
        "4" => Some(Align::Four),
        "8" => Some(Align::Eight),
        _ => None,
    }
}

/// The ends and the alignment that are written `LOW to HIGH by ALIGN`.
fn ends_of(text: &str) -> Option<(&str, &str, Align)> {
    let (low, rest) = text.split_once(" to ")?;
    let (high, factor) = rest.split_once(" by ")?;
    Some((low, high, align_of(factor)?))
}

/// The range itself, if it is in the form of those that a kind has.
fn if_normal(range: Range) -> Option<Range>
    ensures { IfSome result IsNormal }
{
    let factor = range.align.factor();
    if range.low == range.high {
        let constant = Range::constant(range.low);
        (range == constant).then_some(constant)
    } else if range.low < range.high && range.low % factor == 0 && range.high % factor == 0 {
        Some(range)
    } else {
        None
    }
}

/// The numbers that are written `LOW to HIGH by ALIGN`.
fn numbers_of(text: &str) -> Option<Range>
    ensures { IfSome result IsNormal }
{
    let (low, high, align) = ends_of(text)?;
    if_normal(Range {
        low: low.parse().ok()?,
        high: high.parse().ok()?,
        align,
    })
}

/// An offset from an element's beginning as it is kept, 65536 greater.
fn kept_offset(text: &str) -> Option<u64> {
    let offset: i32 = text.parse().ok()?;
    u64::try_from(i64::from(offset) + 65536).ok()
}

/// The offsets that are written `LOW to HIGH by ALIGN`, if a pointer to a value may have them.
fn offsets_of(text: &str) -> Option<Offsets>
    ensures { IfSome result AreOffsets }
{
    let (low, high, align) = ends_of(text)?;
    let range = if_normal(Range {
        low: kept_offset(low)?,
        high: kept_offset(high)?,
        align,
    })?;
    if range.high <= 131072 {
        Some(Offsets {
            low: range.low as u32,
            high: range.high as u32,
            align: range.align,
        })
    } else {
        None
    }
}

/// The offset of a pointer to the context or the stack, if a pointer may have it.
fn offset_of(text: &str) -> Option<i32>
    ensures { IfSome result IsOffset }
{
    let offset = text.parse().ok()?;
    if -65536 <= offset && offset <= 65536 {
        Some(offset)
    } else {
        None
    }
}

/// What is written after `value of`: a pointer to a map's value, or a lookup's answer.
fn value_of(text: &str) -> Option<Kind>
    ensures { IfSome result IsKind }
{
    match text.split_once(" or 0, from ") {
        Some((map, call)) => Some(Kind::MaybeValue {
            map: map.parse().ok()?,
            call: call.parse().ok()?,
        }),
        None => {
            let (map, offsets) = text.split_once(", ")?;
            Some(Kind::MapValue {
                map: map.parse().ok()?,
                offsets: offsets_of(offsets)?,
            })
        }
    }
}

/// The kind that is written as `print_kind` prints it, if the verifier may know it of a value.
pub(crate) fn kind_of(text: &str) -> Option<Kind>
    ensures { IfSome result IsKind }
{
    let (word, rest) = text.split_once(' ')?;
    match word {
        "context" => Some(Kind::Context(offset_of(rest)?)),
        "stack" => Some(Kind::Stack(offset_of(rest)?)),
        "map" => Some(Kind::MapName(rest.parse().ok()?)),
        "value" => value_of(rest.strip_prefix("of ")?),
        _ => Some(Kind::Scalar(numbers_of(text)?)),
    }
}

/// The slot of the stack that is written as `print_slot` prints it.
pub(crate) fn slot_of(text: &str) -> Option<StackSlot> {
    match text.strip_prefix("bytes ") {
        Some(set) => Some(StackSlot::Bytes(u8::from_str_radix(set, 2).ok()?)),
        None => Some(StackSlot::Kept(kind_of(text)?)),
    }
}
