//! Where a load or a store goes.

use crate::given::Given;
use crate::kind::Kind;
use crate::range::{Range, remainder};
use crate::rules::Rules;
use host_types::rule::{MISALIGNED, OUTSIDE_CONTEXT, OUTSIDE_MAP, OUTSIDE_STACK};

/// What an access reaches.
#[derive(Clone, Copy)]
pub(crate) enum Reached {
    Context,
    /// So many bytes above the stack's lowest one: whole in the stack, and aligned.
    Stack(usize),
    Value,
    /// It may not be made.
    Nothing,
}

/// Whether bytes lie whole between the ends of a region.
pub(crate) fn lies_within(offset: i128, size: i128, low: i128, high: i128) -> bool {
    low <= offset && offset.saturating_add(size) <= high
}

/// The offset of a byte of the stack above the stack's lowest one, by its offset from the stack's end.
pub(crate) fn stack_offset(offset: i128) -> usize {
    usize::try_from(offset.saturating_add(512)).unwrap_or(0)
}

/// Asks whether an access of the stack is in range and aligned.
fn in_stack(offset: i128, size: i128, rules: &mut Rules) -> Reached {
    let is_inside = lies_within(offset, size, -512, 0);
    let is_aligned = remainder(offset, size) == 0;
    rules.ask(is_inside, OUTSIDE_STACK);
    rules.ask(is_aligned, MISALIGNED);
    if is_inside && is_aligned {
        Reached::Stack(stack_offset(offset))
    } else {
        Reached::Nothing
    }
}

/// Asks whether an access at each of some offsets of a value is in range and aligned.
fn in_value(value_size: i128, offsets: Range, offset: i128, size: i128, rules: &mut Rules) {
    let low = offsets.low.saturating_add(offset);
    let length = offsets
        .high
        .saturating_sub(offsets.low)
        .saturating_add(size);
    rules.ask(lies_within(low, length, 0, value_size), OUTSIDE_MAP);
    let is_aligned = if offsets.low == offsets.high {
        remainder(low, size) == 0
    } else {
        remainder(offsets.factor, size) == 0 && remainder(offset, size) == 0
    };
    rules.ask(is_aligned, MISALIGNED);
}

/// What an access of `size` bytes reaches at a base and an offset.
pub(crate) fn ask_access(
    given: &Given,
    base: Kind,
    offset: i16,
    size: i128,
    rules: &mut Rules,
) -> Reached {
    let offset = i128::from(offset);
    match base {
        Kind::Context(at) => {
            let at = at.saturating_add(offset);
            rules.ask(
                lies_within(at, size, 0, given.context_size),
                OUTSIDE_CONTEXT,
            );
            rules.ask(remainder(at, size) == 0, MISALIGNED);
            Reached::Context
        }
        Kind::Stack(at) => in_stack(at.saturating_add(offset), size, rules),
        Kind::MapValue { map, offsets } => {
            let value_size = given.value_size(map).unwrap_or(0);
            in_value(value_size, offsets, offset, size, rules);
            Reached::Value
        }
        _ => {
            rules.wrong(base);
            Reached::Nothing
        }
    }
}
