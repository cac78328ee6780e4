//! Constants in registers, by which copies of blocks may be kept apart.

use crate::deciding_registers::{DecidingRegisters, Registers, in_set};
use crate::flows::Known;
use verifier_kinds::Kind;

/// What is known exactly of each register, as a word of what kind it is and a number.
#[derive(Clone, Copy)]
pub(crate) struct Values {
    exact: [Option<(u32, u64)>; 10],
}

/// By what copies of blocks are kept apart.
#[derive(Drop)]
pub enum Keeping {
    /// By nothing: a loop has one copy for each turn.
    Turns,
    /// By the constants in the registers that decide something.
    Constants(DecidingRegisters),
}

/// A number in the order of signed ones.
fn in_order(offset: i32) -> u64 {
    (i64::from(offset) + 4_294_967_296) as u64
}

/// What is known of a register, if that is exact.
fn exact(kind: Option<Kind>) -> Option<(u32, u64)> {
    match kind? {
        Kind::Scalar(range) if range.low == range.high => Some((0, range.low)),
        Kind::Context(offset) => Some((1, in_order(offset))),
        Kind::Stack(offset) => Some((2, in_order(offset))),
        Kind::MapName(map) => Some((3, u64::from(map))),
        Kind::MapValue { map, offsets } if offsets.low == offsets.high => {
            Some((map.saturating_add(4), u64::from(offsets.low)))
        }
        _ => None,
    }
}

/// How far two numbers are from each other.
fn distance(one: Option<(u32, u64)>, other: Option<(u32, u64)>) -> u64 {
    match (one, other) {
        (Some((kind, one)), Some((same, other))) if kind == same => one.abs_diff(other),
        _ => 0,
    }
}

impl Values {
    /// Nothing is known exactly.
    pub const NONE: Values = Values { exact: [None; 10] };

    /// The constants in some of the registers.
    fn of(known: &Known, registers: Registers) -> Values {
        let mut values = Values::NONE;
        let mut register: u8 = 0;
        for value in values.exact.iter_mut() {
            if in_set(registers, register) {
                *value = exact(known.register(register));
            }
            register = register.wrapping_add(1);
        }
        values
    }

    /// Whether the same is known exactly.
    pub fn is_same(&self, other: &Values) -> bool {
        self.exact
            .iter()
            .zip(other.exact.iter())
            .all(|(one, other)| *one == *other)
    }

    /// How far the numbers are from others, in all.
    pub fn distance_from(&self, other: &Values) -> u64 {
        let mut sum: u64 = 0;
        for (one, other) in self.exact.iter().zip(other.exact.iter()) {
            sum = sum.saturating_add(distance(*one, *other));
        }
        sum
    }
}

impl Keeping {
    /// By which values the copies of the block at a slot are kept apart.
    pub(crate) fn values(&self, slot: u16, known: &Known) -> Values {
        match self {
            Keeping::Turns => Values::NONE,
            Keeping::Constants(deciding) => Values::of(known, deciding.at(slot)),
        }
    }
}
