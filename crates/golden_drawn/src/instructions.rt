//! Instructions that are drawn, mostly of registers that a built text gives a meaning to: R0, R6 and R8 are
//! numbers, R2 and R3 lead to the stack, R7 to the context, and R9 to a map's value.

use crate::choices::{immediate, index_offset, one_of, rarely, register_of};
use tests_inputs::Draws;

/// The registers that are mostly numbers.
const NUMBERS: [u8; 5] = [0, 8, 6, 6, 8];

/// The registers that are mostly addresses of memory.
const ADDRESSES: [u8; 6] = [10, 2, 3, 7, 9, 9];

/// Arithmetic of 64 bits, the forms with an immediate and with a register.
const ALU_64: [u8; 25] = [
    0x07, 0x0f, 0x17, 0x1f, 0x27, 0x2f, 0x37, 0x3f, 0x47, 0x4f, 0x57, 0x5f, 0x67, 0x6f, 0x77, 0x7f,
    0x87, 0x97, 0x9f, 0xa7, 0xaf, 0xb7, 0xbf, 0xc7, 0xcf,
];

/// Loads, with and without sign.
const LOADS: [u8; 7] = [0x61, 0x69, 0x71, 0x79, 0x81, 0x89, 0x91];

/// Stores of an immediate and of a register.
const STORES: [u8; 8] = [0x62, 0x6a, 0x72, 0x7a, 0x63, 0x6b, 0x73, 0x7b];

/// Conditional jumps of 64 bits.
const BRANCHES: [u8; 22] = [
    0x15, 0x1d, 0x25, 0x2d, 0x35, 0x3d, 0x45, 0x4d, 0x55, 0x5d, 0x65, 0x6d, 0x75, 0x7d, 0xa5, 0xad,
    0xb5, 0xbd, 0xc5, 0xcd, 0xd5, 0xdd,
];

/// A slot by its fields.
#[derive(Clone, Copy)]
pub(crate) struct Slot {
    pub(crate) opcode: u8,
    pub(crate) dst: u8,
    pub(crate) src: u8,
    pub(crate) offset: i16,
    pub(crate) imm: i32,
}

impl Slot {
    /// A slot whose other fields are 0.
    pub(crate) fn new(opcode: u8, dst: u8, src: u8) -> Slot {
        Slot {
            opcode,
            dst,
            src,
            offset: 0,
            imm: 0,
        }
    }

    /// The slot with an offset.
    pub(crate) fn at(mut self, offset: i16) -> Slot {
        self.offset = offset;
        self
    }

    /// The slot with an immediate.
    pub(crate) fn with(mut self, imm: i32) -> Slot {
        self.imm = imm;
        self
    }

    /// The slot's eight bytes.
    pub(crate) fn bytes(self) -> [u8; 8] {
        let [offset_low, offset_high] = self.offset.to_le_bytes();
        let [first, second, third, fourth] = self.imm.to_le_bytes();
        [
            self.opcode,
            (self.dst % 16) + (self.src % 16) * 16,
            offset_low,
            offset_high,
            first,
            second,
            third,
            fourth,
        ]
    }
}

/// Whether an opcode has its second operand in a register.
fn is_of_register(opcode: u8) -> bool {
    opcode / 8 % 2 == 1
}

/// Arithmetic on numbers.
fn arithmetic(draws: &mut Draws) -> Slot {
    let wide = one_of(draws, &ALU_64);
    let opcode = if rarely(draws, 3) {
        (wide / 8 * 8) | 4
    } else {
        wide
    };
    let dst = if rarely(draws, 24) {
        10
    } else {
        register_of(draws, &NUMBERS)
    };
    let is_signed = rarely(draws, 4);
    let slot = if is_of_register(opcode) {
        Slot::new(opcode, dst, register_of(draws, &NUMBERS))
    } else if opcode / 16 == 8 {
        Slot::new(opcode, dst, 0)
    } else {
        Slot::new(opcode, dst, 0).with(immediate(draws))
    };
    match opcode / 16 {
        3 | 9 if is_signed => slot.at(1),
        11 if is_signed && is_of_register(opcode) => slot.at(8),
        _ => slot,
    }
}

/// A swap or a cut of bytes.
fn swap(draws: &mut Draws) -> Slot {
    let opcode = one_of(draws, &[0xd7, 0xd4, 0xdc]);
    let width = one_of(draws, &[16, 32, 64]);
    Slot::new(opcode, register_of(draws, &NUMBERS), 0).with(i32::from(width))
}

/// A pointer that is moved.
fn moved(draws: &mut Draws) -> Slot {
    let opcode = one_of(draws, &[0x07, 0x07, 0x17, 0x0f, 0x1f]);
    let dst = register_of(draws, &[2, 3, 7, 9, 9]);
    if is_of_register(opcode) {
        return Slot::new(opcode, dst, register_of(draws, &NUMBERS));
    }
    let by = if rarely(draws, 8) {
        immediate(draws)
    } else {
        draws.below(3) as i32 * 4
    };
    Slot::new(opcode, dst, 0).with(by)
}

/// A load.
fn load(draws: &mut Draws) -> Slot {
    let opcode = one_of(draws, &LOADS);
    let dst = register_of(draws, &NUMBERS);
    let base = register_of(draws, &ADDRESSES);
    Slot::new(opcode, dst, base).at(index_offset(draws, base))
}

/// A store, mostly to the stack or to a map's value.
fn store(draws: &mut Draws) -> Slot {
    let opcode = one_of(draws, &STORES);
    let base = register_of(draws, &[10, 10, 2, 3, 9, 9]);
    if opcode % 8 == 3 {
        let src = register_of(draws, &[0, 8, 6, 8, 6, 8, 2, 7]);
        Slot::new(opcode, base, src).at(index_offset(draws, base))
    } else {
        let slot = Slot::new(opcode, base, 0).at(index_offset(draws, base));
        slot.with(immediate(draws))
    }
}

/// A conditional jump a few slots forward.
fn branch(draws: &mut Draws) -> Slot {
    let wide = one_of(draws, &BRANCHES);
    let opcode = if rarely(draws, 3) {
        (wide / 8 * 8) | 6
    } else {
        wide
    };
    let dst = register_of(draws, &NUMBERS);
    let offset = distance(draws);
    if is_of_register(opcode) {
        Slot::new(opcode, dst, register_of(draws, &NUMBERS)).at(offset)
    } else {
        Slot::new(opcode, dst, 0).at(offset).with(immediate(draws))
    }
}

/// How far a jump goes: mostly a few slots.
fn distance(draws: &mut Draws) -> i16 {
    if rarely(draws, 12) {
        draws.below(64) as i16 - 24
    } else {
        draws.below(4) as i16
    }
}

/// A copy of any register, or a comparison of one with 0.
fn copy(draws: &mut Draws) -> Slot {
    match draws.below(8) {
        0 => Slot::new(0x15, 0, 0).at(distance(draws)),
        1 => Slot::new(0x55, 0, 0).at(distance(draws)),
        2 => Slot::new(0xbf, 0, one_of(draws, &[2, 7, 9, 10])),
        _ => Slot::new(
            0xbf,
            register_of(draws, &[2, 3, 4, 5, 8]),
            register_of(draws, &[2, 3, 7, 9, 10]),
        ),
    }
}

/// An end, a jump that is always taken, or a call.
fn control(draws: &mut Draws) -> Slot {
    match draws.below(6) {
        0 => Slot::new(0x95, 0, 0),
        1 => Slot::new(0x06, 0, 0).with(i32::from(distance(draws))),
        2 => Slot::new(0x05, 0, 0).at(distance(draws)),
        3 if rarely(draws, 6) => Slot::new(0x85, 0, 0).with(immediate(draws)),
        _ => Slot::new(0x85, 0, 0).with(draws.below(3) as i32 + 1),
    }
}

/// An instruction of one slot.
pub(crate) fn instruction(draws: &mut Draws) -> Slot {
    match draws.below(20) {
        0..=6 => arithmetic(draws),
        7 => swap(draws),
        8 | 9 => moved(draws),
        10..=12 => load(draws),
        13..=15 => store(draws),
        16 | 17 => branch(draws),
        18 => copy(draws),
        _ => control(draws),
    }
}
