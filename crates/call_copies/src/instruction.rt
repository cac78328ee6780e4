//! The fields of instructions (RFC 9669, sections 3 to 5).

use byteorder::{ByteOrder, LittleEndian};

/// The frame pointer, R10.
pub(crate) const FRAME_POINTER: u8 = 10;

const WIDE: u8 = 0x18;

const EXIT: u8 = 0x95;

/// The opcode of a call.
pub const CALL: u8 = 0x85;

const JA: u8 = 0x05;

const JA_BY_IMM: u8 = 0x06;

const MOV: u8 = 0xbf;

const ADD: u8 = 0x07;

const SUB: u8 = 0x17;

const LOAD: u8 = 0x79;

const STORE: u8 = 0x7b;

/// A slot's fields.
#[derive(Clone, Copy)]
pub(crate) struct Insn {
    pub opcode: u8,
    pub dst: u8,
    pub src: u8,
    pub offset: i16,
    pub imm: i32,
}

/// The classes of instructions.
#[derive(Clone, Copy, PartialEq, Eq)]
pub(crate) enum Class {
    Immediate,
    Load,
    Store,
    StoreRegister,
    Arithmetic,
    Jump,
}

impl Insn {
    /// The fields of a slot of a text, if the text has it.
    pub fn at(text: &[u8], slot: usize) -> Option<Self> {
        let begin = slot.checked_mul(8)?;
        let bytes = text.get(begin..begin.checked_add(8)?)?;
        if bytes.len() < 8 {
            return None;
        }
        Some(Insn {
            opcode: bytes[0],
            dst: bytes[1] % 16,
            src: bytes[1] / 16,
            offset: LittleEndian::read_i16(&bytes[2..4]),
            imm: LittleEndian::read_i32(&bytes[4..8]),
        })
    }

    /// The slot's bytes.
    pub fn bytes(&self) -> [u8; 8] {
        let [low, high] = self.offset.to_le_bytes();
        let [imm0, imm1, imm2, imm3] = self.imm.to_le_bytes();
        let registers = self.dst % 16 + 16 * (self.src % 16);
        [self.opcode, registers, low, high, imm0, imm1, imm2, imm3]
    }

    /// A jump by a distance.
    pub fn jump(offset: i16) -> Self {
        Insn {
            opcode: JA,
            dst: 0,
            src: 0,
            offset,
            imm: 0,
        }
    }

    /// An addition of a constant to a register.
    pub fn addition(dst: u8, imm: i32) -> Self {
        Insn {
            opcode: ADD,
            dst,
            src: 0,
            offset: 0,
            imm,
        }
    }

    /// A store of a register to the stack.
    pub fn save(register: u8, offset: i16) -> Self {
        Insn {
            opcode: STORE,
            dst: FRAME_POINTER,
            src: register,
            offset,
            imm: 0,
        }
    }

    /// A load of a register from the stack.
    pub fn restore(register: u8, offset: i16) -> Self {
        Insn {
            opcode: LOAD,
            dst: register,
            src: FRAME_POINTER,
            offset,
            imm: 0,
        }
    }

    /// The class that the low three bits of the opcode say.
    pub fn class(&self) -> Class {
        match self.opcode % 8 {
            0 => Class::Immediate,
            1 => Class::Load,
            2 => Class::Store,
            3 => Class::StoreRegister,
            4 | 7 => Class::Arithmetic,
            _ => Class::Jump,
        }
    }

    pub fn is_wide(&self) -> bool {
        self.opcode == WIDE
    }

    pub fn is_exit(&self) -> bool {
        self.opcode == EXIT
    }

    /// Whether it calls a function of the program.
    pub fn calls_function(&self) -> bool {
        self.opcode == CALL && self.src == 1
    }

    /// Whether it calls anything.
    pub fn is_call(&self) -> bool {
        self.opcode == CALL
    }

    /// Whether it always jumps.
    pub fn is_jump(&self) -> bool {
        self.opcode == JA || self.opcode == JA_BY_IMM
    }

    /// The distance by which it may jump.
    pub fn distance(&self) -> Option<i64> {
        if self.class() != Class::Jump || self.is_exit() || self.is_call() {
            None
        } else if self.opcode == JA_BY_IMM {
            Some(i64::from(self.imm))
        } else {
            Some(i64::from(self.offset))
        }
    }

    /// The slot to which it may jump, where it stands at a slot.
    pub fn target(&self, slot: usize) -> Option<usize> {
        let next = i64::try_from(slot).ok()?.checked_add(1)?;
        usize::try_from(next.checked_add(self.distance()?)?).ok()
    }

    /// The slot after it, where it stands at a slot.
    pub fn next(&self, slot: usize) -> usize {
        slot.saturating_add(if self.is_wide() { 2 } else { 1 })
    }

    /// Whether its second operand is a register.
    fn has_source(&self) -> bool {
        self.opcode & 8 != 0
    }

    /// The registers that it reads, a bit each.
    pub fn reads(&self) -> u16 {
        let (dst, src) = (bit(self.dst), bit(self.src));
        match self.class() {
            Class::Immediate => 0,
            Class::Load => src,
            Class::Store => dst,
            Class::StoreRegister => dst | src,
            Class::Arithmetic if self.is_copy() => self.source_bit(),
            Class::Arithmetic if matches!(self.opcode / 16, 8 | 0xd) => dst,
            Class::Arithmetic => dst | self.source_bit(),
            Class::Jump if self.is_exit() || self.is_call() || self.is_jump() => 0,
            Class::Jump => dst | self.source_bit(),
        }
    }

    fn source_bit(&self) -> u16 {
        if self.has_source() { bit(self.src) } else { 0 }
    }

    /// The registers that it writes, a bit each.
    pub fn writes(&self) -> u16 {
        match self.class() {
            Class::Immediate | Class::Load | Class::Arithmetic => bit(self.dst),
            Class::Jump if self.is_call() => 0x3f,
            _ => 0,
        }
    }

    /// Whether it writes a number or a register, whole or in part, to another: MOV and MOVSX.
    pub fn is_copy(&self) -> bool {
        self.class() == Class::Arithmetic && self.opcode / 16 == 0xb
    }

    /// The register that is the second operand of arithmetic on another number than its own: a copy of all 64 bits, and a byte swap, have none.
    pub fn operand(&self) -> Option<u8> {
        let is_swap = self.opcode / 16 == 0xd;
        if self.class() == Class::Arithmetic
            && self.has_source()
            && !is_swap
            && self.copied().is_none()
        {
            Some(self.src)
        } else {
            None
        }
    }

    /// Whether R10 is copied.
    pub fn copies_frame_pointer(&self) -> bool {
        self.opcode == MOV && self.src == FRAME_POINTER && self.offset == 0
    }

    /// The register of which all 64 bits are copied.
    pub fn copied(&self) -> Option<u8> {
        if self.opcode == MOV && self.offset == 0 {
            Some(self.src)
        } else {
            None
        }
    }

    /// By how much a register of 64 bits is moved.
    pub fn moved(&self) -> Option<i32> {
        match self.opcode {
            ADD => Some(self.imm),
            SUB => self.imm.checked_neg(),
            _ => None,
        }
    }

    /// The register by which memory is reached.
    pub fn base(&self) -> Option<u8> {
        match self.class() {
            Class::Load => Some(self.src),
            Class::Store | Class::StoreRegister => Some(self.dst),
            _ => None,
        }
    }
}

/// The bit of a register.
pub(crate) fn bit(register: u8) -> u16 {
    1 << (register % 16)
}
