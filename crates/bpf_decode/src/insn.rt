use crate::operation::{Distance, Operation};
use crate::slot::{i16_at, i32_at, next_imm_at};
use host_types::rule::{BAD_FIELD, BAD_REGISTER, UNKNOWN_OPCODE};

/// An instruction's fields (RFC 9669, sections 3.1 and 3.2). `next_imm` is the second immediate of
/// a wide instruction, and 0 in a basic one.
#[derive(Clone, Copy, PartialEq, Eq)]
pub struct Insn {
    pub opcode: u8,
    pub dst: u8,
    pub src: u8,
    pub offset: i16,
    pub imm: i32,
    pub next_imm: u32,
}

/// The opcode of the one wide instruction (RFC 9669, section 3.2).
pub(crate) const WIDE: u8 = 0x18;

/// R10, the frame pointer: the last register, and read-only (RFC 9669, section 2.1).
pub const FRAME_POINTER: u8 = 10;

impl Insn {
    ghost use Rattle.std.specs.Prelude.{◌≡◌, ◌<◌, ◌≤◌, ◌⊎◌, ◌≢◌, ◌%◌, ◌==◌, if◌then◌else◌, length, MatchOption, IsSome, Some};
    ghost use Rattle.bpf_decode.specs.Opcodes.{wide_opcode, operation_of, has_fields, has_registers, insn_fault, sign_extended, wide_immediate, loaded_immediate, distance_of};
    ghost use Rattle.bpf_decode.specs.Text.{slots_of, insn_at};

    /// The instruction at a slot of any text, if the text has whole slots and this one among them.
    pub fn at(text: &[u8], slot: usize) -> Option<Self>
        ensures { MatchOption result ((length text.now % 8 ≢ 0) ⊎ (slots_of text.now ≤ slot))
            (λ insn. (length text.now % 8 ≡ 0) × (slot < slots_of text.now) × (insn ≡ insn_at text.now slot)) }
    {
        if text.len() % 8 != 0 || slot >= text.len() / 8 {
            return None;
        }
        Some(Insn::read(text, slot))
    }

    /// The instruction at a slot of a text of whole slots. The second immediate of a wide
    /// instruction that the text's end cuts is 0.
    pub fn read(text: &[u8], slot: usize) -> Self
        requires whole { length text.now % 8 ≡ 0 }
        requires within { slot < slots_of text.now }
        ensures { result ≡ insn_at text.now slot }
    {
        let at = 8 * slot;
        let registers = text[at + 1];
        Insn {
            opcode: text[at],
            dst: registers % 16,
            src: registers / 16,
            offset: i16_at(text, at + 2),
            imm: i32_at(text, at + 4),
            next_imm: next_imm_at(text, slot),
        }
    }

    /// What the instruction's opcode says.
    pub fn operation(&self) -> Operation
        requires { IsSome (operation_of self.now.opcode) }
        ensures { operation_of self.now.opcode ≡ Some result }
    {
        match Operation::of(self.opcode) {
            Some(operation) => operation,
            None => unreachable!(),
        }
    }

    /// `imm` as the 64 bits that instructions compute with: sign-extended (RFC 9669, section 4.1).
    pub fn immediate(&self) -> u64
        ensures { result ≡ sign_extended self.now.imm }
    {
        i64::from(self.imm).cast_unsigned()
    }

    /// Both immediates of the wide instruction as one number, `next_imm` above `imm` (RFC 9669,
    /// section 5.4).
    pub fn wide_immediate(&self) -> u64
        ensures { result ≡ wide_immediate self.now }
    {
        u64::from(self.next_imm) << 32 | u64::from(self.imm.cast_unsigned())
    }

    /// The number that the wide instruction loads: both immediates; or of the map whose number `imm`
    /// is, where `src` is 1 its name, and where `src` is 2 the address at the offset `next_imm` in its
    /// first value. The map m is named by (8 + m) * 2^32, and its first value begins at (16 + m) * 2^32
    /// (this project's own rule).
    pub fn loaded_immediate(&self) -> u64
        ensures { result ≡ loaded_immediate self.now }
    {
        let map = u64::from(self.imm.cast_unsigned());
        match self.src {
            1 => (8 + map).wrapping_mul(1 << 32),
            2 => (16 + map)
                .wrapping_mul(1 << 32)
                .wrapping_add(u64::from(self.next_imm)),
            _ => self.wide_immediate(),
        }
    }

    /// The distance of a jump that is always taken, in slots from the next instruction (RFC 9669,
    /// section 4.3).
    pub fn distance(&self, stands: Distance) -> i32
        ensures { result ≡ distance_of stands self.now }
    {
        match stands {
            Distance::Offset => i32::from(self.offset),
            Distance::Imm => self.imm,
        }
    }

    /// How many slots the instruction takes: two if it is wide, else one.
    pub fn slots(&self) -> u32
        ensures { result ≡ (if self.now.opcode == wide_opcode then 2 else 1) }
    {
        if self.opcode == WIDE { 2 } else { 1 }
    }

    /// The smallest number of what is wrong with the instruction's fields.
    #[tactic(auto, unfolding(crate::specs::Opcodes::insn_fault))]
    pub(crate) fn fault(&self) -> Option<u32>
        ensures { result ≡ insn_fault self.now }
    {
        let Some(operation) = Operation::of(self.opcode) else {
            return Some(UNKNOWN_OPCODE);
        };
        if !self.has_fields(operation) {
            return Some(BAD_FIELD);
        }
        if !self.has_registers(operation) {
            return Some(BAD_REGISTER);
        }
        None
    }

    /// Whether each field has a number that the operation gives a meaning to.
    #[tactic(auto, unfolding(crate::specs::Opcodes::has_fields))]
    fn has_fields(&self, operation: Operation) -> bool
        ensures { result ≡ has_fields operation self.now }
    {
        (operation.uses_dst() || self.dst == 0)
            && operation.allows_src(self.src, self.next_imm)
            && operation.allows_offset(self.offset)
            && operation.allows_imm(self.imm)
    }

    /// Whether each register that is used is there.
    #[tactic(auto, unfolding(crate::specs::Opcodes::has_registers))]
    fn has_registers(&self, operation: Operation) -> bool
        ensures { result ≡ has_registers operation self.now }
    {
        (!operation.uses_dst() || self.dst <= FRAME_POINTER)
            && (!operation.uses_src() || self.src <= FRAME_POINTER)
    }
}
