use crate::insn::Insn;

/// Where the second operand of arithmetic or of a store comes from (RFC 9669, sections 4.1 and 5.1).
#[derive(Clone, Copy, PartialEq, Eq)]
pub enum Source {
    Immediate,
    Register,
}

/// How many bits arithmetic computes with, by its class (RFC 9669, section 4.1).
#[derive(Clone, Copy, PartialEq, Eq)]
pub enum Width {
    /// The low 32 bits; the upper half of dst becomes zero.
    Bits32,
    Bits64,
}

/// How many bytes a load or store takes (RFC 9669, section 5).
#[derive(Clone, Copy, PartialEq, Eq)]
pub enum Size {
    Byte,
    HalfWord,
    Word,
    DoubleWord,
}

/// What becomes of the bits above those that are loaded (RFC 9669, sections 5.1 and 5.2).
#[derive(Clone, Copy, PartialEq, Eq)]
pub enum Extension {
    Zero,
    Sign,
}

/// What an arithmetic instruction computes (RFC 9669, sections 4.1 and 4.2). The field `offset`
/// gives `Div` and `Mod` of their signed forms, and `Mov` of the move with sign extension. The
/// byte swaps have their width in `imm`, which is their second operand.
#[derive(Clone, Copy, PartialEq, Eq)]
pub enum AluCode {
    Add,
    Sub,
    Mul,
    Div,
    Or,
    And,
    Lsh,
    Rsh,
    Neg,
    Mod,
    Xor,
    Mov,
    Arsh,
    ToLittleEndian,
    ToBigEndian,
    SwapBytes,
}

/// Where a jump that is always taken has its distance (RFC 9669, section 4.3).
#[derive(Clone, Copy, PartialEq, Eq)]
pub enum Distance {
    Offset,
    Imm,
}

/// What a conditional jump asks of dst and of the second operand (RFC 9669, section 4.3).
#[derive(Clone, Copy, PartialEq, Eq)]
pub enum Comparison {
    Equal,
    NotEqual,
    Greater,
    GreaterOrEqual,
    Less,
    LessOrEqual,
    /// Some bit is set in both.
    AnyBit,
    SignedGreater,
    SignedGreaterOrEqual,
    SignedLess,
    SignedLessOrEqual,
}

/// What an opcode says.
#[derive(Clone, Copy, PartialEq, Eq)]
pub enum Operation {
    /// Arithmetic (RFC 9669, sections 4.1 and 4.2).
    Alu {
        code: AluCode,
        width: Width,
        source: Source,
    },
    /// Loads a number from memory into a register (RFC 9669, sections 5.1 and 5.2).
    Load {
        size: Size,
        extension: Extension,
    },
    /// Stores the low bytes of a number into memory (RFC 9669, section 5.1).
    Store {
        size: Size,
        source: Source,
    },
    /// Loads the number of both immediates into a register, the name of a map, or an address in a
    /// map's first value, by the field `src`: the wide instruction (RFC 9669, section 5.4).
    LoadImmediate,
    /// Goes on elsewhere (RFC 9669, section 4.3).
    Jump {
        distance: Distance,
    },
    /// Goes on elsewhere, by `offset`, where the comparison holds (RFC 9669, section 4.3).
    Branch {
        comparison: Comparison,
        width: Width,
        source: Source,
    },
    /// Calls a helper by its number (RFC 9669, section 4.3).
    Call,
    /// Returns R0 (RFC 9669, section 4.3).
    Exit,
}

/// The class in the three low bits of an opcode (RFC 9669, section 3.1).
const LD: u8 = 0x0;

const LDX: u8 = 0x1;

const ST: u8 = 0x2;

const STX: u8 = 0x3;

const ALU: u8 = 0x4;

const JMP: u8 = 0x5;

const JMP32: u8 = 0x6;

const ALU64: u8 = 0x7;

/// The codes of jumps without a comparison in the five high bits of their opcodes (RFC 9669,
/// section 4.3).
const JA: u8 = 0x00;

const CALL: u8 = 0x10;

const EXIT: u8 = 0x12;

/// The mode and size of the wide load in the five high bits of its opcode (RFC 9669, section 5.4).
const IMM_DW: u8 = 0x03;

/// The mode of plain memory in the three high bits of an opcode (RFC 9669, section 5).
const MEM: u8 = 0x3;

/// The mode of loads with sign extension.
const MEMSX: u8 = 0x4;

/// The code of a negation in the four high bits of an arithmetic opcode (RFC 9669, section 4.1).
const NEG: u8 = 0x8;

/// The code of a byte swap.
const END: u8 = 0xd;

impl Source {
    ghost use Rattle.std.specs.Prelude.{◌≡◌};
    ghost use Rattle.bpf_decode.specs.Opcodes.{source_of};

    /// The source bit of an opcode (RFC 9669, section 4).
    fn of(opcode: u8) -> Self
        ensures { result ≡ source_of opcode }
    {
        match opcode / 8 % 2 {
            0 => Source::Immediate,
            _ => Source::Register,
        }
    }
}

impl Size {
    ghost use Rattle.std.specs.Prelude.{◌≡◌};
    ghost use Rattle.bpf_decode.specs.Opcodes.{size_of, byte_count};

    /// The size in an opcode of a load or store (RFC 9669, section 5).
    fn of(opcode: u8) -> Self
        ensures { result ≡ size_of opcode }
    {
        match opcode / 8 % 4 {
            0 => Size::Word,
            1 => Size::HalfWord,
            2 => Size::Byte,
            _ => Size::DoubleWord,
        }
    }

    /// How many bytes those are: 1, 2, 4 or 8.
    pub const fn bytes(self) -> u32
        ensures { result ≡ byte_count self }
    {
        match self {
            Size::Byte => 1,
            Size::HalfWord => 2,
            Size::Word => 4,
            Size::DoubleWord => 8,
        }
    }
}

impl AluCode {
    ghost use Rattle.std.specs.Prelude.{◌≡◌};
    ghost use Rattle.bpf_decode.specs.Opcodes.{code_of};

    /// What the four high bits of an opcode of arithmetic with two operands say (RFC 9669, section
    /// 4.1).
    #[tactic(auto, unfolding(crate::specs::Opcodes::code_of))]
    fn of(opcode: u8) -> Option<Self>
        ensures { result ≡ code_of opcode }
    {
        match opcode / 16 {
            0x0 => Some(AluCode::Add),
            0x1 => Some(AluCode::Sub),
            0x2 => Some(AluCode::Mul),
            0x3 => Some(AluCode::Div),
            0x4 => Some(AluCode::Or),
            0x5 => Some(AluCode::And),
            0x6 => Some(AluCode::Lsh),
            0x7 => Some(AluCode::Rsh),
            0x9 => Some(AluCode::Mod),
            0xa => Some(AluCode::Xor),
            0xb => Some(AluCode::Mov),
            0xc => Some(AluCode::Arsh),
            _ => None,
        }
    }
}

impl Comparison {
    ghost use Rattle.std.specs.Prelude.{◌≡◌};
    ghost use Rattle.bpf_decode.specs.Opcodes.{comparison_of};

    /// What the four high bits of an opcode of a conditional jump say (RFC 9669, section 4.3).
    #[tactic(auto, unfolding(crate::specs::Opcodes::comparison_of))]
    fn of(opcode: u8) -> Option<Self>
        ensures { result ≡ comparison_of opcode }
    {
        match opcode / 16 {
            0x1 => Some(Comparison::Equal),
            0x2 => Some(Comparison::Greater),
            0x3 => Some(Comparison::GreaterOrEqual),
            0x4 => Some(Comparison::AnyBit),
            0x5 => Some(Comparison::NotEqual),
            0x6 => Some(Comparison::SignedGreater),
            0x7 => Some(Comparison::SignedGreaterOrEqual),
            0xa => Some(Comparison::Less),
            0xb => Some(Comparison::LessOrEqual),
            0xc => Some(Comparison::SignedLess),
            0xd => Some(Comparison::SignedLessOrEqual),
            _ => None,
        }
    }
}

impl Operation {
    ghost use Rattle.std.specs.Prelude.{◌≡◌, ℤ, Bool};
    ghost use Rattle.bpf_decode.specs.Decoded.{src_by, imm_by};
    ghost use Rattle.bpf_decode.specs.Opcodes.{swap_of, negation_of, alu_operation_of, load_of, store_of, wide_of, branch_of, jump_of, jump32_of, operation_of, allows_src, uses_dst, uses_src, allows_offset, allows_imm};

    /// What an opcode says; `None` if it isn't in the table.
    #[tactic(auto, unfolding(crate::specs::Opcodes::operation_of))]
    pub fn of(opcode: u8) -> Option<Self>
        ensures { result ≡ operation_of opcode }
    {
        match opcode % 8 {
            LD => Operation::wide(opcode),
            LDX => Operation::load(opcode),
            ST => Operation::store(Source::Immediate, opcode),
            STX => Operation::store(Source::Register, opcode),
            ALU => Operation::alu(Width::Bits32, opcode),
            JMP => Operation::jump(opcode),
            JMP32 => Operation::jump32(opcode),
            ALU64 => Operation::alu(Width::Bits64, opcode),
            _ => None,
        }
    }

    /// What an opcode of a class of arithmetic says.
    #[tactic(auto, unfolding(crate::specs::Opcodes::alu_operation_of))]
    fn alu(width: Width, opcode: u8) -> Option<Self>
        ensures { result ≡ alu_operation_of width opcode }
    {
        let source = Source::of(opcode);
        match opcode / 16 {
            NEG => Operation::negation(width, source),
            END => Operation::swap(width, source),
            _ => {
                let code = AluCode::of(opcode)?;
                Some(Operation::Alu {
                    code,
                    width,
                    source,
                })
            }
        }
    }

    /// A negation. It has no second operand.
    fn negation(width: Width, source: Source) -> Option<Self>
        ensures { result ≡ negation_of width source }
    {
        match source {
            Source::Immediate => Some(Operation::Alu {
                code: AluCode::Neg,
                width,
                source,
            }),
            Source::Register => None,
        }
    }

    /// A byte swap: its source bit isn't that of an operand (RFC 9669, section 4.2).
    fn swap(width: Width, source: Source) -> Option<Self>
        ensures { result ≡ swap_of width source }
    {
        let code = match (width, source) {
            (Width::Bits32, Source::Immediate) => AluCode::ToLittleEndian,
            (Width::Bits32, Source::Register) => AluCode::ToBigEndian,
            (Width::Bits64, Source::Immediate) => AluCode::SwapBytes,
            (Width::Bits64, Source::Register) => return None,
        };
        Some(Operation::Alu {
            code,
            width,
            source: Source::Immediate,
        })
    }

    /// What an opcode of the class of loads says.
    #[tactic(auto, unfolding(crate::specs::Opcodes::load_of))]
    fn load(opcode: u8) -> Option<Self>
        ensures { result ≡ load_of opcode }
    {
        let size = Size::of(opcode);
        match opcode / 32 {
            MEM => Some(Operation::Load {
                size,
                extension: Extension::Zero,
            }),
            MEMSX if size != Size::DoubleWord => Some(Operation::Load {
                size,
                extension: Extension::Sign,
            }),
            _ => None,
        }
    }

    /// What an opcode of a class of stores says.
    #[tactic(auto, unfolding(crate::specs::Opcodes::store_of))]
    fn store(source: Source, opcode: u8) -> Option<Self>
        ensures { result ≡ store_of source opcode }
    {
        let size = Size::of(opcode);
        match opcode / 32 {
            MEM => Some(Operation::Store { size, source }),
            _ => None,
        }
    }

    /// What an opcode of the class of the wide load says.
    #[tactic(auto, unfolding(crate::specs::Opcodes::wide_of))]
    fn wide(opcode: u8) -> Option<Self>
        ensures { result ≡ wide_of opcode }
    {
        match opcode / 8 {
            IMM_DW => Some(Operation::LoadImmediate),
            _ => None,
        }
    }

    /// What an opcode of a class of jumps says that compares.
    fn branch(width: Width, opcode: u8) -> Option<Self>
        ensures { result ≡ branch_of width opcode }
    {
        let comparison = Comparison::of(opcode)?;
        let source = Source::of(opcode);
        Some(Operation::Branch {
            comparison,
            width,
            source,
        })
    }

    /// What an opcode of the class of jumps by 64 bits says.
    #[tactic(auto, unfolding(crate::specs::Opcodes::jump_of))]
    fn jump(opcode: u8) -> Option<Self>
        ensures { result ≡ jump_of opcode }
    {
        match opcode / 8 {
            JA => Some(Operation::Jump {
                distance: Distance::Offset,
            }),
            CALL => Some(Operation::Call),
            EXIT => Some(Operation::Exit),
            _ => Operation::branch(Width::Bits64, opcode),
        }
    }

    /// What an opcode of the class of jumps by 32 bits says.
    #[tactic(auto, unfolding(crate::specs::Opcodes::jump32_of))]
    fn jump32(opcode: u8) -> Option<Self>
        ensures { result ≡ jump32_of opcode }
    {
        match opcode / 8 {
            JA => Some(Operation::Jump {
                distance: Distance::Imm,
            }),
            _ => Operation::branch(Width::Bits32, opcode),
        }
    }

    /// Whether the field `dst` names a register.
    pub(crate) fn uses_dst(self) -> bool
        ensures { result ≡ uses_dst self }
    {
        match self {
            Operation::Jump { .. } | Operation::Call | Operation::Exit => false,
            _ => true,
        }
    }

    /// Whether the field `src` names a register.
    pub(crate) fn uses_src(self) -> bool
        ensures { result ≡ uses_src self }
    {
        match self {
            Operation::Alu { source, .. }
            | Operation::Store { source, .. }
            | Operation::Branch { source, .. } => source == Source::Register,
            Operation::Load { .. } => true,
            Operation::LoadImmediate | Operation::Jump { .. } | Operation::Call | Operation::Exit =>
                false,
        }
    }

    /// The register of the second operand: 11, which is always zero, where none is named.
    pub(crate) fn src(self, insn: &Insn) -> u8
        ensures { result ≡ src_by self insn.now }
    {
        if self.uses_src() { insn.src } else { 11 }
    }

    /// The number that is added to that register.
    pub(crate) fn imm(self, insn: &Insn) -> u64
        ensures { result ≡ imm_by self insn.now }
    {
        match self {
            Operation::LoadImmediate => insn.loaded_immediate(),
            _ if self.uses_src() => 0,
            _ => insn.immediate(),
        }
    }

    /// Whether a number may stand in the field `src`, where that names no register. In the wide
    /// instruction 1 says that a map is named, and then there is no second immediate; 2 asks for an
    /// address in a map's first value, and then the second immediate is the offset.
    pub(crate) fn allows_src(self, src: u8, next_imm: u32) -> bool
        ensures { result ≡ allows_src self src next_imm }
    {
        match self {
            Operation::LoadImmediate => src == 0 || src == 1 && next_imm == 0 || src == 2,
            _ => self.uses_src() || src == 0,
        }
    }

    /// Whether a number may stand in the field `offset`.
    pub(crate) fn allows_offset(self, offset: i16) -> bool
        ensures { result ≡ allows_offset self offset }
    {
        match self {
            Operation::Alu {
                code,
                width,
                source,
            } => code.allows_offset(width, source, offset),
            Operation::Load { .. } | Operation::Store { .. } | Operation::Branch { .. } => true,
            Operation::Jump { distance } => distance == Distance::Offset || offset == 0,
            Operation::LoadImmediate | Operation::Call | Operation::Exit => offset == 0,
        }
    }

    /// Whether a number may stand in the field `imm`.
    pub(crate) fn allows_imm(self, imm: i32) -> bool
        ensures { result ≡ allows_imm self imm }
    {
        match self {
            Operation::Alu { code, source, .. } => code.allows_imm(source, imm),
            Operation::Store { source, .. } | Operation::Branch { source, .. } => {
                source == Source::Immediate || imm == 0
            }
            Operation::Jump { distance } => distance == Distance::Imm || imm == 0,
            Operation::LoadImmediate | Operation::Call => true,
            Operation::Load { .. } | Operation::Exit => imm == 0,
        }
    }
}

impl AluCode {
    ghost use Rattle.std.specs.Prelude.{◌≡◌};
    ghost use Rattle.bpf_decode.specs.Opcodes.{alu_allows_offset, alu_allows_imm};

    /// Whether a number may stand in the field `offset` of arithmetic: 1 is the signed form of a
    /// division, 8, 16 and 32 are the bits of a move with sign extension (RFC 9669, section 4.1).
    fn allows_offset(self, width: Width, source: Source, offset: i16) -> bool
        ensures { result ≡ alu_allows_offset self width source offset }
    {
        match (self, source) {
            (AluCode::Div | AluCode::Mod, _) => offset == 0 || offset == 1,
            (AluCode::Mov, Source::Register) => {
                offset == 0
                    || offset == 8
                    || offset == 16
                    || (width == Width::Bits64 && offset == 32)
            }
            _ => offset == 0,
        }
    }

    /// Whether a number may stand in the field `imm` of arithmetic: a byte swap has its width there.
    fn allows_imm(self, source: Source, imm: i32) -> bool
        ensures { result ≡ alu_allows_imm self source imm }
    {
        match self {
            AluCode::Neg => imm == 0,
            AluCode::ToLittleEndian | AluCode::ToBigEndian | AluCode::SwapBytes => {
                imm == 16 || imm == 32 || imm == 64
            }
            _ => source == Source::Immediate || imm == 0,
        }
    }
}
