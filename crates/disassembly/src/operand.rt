use bpf_decode::{Insn, Source, Width};
use std::fmt;

/// A register: `r1` with all its bits, `w1` with the low 32.
#[derive(Clone, Copy)]
pub struct Register {
    pub width: Width,
    pub number: u8,
}

impl fmt::Display for Register {
    fn fmt<W: fmt::Write>(&self, f: &mut fmt::Formatter<W>) -> fmt::Result {
        match self.width {
            Width::Bits32 => write!(f, "w{}", self.number),
            Width::Bits64 => write!(f, "r{}", self.number),
        }
    }
}

/// The second operand of an instruction.
#[derive(Clone, Copy)]
pub enum Operand {
    Immediate(i32),
    Register(Register),
}

impl Operand {
    pub fn of(insn: &Insn, width: Width, source: Source) -> Self {
        match source {
            Source::Immediate => Operand::Immediate(insn.imm),
            Source::Register => Operand::Register(Register {
                width,
                number: insn.src,
            }),
        }
    }
}

impl fmt::Display for Operand {
    fn fmt<W: fmt::Write>(&self, f: &mut fmt::Formatter<W>) -> fmt::Result {
        match self {
            Operand::Immediate(number) => write!(f, "{number}"),
            Operand::Register(register) => write!(f, "{register}"),
        }
    }
}
