use crate::operand::{Operand, Register};
use bpf_decode::{AluCode, Insn, Source, Width};
use std::fmt;

/// Writes an arithmetic instruction: what happens to dst, and the operand.
pub fn write_arithmetic<W: fmt::Write>(
    f: &mut fmt::Formatter<W>,
    insn: &Insn,
    code: AluCode,
    width: Width,
    source: Source,
) -> fmt::Result {
    let dst = Register {
        width: shown_width(code, width),
        number: insn.dst,
    };
    let operand = Operand::of(insn, width, source);
    write!(f, "{dst} {} ", operator(code, insn.offset))?;
    match code {
        AluCode::Neg => write!(f, "-{dst}"),
        AluCode::ToLittleEndian => write!(f, "le{} {dst}", insn.imm),
        AluCode::ToBigEndian => write!(f, "be{} {dst}", insn.imm),
        AluCode::SwapBytes => write!(f, "bswap{} {dst}", insn.imm),
        AluCode::Mov if insn.offset != 0 => write!(f, "(s{}){operand}", insn.offset),
        _ => write!(f, "{operand}"),
    }
}

/// A byte swap reads all of its register, whatever its class.
fn shown_width(code: AluCode, width: Width) -> Width {
    match code {
        AluCode::ToLittleEndian | AluCode::ToBigEndian => Width::Bits64,
        _ => width,
    }
}

/// What happens to dst. An offset of a division makes it signed.
fn operator(code: AluCode, offset: i16) -> &'static str {
    match code {
        AluCode::Add => "+=",
        AluCode::Sub => "-=",
        AluCode::Mul => "*=",
        AluCode::Div if offset == 0 => "/=",
        AluCode::Div => "s/=",
        AluCode::Or => "|=",
        AluCode::And => "&=",
        AluCode::Lsh => "<<=",
        AluCode::Rsh => ">>=",
        AluCode::Mod if offset == 0 => "%=",
        AluCode::Mod => "s%=",
        AluCode::Xor => "^=",
        AluCode::Arsh => "s>>=",
        AluCode::Neg
        | AluCode::Mov
        | AluCode::ToLittleEndian
        | AluCode::ToBigEndian
        | AluCode::SwapBytes => "=",
    }
}
