use crate::operand::Operand;
use bpf_decode::{Extension, Insn, Size, Source, Width};
use std::fmt;

/// An operand in memory and the number that lies there: `*(u32 *)(r10 - 4)`.
#[derive(Clone, Copy)]
struct MemoryOperand {
    number: &'static str,
    base: u8,
    offset: i16,
}

impl MemoryOperand {
    /// The operand at an instruction's offset from a register.
    fn of(insn: &Insn, number: &'static str, base: u8) -> MemoryOperand {
        let offset = insn.offset;
        MemoryOperand {
            number,
            base,
            offset,
        }
    }
}

impl fmt::Display for MemoryOperand {
    fn fmt<W: fmt::Write>(&self, f: &mut fmt::Formatter<W>) -> fmt::Result {
        let sign = if self.offset < 0 { '-' } else { '+' };
        let bytes = self.offset.unsigned_abs();
        write!(f, "*({} *)(r{} {sign} {bytes})", self.number, self.base)
    }
}

/// Writes a load into a register.
pub fn write_load<W: fmt::Write>(
    f: &mut fmt::Formatter<W>,
    insn: &Insn,
    size: Size,
    extension: Extension,
) -> fmt::Result {
    let number = match extension {
        Extension::Zero => unsigned(size),
        Extension::Sign => signed(size),
    };
    write!(
        f,
        "r{} = {}",
        insn.dst,
        MemoryOperand::of(insn, number, insn.src)
    )
}

/// Writes a store to memory.
pub fn write_store<W: fmt::Write>(
    f: &mut fmt::Formatter<W>,
    insn: &Insn,
    size: Size,
    source: Source,
) -> fmt::Result {
    let memory = MemoryOperand::of(insn, unsigned(size), insn.dst);
    let operand = Operand::of(insn, Width::Bits64, source);
    write!(f, "{memory} = {operand}")
}

/// Writes a wide instruction. The assembler has no word for the name of a map, nor for an address in its
/// first value: `map 0` and `map 0[0] + 8` are this host's own.
pub fn write_load_immediate<W: fmt::Write>(f: &mut fmt::Formatter<W>, insn: &Insn) -> fmt::Result {
    match insn.src {
        0 => write!(f, "r{} = {} ll", insn.dst, insn.wide_immediate()),
        1 => write!(f, "r{} = map {}", insn.dst, insn.imm),
        _ => write!(f, "r{} = map {}[0] + {}", insn.dst, insn.imm, insn.next_imm),
    }
}

fn unsigned(size: Size) -> &'static str {
    match size {
        Size::Byte => "u8",
        Size::HalfWord => "u16",
        Size::Word => "u32",
        Size::DoubleWord => "u64",
    }
}

fn signed(size: Size) -> &'static str {
    match size {
        Size::Byte => "s8",
        Size::HalfWord => "s16",
        Size::Word => "s32",
        Size::DoubleWord => "s64",
    }
}
