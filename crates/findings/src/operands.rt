use bpf_decode::{AluCode, Insn, Operation, Source};
use host_types::MapHelper;

/// No register: there are eleven.
const NONE: u8 = 11;

/// The registers that an instruction reads, and after them numbers that are no register's.
pub fn registers_read(insn: &Insn) -> [u8; 4] {
    let Some(operation) = Operation::of(insn.opcode) else {
        return [NONE; 4];
    };
    match operation {
        Operation::Alu { code, source, .. } => of_arithmetic(insn, code, source),
        Operation::Load { .. } => [insn.src, NONE, NONE, NONE],
        Operation::Store { source, .. } | Operation::Branch { source, .. } => {
            [insn.dst, second(insn, source), NONE, NONE]
        }
        Operation::Call => of_call(insn),
        Operation::Exit => [0, NONE, NONE, NONE],
        Operation::LoadImmediate | Operation::Jump { .. } => [NONE; 4],
    }
}

fn of_arithmetic(insn: &Insn, code: AluCode, source: Source) -> [u8; 4] {
    match code {
        AluCode::Neg | AluCode::ToLittleEndian | AluCode::ToBigEndian | AluCode::SwapBytes => {
            [insn.dst, NONE, NONE, NONE]
        }
        AluCode::Mov => [second(insn, source), NONE, NONE, NONE],
        _ => [insn.dst, second(insn, source), NONE, NONE],
    }
}

fn of_call(insn: &Insn) -> [u8; 4] {
    match MapHelper::of(insn.immediate()) {
        Some(MapHelper::Lookup | MapHelper::Delete) => [1, 2, NONE, NONE],
        Some(MapHelper::Update) => [1, 2, 3, 4],
        None => [NONE; 4],
    }
}

fn second(insn: &Insn, source: Source) -> u8 {
    match source {
        Source::Immediate => NONE,
        Source::Register => insn.src,
    }
}
