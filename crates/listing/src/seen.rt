//! What an instruction reads of the stack.

use bpf_decode::{Insn, Operation};
use findings::Access;
use host_types::layout::STACK_SIZE;
use verifier_kinds::Kind;

/// The bytes of the stack, below R10.
const STACK: i64 = STACK_SIZE as i64;

/// Slots of the stack, eight bytes each, the lowest address first.
#[derive(Clone, Copy)]
pub struct Seen {
    pub first: u32,
    /// The slot after the last one.
    pub end: u32,
}

impl Seen {
    /// Those that an instruction reads by way of a register of this kind, where the values of the map that R1 names
    /// have so many bytes.
    pub fn by(insn: &Insn, register: u8, kind: Kind, value_size: Option<u32>) -> Option<Seen> {
        let Kind::Stack(at) = kind else {
            return None;
        };
        match Operation::of(insn.opcode)? {
            Operation::Load { .. } | Operation::Call => {}
            _ => return None,
        }
        Seen::of(at, Access::of(insn, register, value_size)?)
    }

    /// Those of an access so far from the stack's end, if it lies in the stack.
    fn of(at: i32, access: Access) -> Option<Seen> {
        let begin = STACK + i64::from(at) + i64::from(access.offset);
        let end = begin + i64::from(access.bytes);
        if begin < 0 || end <= begin || end > STACK {
            return None;
        }
        Some(Seen {
            first: u32::try_from(begin / 8).ok()?,
            end: u32::try_from((end + 7) / 8).ok()?,
        })
    }
}
