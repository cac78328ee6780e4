use crate::site::Site;
use bpf_decode::Operation;
use host_types::MapHelper;
use host_types::layout::STACK_SIZE;
use host_types::rule::UNSET_STACK;
use knowledge::Knowledge;
use std::io;
use std::io::Write;
use verifier_kinds::{Kind, StackSlot};

/// Writes which bytes of the stack a refused helper would read that weren't stored.
pub fn write_unset_bytes<W: Write>(
    output: &mut W,
    knowledge: &Knowledge,
    site: &Site<'_>,
) -> io::Result<()> {
    let Some(Operation::Call) = Operation::of(site.insn.opcode) else {
        return Ok(());
    };
    if site.refused.number != UNSET_STACK {
        return Ok(());
    }
    let stack = Stack {
        knowledge,
        slot: site.refused.slot,
    };
    stack.write_unset(output, "the key", site.kind(2), 4)?;
    match (
        MapHelper::of(site.insn.immediate()),
        site.named_value_size(),
    ) {
        (Some(MapHelper::Update), Some(size)) => {
            stack.write_unset(output, "the value", site.kind(3), size)
        }
        _ => Ok(()),
    }
}

/// What is known of the stack at a slot.
#[derive(Clone, Copy)]
struct Stack<'a> {
    knowledge: &'a Knowledge,
    slot: u32,
}

impl<'a> Stack<'a> {
    /// Writes which of so many bytes from an address of the stack on weren't stored: the first, and up to which
    /// none is.
    fn write_unset<W: Write>(
        self,
        output: &mut W,
        what: &str,
        kind: Option<Kind>,
        bytes: u32,
    ) -> io::Result<()> {
        let Some(Kind::Stack(from)) = kind else {
            return Ok(());
        };
        let Some(first) = (0..bytes).find(|byte| self.is_unset(from, *byte)) else {
            return Ok(());
        };
        let last = (first..bytes)
            .take_while(|byte| self.is_unset(from, *byte))
            .last();
        match last {
            Some(last) if first < last => write!(
                output,
                "; bytes {first} to {last} of {what} aren't stored"
            ),
            _ => write!(output, "; byte {first} of {what} isn't stored"),
        }
    }

    /// Whether a byte of the stack, that many above an address, isn't known to be stored. A kept number is, and a kept address.
    fn is_unset(self, from: i32, byte: u32) -> bool {
        let offset = i64::from(from) + i64::from(byte) + STACK_SIZE as i64;
        let Ok(offset) = usize::try_from(offset) else {
            return false;
        };
        if offset >= STACK_SIZE {
            return false;
        }
        match self.knowledge.stack(self.slot, offset / 8) {
            StackSlot::Bytes(written) => written >> (offset % 8) & 1 == 0,
            StackSlot::Kept(_) => false,
        }
    }
}
