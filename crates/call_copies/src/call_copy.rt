//! What stands for a call: stores of the registers that it saves, a copy of the called text, and loads of them.

use crate::inlined::{Inlined, Origin};
use crate::instruction::{Insn, bit};
use crate::liveness::KEPT_REGISTERS;
use crate::stop::NotInlined;

/// A call in a text: which registers it saves, the copy of the called text, and how much stack is used there.
#[derive(Drop)]
pub(crate) struct CallCopy {
    pub saved: u16,
    pub copy: Inlined,
    pub end: i16,
}

impl CallCopy {
    /// The slots that stand for the call.
    pub fn slots(&self) -> usize {
        let saved = usize::from(size_of(self.saved).unsigned_abs()) / 8;
        self.copy.slots().saturating_add(saved * 2)
    }

    /// Appends what stands for the call, with the saved registers below the frame of its caller.
    pub fn push(&self, frame: i16, call: Origin, whole: &mut Inlined) -> Result<(), NotInlined> {
        push_each(Access::Save, self.saved, frame, call, whole)?;
        whole.append(&self.copy)?;
        push_each(Access::Restore, self.saved, frame, call, whole)
    }
}

/// What is done with a register around a copy.
#[derive(Clone, Copy)]
enum Access {
    Save,
    Restore,
}

/// Appends an access for each of some registers, each at the next eight bytes below a frame.
fn push_each(
    access: Access,
    registers: u16,
    frame: i16,
    call: Origin,
    whole: &mut Inlined,
) -> Result<(), NotInlined> {
    let mut offset = frame.saturating_neg();
    for register in KEPT_REGISTERS {
        if registers & bit(register) != 0 {
            offset = offset.saturating_sub(8);
            let insn = match access {
                Access::Save => Insn::save(register, offset),
                Access::Restore => Insn::restore(register, offset),
            };
            whole.push(&insn, call)?;
        }
    }
    Ok(())
}

/// The bytes of the stack in which registers are saved.
pub(crate) fn size_of(registers: u16) -> i16 {
    let mut size: i16 = 0;
    for register in KEPT_REGISTERS {
        if registers & bit(register) != 0 {
            size = size.saturating_add(8);
        }
    }
    size
}
