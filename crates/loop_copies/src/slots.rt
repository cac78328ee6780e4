//! Where the instructions of a text begin, and to which slots they lead.

ghost use Rattle.std.specs.Prelude.{◌≡◌, ◌↔◌, ◌≤◌, ◌+◌, ◌+ℤ◌, pos, IsTrue};
ghost use Rattle.bpf_decode.specs.Opcodes.{operation_of};
ghost use Rattle.bpf_decode.specs.Text.{width_at, IsInstruction};
ghost use Rattle.loop_copies.specs.Slots.{falls_through, jump_from, slot_numbered};

use bpf_decode::{Insn, Operation, Program};

/// Whether an instruction begins at a slot.
pub fn begins(program: &Program, slot: u32) -> bool
    ensures { IsTrue result ↔ IsInstruction program.now slot }
{
    slot < program.slots() && program.begins(slot)
}

/// Whether a run may go on from an instruction to the next one.
pub fn falls_through(insn: &Insn) -> bool
    ensures { result ≡ falls_through (operation_of insn.now.opcode) }
{
    !matches!(
        Operation::of(insn.opcode),
        None | Some(Operation::Jump { .. } | Operation::Exit)
    )
}

/// The slot to which the instruction at a slot may jump, if it is no number below 0.
#[tactic(auto, unfolding(crate::specs::Slots::jump_from))]
pub fn jump_from(program: &Program, slot: u32) -> Option<u32>
    requires { IsInstruction program.now slot }
    ensures { result ≡ jump_from program.now slot }
{
    let insn = program.insn(slot);
    let after = slot_after(program, slot);
    match Operation::of(insn.opcode) {
        Some(Operation::Jump { distance }) => slot_from(after, insn.distance(distance)),
        Some(Operation::Branch { .. }) => slot_from(after, i32::from(insn.offset)),
        _ => None,
    }
}

/// The slot after the instruction at a slot.
#[tactic(auto, unfolding(bpf_decode::specs::Text::insn_at))]
pub fn slot_after(program: &Program, slot: u32) -> u32
    requires { IsInstruction program.now slot }
    ensures slot { result ≡ slot + width_at program.now slot }
    ensures small { result ≤ 4097 }
{
    let _at_most_4096 = program.slots();
    slot + program.insn(slot).slots()
}

/// The slot at a distance from a slot, if it is no number below 0.
fn slot_from(slot: u32, distance: i32) -> Option<u32>
    requires { slot ≤ 4097 }
    ensures { result ≡ slot_numbered (pos slot +ℤ distance) }
{
    u32::try_from(i64::from(slot) + i64::from(distance)).ok()
}

/// Whether an instruction may jump.
pub(crate) fn is_jump(insn: &Insn) -> bool {
    matches!(
        Operation::of(insn.opcode),
        Some(Operation::Jump { .. } | Operation::Branch { .. })
    )
}
