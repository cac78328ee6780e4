ghost use Rattle.std.specs.Prelude.{◌≡◌, ◌+◌, ◌*◌, ◌%◌, ◌<◌, ◌≤◌, ◌==◌, if◌then◌else◌, length};
ghost use Rattle.std.specs.Int.{cast_signed, w16, w32};
ghost use Rattle.host_types.specs.Bytes.{number_of, part_of};
ghost use Rattle.bpf_decode.specs.Opcodes.{wide_opcode};
ghost use Rattle.bpf_decode.specs.Text.{slots_of, opcode_at, second_slot_fault};

use crate::insn::WIDE;
use byteorder::{ByteOrder, LittleEndian};
use host_types::rule::{BAD_FIELD, CUT_WIDE};

/// The second immediate of the instruction at a slot: 0 in a basic instruction, and where the text
/// ends before it.
#[tactic(auto, using(crate::proofs::Numbers::number_past_end))]
pub(crate) fn next_imm_at(text: &[u8], slot: usize) -> u32
    requires whole { length text.now % 8 ≡ 0 }
    requires within { slot < slots_of text.now }
    ensures { result ≡ (if opcode_at text.now slot == wide_opcode then number_of (part_of text.now (8 * slot + 12) 4) else 0) }
{
    let at = 8 * slot;
    if text[at] == WIDE && text.len() - at > 8 {
        u32_at(text, at + 12)
    } else {
        0
    }
}

/// What is wrong with the second slot of a wide instruction, whose first one stands at a slot.
#[tactic(auto, using(crate::proofs::Numbers::number_past_end), unfolding(crate::specs::Text::second_slot_fault))]
pub(crate) fn second_slot_fault(text: &[u8], slot: usize) -> Option<u32>
    requires whole { length text.now % 8 ≡ 0 }
    requires within { slot < slots_of text.now }
    ensures { result ≡ second_slot_fault text.now slot }
{
    let at = 8 * slot;
    if text[at] != WIDE {
        return None;
    }
    if text.len() - at == 8 {
        return Some(CUT_WIDE);
    }
    if u32_at(text, at + 8) != 0 {
        return Some(BAD_FIELD);
    }
    None
}

/// The little-endian number of the four bytes at an offset.
fn u32_at(text: &[u8], at: usize) -> u32
    requires { at + 4 ≤ length text.now }
    ensures { result ≡ number_of (part_of text.now at 4) }
{
    LittleEndian::read_u32(&text[at..at + 4])
}

/// The signed little-endian number of the two bytes at an offset.
pub(crate) fn i16_at(text: &[u8], at: usize) -> i16
    requires { at + 2 ≤ length text.now }
    ensures { result ≡ cast_signed w16 (number_of (part_of text.now at 2)) }
{
    LittleEndian::read_i16(&text[at..at + 2])
}

/// The signed little-endian number of the four bytes at an offset.
pub(crate) fn i32_at(text: &[u8], at: usize) -> i32
    requires { at + 4 ≤ length text.now }
    ensures { result ≡ cast_signed w32 (number_of (part_of text.now at 4)) }
{
    LittleEndian::read_i32(&text[at..at + 4])
}
