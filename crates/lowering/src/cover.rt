//! Whether a text covers another.

ghost use Rattle.std.specs.Prelude.{◌≡◌, ◌↔◌, ◌<◌, ◌+◌, ℕ, true, IsTrue, slice_index};
ghost use Rattle.bpf_decode.specs.Opcodes.{operation_of};
ghost use Rattle.bpf_decode.specs.Text.{slots_of, insn_at, width_at, is_instruction, IsInstruction};
ghost use Rattle.loop_copies.specs.Slots.{falls_through};
ghost use Rattle.lowering.specs.Covering.{undirected, negation, Negates, operands, LeadAlike, HasOrigin, IsExactCopy, IsNegatedCopy, IsCopy, IsInsertedJump, IsCoveredAt, IsCovering, KeepsOriginAt, IsShortening};

use bpf_decode::{Comparison, Distance, Insn, Operation, Program};
use loop_copies::{begins, falls_through, jump_from, slot_after};

/// Whether a lowered text covers the original: it begins with an instruction that stands for slot 0, and each of its
/// instructions is a copy of the original's at its origin, or an inserted jump that leads to one. `origins` has for each
/// slot of the lowered text the slot of the original for which it stands.
pub fn covers(text: &Program, lowered: &Program, origins: &[u16]) -> bool
    ensures { IsTrue result ↔ IsCovering text.now lowered.now origins.now }
{
    origins.len() == lowered.slots() as usize
        && has_origin(lowered, origins, 0, 0)
        && are_covered(text, lowered, origins)
}

/// Whether a text came of a whole one, which covers the original, without some of its jumps: put in again they are inserted
/// jumps. `far` has the origins of the whole text's slots in the original, `near` those in the shortened one, and `origins`
/// those of the shortened one's slots.
pub fn shortens(
    text: &Program,
    whole: &Program,
    lowered: &Program,
    far: &[u16],
    near: &[u16],
    origins: &[u16],
) -> bool
    ensures { IsTrue result ↔ IsShortening text.now whole.now lowered.now far.now near.now origins.now }
{
    origins.len() == lowered.slots() as usize
        && covers(text, whole, far)
        && covers(lowered, whole, near)
        && are_kept(whole, lowered, far, near, origins)
}

/// Whether each slot of a shortened text has the origin that its copies in the whole text have.
fn are_kept(whole: &Program, lowered: &Program, far: &[u16], near: &[u16], origins: &[u16]) -> bool
    ensures { IsTrue result ↔ ((at : ℕ) → IsInstruction whole.now at → KeepsOriginAt whole.now lowered.now far.now near.now origins.now at) }
{
    for at in 0..whole.slots() {
        if !is_kept(whole, lowered, far, near, origins, at) {
            return false;
        }
    }
    true
}

/// Whether the slot of a shortened text at which the copy of an instruction stands has the same origin, if one begins at a slot.
fn is_kept(
    whole: &Program,
    lowered: &Program,
    far: &[u16],
    near: &[u16],
    origins: &[u16],
    at: u32,
) -> bool
    requires { at < slots_of whole.now }
    ensures { IsTrue result ↔ (is_instruction whole.now at ≡ true → KeepsOriginAt whole.now lowered.now far.now near.now origins.now at) }
{
    if !whole.begins(at) {
        return true;
    }
    let slot = origin_of(near, at);
    !is_copy(lowered, whole, near, at, slot) || origin_of(origins, slot) == origin_of(far, at)
}

/// Whether each instruction of the lowered text is a copy or an inserted jump.
fn are_covered(text: &Program, lowered: &Program, origins: &[u16]) -> bool
    ensures { IsTrue result ↔ ((at : ℕ) → IsInstruction lowered.now at → IsCoveredAt text.now lowered.now origins.now at) }
{
    for at in 0..lowered.slots() {
        if !is_covered(text, lowered, origins, at) {
            return false;
        }
    }
    true
}

/// Whether a slot of the lowered text has a copy or an inserted jump, if an instruction begins there.
fn is_covered(text: &Program, lowered: &Program, origins: &[u16], at: u32) -> bool
    requires { at < slots_of lowered.now }
    ensures { IsTrue result ↔ (is_instruction lowered.now at ≡ true → IsCoveredAt text.now lowered.now origins.now at) }
{
    if !lowered.begins(at) {
        return true;
    }
    let slot = origin_of(origins, at);
    is_copy(text, lowered, origins, at, slot) || is_inserted_jump(text, lowered, origins, at, slot)
}

/// Whether an instruction of the lowered text is an inserted jump that leads to a copy of the original's at a slot, or forward to
/// another instruction that stands for that slot.
fn is_inserted_jump(text: &Program, lowered: &Program, origins: &[u16], at: u32, slot: u32) -> bool
    requires { IsInstruction lowered.now at }
    ensures { IsTrue result ↔ IsInsertedJump text.now lowered.now origins.now at slot }
{
    let Some(Operation::Jump { .. }) = Operation::of(lowered.insn(at).opcode) else {
        return false;
    };
    let Some(to) = jump_from(lowered, at) else {
        return false;
    };
    has_origin(lowered, origins, to, slot) && (at < to || is_copy(text, lowered, origins, to, slot))
}

/// Whether an instruction of the lowered text is a copy of the original's at a slot.
#[tactic(auto, unfolding(crate::specs::Covering::IsCopy))]
fn is_copy(text: &Program, lowered: &Program, origins: &[u16], at: u32, slot: u32) -> bool
    requires { IsInstruction lowered.now at }
    ensures { IsTrue result ↔ IsCopy text.now lowered.now origins.now at slot }
{
    is_exact_copy(text, lowered, origins, at, slot)
        || is_negated_copy(text, lowered, origins, at, slot)
}

/// Whether an instruction of the lowered text is an exact copy of the original's at a slot.
fn is_exact_copy(text: &Program, lowered: &Program, origins: &[u16], at: u32, slot: u32) -> bool
    requires { IsInstruction lowered.now at }
    ensures { IsTrue result ↔ IsExactCopy text.now lowered.now origins.now at slot }
{
    begins(text, slot)
        && undirected(lowered.insn(at)) == undirected(text.insn(slot))
        && falls_alike(text, lowered, origins, at, slot)
        && leads_alike(
            lowered,
            origins,
            jump_from(lowered, at),
            jump_from(text, slot),
        )
}

/// Whether an instruction of the lowered text is a negated copy of the original's at a slot: it jumps where that one falls
/// through, and falls through where that one jumps.
fn is_negated_copy(text: &Program, lowered: &Program, origins: &[u16], at: u32, slot: u32) -> bool
    requires { IsInstruction lowered.now at }
    ensures { IsTrue result ↔ IsNegatedCopy text.now lowered.now origins.now at slot }
{
    begins(text, slot)
        && negates(&lowered.insn(at), &text.insn(slot))
        && operands(lowered.insn(at)) == operands(text.insn(slot))
        && leads_alike(
            lowered,
            origins,
            Some(slot_after(lowered, at)),
            jump_from(text, slot),
        )
        && leads_alike(
            lowered,
            origins,
            jump_from(lowered, at),
            Some(slot_after(text, slot)),
        )
}

/// Whether two instructions are conditional jumps, of which one has the negation of the other's comparison.
fn negates(insn: &Insn, other: &Insn) -> bool
    ensures { IsTrue result ↔ Negates insn.now other.now }
{
    let Some(
        Operation::Branch {
            comparison,
            width,
            source,
        },
    ) = Operation::of(insn.opcode)
    else {
        return false;
    };
    let Some(
        Operation::Branch {
            comparison: negated,
            width: other_width,
            source: other_source,
        },
    ) = Operation::of(other.opcode)
    else {
        return false;
    };
    negation(comparison) == Some(negated) && width == other_width && source == other_source
}

/// The comparison that holds just where another one doesn't, if there is one.
#[tactic(auto, unfolding(crate::specs::Covering::negation))]
fn negation(comparison: Comparison) -> Option<Comparison>
    ensures { result ≡ negation comparison }
{
    let negation = match comparison {
        Comparison::Equal => Comparison::NotEqual,
        Comparison::NotEqual => Comparison::Equal,
        Comparison::Greater => Comparison::LessOrEqual,
        Comparison::GreaterOrEqual => Comparison::Less,
        Comparison::Less => Comparison::GreaterOrEqual,
        Comparison::LessOrEqual => Comparison::Greater,
        Comparison::AnyBit => return None,
        Comparison::SignedGreater => Comparison::SignedLessOrEqual,
        Comparison::SignedGreaterOrEqual => Comparison::SignedLess,
        Comparison::SignedLess => Comparison::SignedGreaterOrEqual,
        Comparison::SignedLessOrEqual => Comparison::SignedGreater,
    };
    Some(negation)
}

/// A conditional jump without its comparison and its distance.
fn operands(insn: Insn) -> Insn
    ensures { result ≡ operands insn }
{
    Insn {
        opcode: 0,
        offset: 0,
        ..insn
    }
}

/// Whether a copy goes on to an instruction that stands for the next one of the original, if that goes on there.
fn falls_alike(text: &Program, lowered: &Program, origins: &[u16], at: u32, slot: u32) -> bool
    requires copy { IsInstruction lowered.now at }
    requires original { IsInstruction text.now slot }
    ensures { IsTrue result ↔ (falls_through (operation_of (insn_at text.now slot).opcode) ≡ true
        → HasOrigin lowered.now origins.now (at + width_at lowered.now at) (slot + width_at text.now slot)) }
{
    !falls_through(&text.insn(slot))
        || has_origin(
            lowered,
            origins,
            slot_after(lowered, at),
            slot_after(text, slot),
        )
}

/// Whether a copy's jump leads to an instruction that stands for the slot of the original's, or both lead to none.
fn leads_alike(lowered: &Program, origins: &[u16], there: Option<u32>, to: Option<u32>) -> bool
    ensures { IsTrue result ↔ LeadAlike lowered.now origins.now there to }
{
    match (there, to) {
        (None, None) => true,
        (Some(there), Some(to)) => has_origin(lowered, origins, there, to),
        _ => false,
    }
}

/// Whether an instruction of the lowered text begins at a slot, and stands for one of the original's.
fn has_origin(lowered: &Program, origins: &[u16], at: u32, slot: u32) -> bool
    ensures { IsTrue result ↔ HasOrigin lowered.now origins.now at slot }
{
    begins(lowered, at) && origin_of(origins, at) == slot
}

/// The slot of the original for which a slot stands; 0 where `origins` has none.
fn origin_of(origins: &[u16], at: u32) -> u32
    ensures { result ≡ slice_index origins.now at }
{
    match origins.get(at as usize) {
        Some(origin) => u32::from(*origin),
        None => 0,
    }
}

/// The instruction without the distance of its jump.
#[tactic(auto, unfolding(crate::specs::Covering::undirected))]
fn undirected(insn: Insn) -> Insn
    ensures { result ≡ undirected insn }
{
    match Operation::of(insn.opcode) {
        Some(
            Operation::Jump {
                distance: Distance::Offset,
            }
            | Operation::Branch { .. },
        ) => Insn { offset: 0, ..insn },
        Some(
            Operation::Jump {
                distance: Distance::Imm,
            },
        ) => Insn { imm: 0, ..insn },
        _ => insn,
    }
}
