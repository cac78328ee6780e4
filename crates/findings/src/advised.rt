//! The advice on a refusal where it goes by what was known at its slot.

ghost use Rattle.std.specs.Prelude.{◌↔◌, IfSome, IsSome, IsTrue};
ghost use Rattle.advice.specs.Answered.{is_answered};

use crate::CheckedText;
use crate::site::Kinds;
use advice::{Advice, Sum, advice_on_text, on_sum};
use bpf_decode::{AluCode, Insn, Operation, Source, Width};
use host_types::Refused;
use host_types::rule::WRONG_KIND;
use std::alloc::Global;
use verifier_kinds::Kind;

/// The advice on a refusal of a text, by what stands at its slot and what was known there.
pub fn advice_at(alloc: Global, checked: &CheckedText<'_>, refused: Refused) -> Option<Advice>
    ensures { IsSome result ↔ IsTrue (is_answered refused.number) }
{
    if refused.number == WRONG_KIND && adds_registers(checked.text, refused.slot) {
        if let Some(knowledge) = checked.knowledge(alloc) {
            let kinds = Kinds::at(&knowledge, refused.slot);
            return advice_by_kinds(checked.text, refused, &kinds);
        }
    }
    advice_on_text(refused, checked.text)
}

/// The same where it is known what the registers held.
pub fn advice_by_kinds(text: &[u8], refused: Refused, kinds: &Kinds) -> Option<Advice>
    ensures { IsSome result ↔ IsTrue (is_answered refused.number) }
{
    if refused.number == WRONG_KIND && adds_registers(text, refused.slot) {
        if let Some(sum) = sum_of(text, refused.slot, kinds) {
            return Some(on_sum(sum));
        }
    }
    advice_on_text(refused, text)
}

/// Whether the instruction at a slot adds a register to another one, in 64 bits.
fn adds_registers(text: &[u8], slot: u32) -> bool {
    match Insn::at(text, slot as usize) {
        Some(insn) => matches!(
            Operation::of(insn.opcode),
            Some(Operation::Alu {
                code: AluCode::Add,
                width: Width::Bits64,
                source: Source::Register,
            })
        ),
        None => false,
    }
}

/// What the addition at a slot adds to what; nothing where an operand isn't known, or names a map.
fn sum_of(text: &[u8], slot: u32, kinds: &Kinds) -> Option<Sum> {
    let insn = Insn::at(text, slot as usize)?;
    match (kinds.of(insn.dst)?, kinds.of(insn.src)?) {
        (Kind::MapName(_), _) | (_, Kind::MapName(_)) => None,
        (Kind::Scalar(_), Kind::Scalar(_)) => None,
        (Kind::Scalar(_), _) => Some(Sum::AddressToNumber),
        (Kind::Context(_) | Kind::Stack(_), Kind::Scalar(_)) => Some(Sum::NumberToAddress),
        (_, Kind::Scalar(_)) => None,
        _ => Some(Sum::AddressToAddress),
    }
}
