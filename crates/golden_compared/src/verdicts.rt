ghost use Rattle.verifier.specs.Subject.{IsContextSize};
ghost use Rattle.verifier.specs.Verified.{AreShapes};

use bpf_decode::decode;
use host_types::limits::MAX_TEXT;
use host_types::{Refused, Shape};
use knowledge::Knowledge;
use reference_verifier::{Order, Table, Verdict, is_lawful, verdict_in};
use std::alloc::Global;
use verifier::{Candidate, Verified};
use verifier_kinds::Description;

/// Whether both passes of the plain verifier answer of a well-formed text, with maps of these shapes and a
/// context of a size, the same as one another, with the same table, up to the slot that is refused if one is;
/// and what `verify` answered: the same number and slot of a refusal, or the same kinds. The table is what the verifier's
/// flow knows, of each register and of all bytes of the stack, of a refused text too; that of an accepted text is lawful.
pub fn verdicts_agree(
    alloc: Global,
    text: &[u8],
    shapes: &[Option<Shape>],
    size: u32,
    verified: &Result<Verified, Refused>,
) -> bool
    requires shapes { AreShapes shapes.now }
    requires context { IsContextSize size }
{
    let Some(forward) = answer(alloc, text, shapes, size, Order::Forward) else {
        return false;
    };
    let Some(backward) = answer(alloc, text, shapes, size, Order::Backward) else {
        return false;
    };
    let slots = (text.len().min(MAX_TEXT) / 8) as u32;
    is_one(&forward, &backward, slots)
        && is_as(&forward, verified)
        && is_kept(alloc, text, shapes, size, &forward)
        && is_known(alloc, text, shapes, size, &forward)
}

/// What the pass answers that joins in an order; `None` where the decoder refuses, or for want of memory.
fn answer(
    alloc: Global,
    text: &[u8],
    shapes: &[Option<Shape>],
    size: u32,
    order: Order,
) -> Option<Verdict> {
    verdict_in(alloc, decode(alloc, text).ok()?, shapes, size, order).ok()
}

/// Whether the table of an accepted text is lawful.
fn is_kept(
    alloc: Global,
    text: &[u8],
    shapes: &[Option<Shape>],
    size: u32,
    verdict: &Verdict,
) -> bool {
    match (verdict, decode(alloc, text)) {
        (Verdict::Accepted(table), Ok(program)) => is_lawful(&program, shapes, size, table),
        (Verdict::Accepted(_), Err(_)) => false,
        (Verdict::Refused { .. }, _) => true,
    }
}

/// Whether two passes verified a text of so many slots alike, with one table.
fn is_one(verdict: &Verdict, again: &Verdict, slots: u32) -> bool {
    match (verdict, again) {
        (Verdict::Accepted(table), Verdict::Accepted(other)) => is_same(table, other, slots),
        (
            Verdict::Refused { table, refused },
            Verdict::Refused {
                table: other,
                refused: named,
            },
        ) => refused == named && is_same(table, other, slots),
        _ => false,
    }
}

/// Whether two tables say the same of each slot of a text.
fn is_same(table: &Table, other: &Table, slots: u32) -> bool {
    for slot in 0..slots {
        if table.description(slot) != other.description(slot) {
            return false;
        }
    }
    true
}

/// Whether a text was verified as `verify` verified it.
fn is_as(verdict: &Verdict, verified: &Result<Verified, Refused>) -> bool {
    match (verdict, verified) {
        (Verdict::Accepted(table), Ok(program)) => has_kinds(table, program),
        (Verdict::Refused { refused, .. }, Err(named)) => refused == named,
        _ => false,
    }
}

/// Whether a table knows what `verify` knows of each register at each slot.
fn has_kinds(table: &Table, program: &Verified) -> bool {
    for slot in 0..program.slots() {
        if !has_registers(table, program, slot) {
            return false;
        }
    }
    true
}

/// Whether a table knows what `verify` knows of each register at a slot.
fn has_registers(table: &Table, program: &Verified, slot: u32) -> bool {
    for register in 0..11 {
        if table.kind(slot, register) != program.kind(slot, register) {
            return false;
        }
    }
    true
}

/// Whether the verifier's flow knows at each slot what the table says, up to the slot that is refused if one is; there it breaks
/// the rule of the refusal.
fn is_known(
    alloc: Global,
    text: &[u8],
    shapes: &[Option<Shape>],
    size: u32,
    verdict: &Verdict,
) -> bool
    requires shapes { AreShapes shapes.now }
    requires context { IsContextSize size }
{
    let Ok(program) = decode(alloc, text) else {
        return false;
    };
    let Ok(knowledge) = Knowledge::of(alloc, Candidate::new(program, shapes, size)) else {
        return false;
    };
    match verdict {
        Verdict::Accepted(table) => knows(&knowledge, table, knowledge.slots()),
        Verdict::Refused { table, refused } => {
            refused.slot < knowledge.slots()
                && knowledge.breaks(refused.slot) == Some(refused.number)
                && knows(&knowledge, table, refused.slot + 1)
        }
    }
}

/// Whether it is known at each of the first slots what the table says.
fn knows(knowledge: &Knowledge, table: &Table, slots: u32) -> bool {
    for slot in 0..slots {
        if !knows_slot(knowledge, slot, table.description(slot)) {
            return false;
        }
    }
    true
}

/// Whether this is known at a slot, or the slot isn't reached.
fn knows_slot(knowledge: &Knowledge, slot: u32, description: Option<Description>) -> bool {
    match description {
        Some(known) => {
            knowledge.reaches(slot)
                && knows_registers(knowledge, slot, &known)
                && knows_stack(knowledge, slot, &known)
        }
        None => !knowledge.reaches(slot),
    }
}

/// Whether this is known of each register at a slot.
fn knows_registers(knowledge: &Knowledge, slot: u32, known: &Description) -> bool {
    for register in 0..11 {
        if knowledge.kind(slot, register) != known.register(register) {
            return false;
        }
    }
    true
}

/// Whether this is known of the stack at a slot.
fn knows_stack(knowledge: &Knowledge, slot: u32, known: &Description) -> bool {
    for entry in 0..64 {
        if knowledge.stack(slot, entry) != known.slot(entry) {
            return false;
        }
    }
    true
}
