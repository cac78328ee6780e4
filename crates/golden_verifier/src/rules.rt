//! Rows that are asked of a rule of `verifier_kinds` rather than of a whole text: of what an instruction makes
//! of kinds, and of joins.

use crate::kinds::{kind_of, print_kind, print_slot, slot_of};
use bpf_decode::{Insn, Operation};
use std::io;
use verifier_kinds::{Description, Kind, Range, arith, refine};

/// What an instruction makes of the kinds of dst and of its second operand.
enum Finding {
    /// What arithmetic leaves in dst, or the number of the rule that it breaks.
    Made(Result<Kind, u32>),
    /// What a conditional jump says of dst on both branches.
    Answered {
        taken: Option<Kind>,
        not_taken: Option<Kind>,
    },
    /// It is neither arithmetic nor a conditional jump.
    Neither,
}

/// The instruction that is written `OPCODE` or `OPCODE.OFFSET`, the opcode in hex.
fn insn_of(text: &str) -> Option<Insn> {
    let (opcode, offset) = text.split_once('.').unwrap_or((text, "0"));
    Some(Insn {
        opcode: u8::from_str_radix(opcode, 16).ok()?,
        dst: 1,
        src: 2,
        offset: offset.parse().ok()?,
        imm: 0,
        next_imm: 0,
    })
}

/// What the instruction of a row makes of two kinds. Arithmetic alone may find `nothing` in dst.
fn finding_of(asked: &str) -> Option<Finding> {
    let mut fields = asked.split('\t');
    let insn = insn_of(fields.next()?)?;
    let dst = fields.next()?;
    let operand = kind_of(fields.next()?)?;
    Some(match Operation::of(insn.opcode) {
        Some(Operation::Alu { .. }) if dst == "nothing" => {
            Finding::Made(arith(&insn, None, operand))
        }
        Some(Operation::Alu { .. }) => Finding::Made(arith(&insn, Some(kind_of(dst)?), operand)),
        Some(Operation::Branch { .. }) => {
            let known = kind_of(dst)?;
            Finding::Answered {
                taken: refine(&insn, true, known, operand),
                not_taken: refine(&insn, false, known, operand),
            }
        }
        _ => Finding::Neither,
    })
}

/// Prints what is known of dst on a way that a jump may go.
fn print_way(rt: &impl Print, kind: Option<Kind>) -> io::Result<()> {
    match kind {
        Some(_) => print_kind(rt, kind),
        None => print!(rt; "never"),
    }
}

/// Prints what the instruction of a row makes of two kinds.
pub(crate) fn print_insn(rt: &impl Print, asked: &str) -> io::Result<()> {
    match finding_of(asked) {
        Some(Finding::Made(Ok(kind))) => print_kind(rt, Some(kind)),
        Some(Finding::Made(Err(number))) => print!(rt; "refused {number}"),
        Some(Finding::Answered { taken, not_taken }) => {
            print_way(rt, taken)?;
            print!(rt; "\t")?;
            print_way(rt, not_taken)
        }
        Some(Finding::Neither) => print!(rt; "neither arithmetic nor a conditional jump"),
        None => print!(rt; "no row"),
    }
}

/// Two descriptions that a program begins with, but for the highest slot of the stack, and for the second's R2,
/// which is 4.
fn descriptions_of(asked: &str) -> Option<(Description, Description)> {
    let (a, b) = asked.split_once('\t')?;
    let mut left = Description::start();
    left.set_slot(63, slot_of(a)?);
    let mut right = Description::start();
    right.set_slot(63, slot_of(b)?);
    right.set_register(2, Kind::Scalar(Range::constant(4)));
    Some((left, right))
}

/// Prints what is known of the slot, of R1 and of R2 in the join of a row's descriptions, and whether that isn't
/// above both.
pub(crate) fn print_join(rt: &impl Print, asked: &str) -> io::Result<()> {
    let Some((left, right)) = descriptions_of(asked) else {
        return print!(rt; "no row");
    };
    let joined = left.join(&right);
    print_slot(rt, joined.slot(63))?;
    print!(rt; "\tR1: ")?;
    print_kind(rt, joined.register(1))?;
    print!(rt; "\tR2: ")?;
    print_kind(rt, joined.register(2))?;
    if left.is_below(&joined) && right.is_below(&joined) {
        Ok(())
    } else {
        print!(rt; "\tnot above both")
    }
}
