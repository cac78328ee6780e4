//! The questions that several operations ask.

ghost use Rattle.std.specs.Prelude.{◌≡◌, ◌≤◌, IfOk, OnOk};
ghost use Rattle.verifier_kinds.specs.Kinds.{IsKind};
ghost use Rattle.verifier_kinds.specs.Descriptions.{IsDescription};
ghost use Rattle.verifier.specs.Flow.{both, first_of, read_kind, writable, write_kind, immediate_kind, operand_kind};
ghost use Rattle.verifier.specs.Successor.{done};

use bpf_decode::{FRAME_POINTER, Insn, Source, Width};
use host_types::rule::{FRAME_WRITTEN, UNSET_REGISTER};
use verifier_kinds::{Description, Kind, Range};

/// How many numbers 32 bits have.
const WORD: u64 = 1 << 32;

/// Two questions that are asked at once: the smallest number of those that break names the rule.
pub(crate) fn both<A: Drop, B: Drop>(a: Result<A, u32>, b: Result<B, u32>) -> Result<(A, B), u32>
    ensures { result ≡ both a b }
{
    match (a, b) {
        (Ok(x), Ok(y)) => Ok((x, y)),
        (Ok(_), Err(n)) => Err(n),
        (Err(m), Ok(_)) => Err(m),
        (Err(m), Err(n)) => Err(if n < m { n } else { m }),
    }
}

/// The same of questions that say nothing but whether a rule is broken.
pub(crate) fn first_of(a: Result<(), u32>, b: Result<(), u32>) -> Result<(), u32>
    ensures { result ≡ first_of a b }
{
    both(a, b)?;
    Ok(())
}

/// The kind of a register that is read.
pub(crate) fn read_kind(d: &Description, register: u8) -> Result<Kind, u32>
    requires register { register ≤ 10 }
    requires description { IsDescription d.now }
    ensures kind { result ≡ read_kind d.now register }
    ensures fulfils { IfOk result IsKind }
{
    match d.register(register) {
        Some(kind) => Ok(kind),
        None => Err(UNSET_REGISTER),
    }
}

/// R10 is read-only.
fn writable(register: u8) -> Result<(), u32>
    ensures { result ≡ writable register }
{
    if register == FRAME_POINTER {
        Err(FRAME_WRITTEN)
    } else {
        Ok(())
    }
}

/// Writes a kind to a register of the description.
pub(crate) fn write_kind(
    d: &mut Description,
    register: u8,
    kind: Result<Kind, u32>,
) -> Result<(), u32>
    requires register { register ≤ 10 }
    requires description { IsDescription d.old }
    requires kind { IfOk kind IsKind }
    ensures description { done result d.new ≡ write_kind d.old register kind }
    ensures fulfils { OnOk result (IsDescription d.new) }
{
    let (kind, ()) = both(kind, writable(register))?;
    d.set_register(register, kind);
    Ok(())
}

/// The kind of the number of an immediate, as a width takes it.
fn immediate_kind(width: Width, insn: &Insn) -> Kind
    ensures kind { result ≡ immediate_kind width insn.now }
    ensures fulfils { IsKind result }
{
    let number = match width {
        Width::Bits32 => insn.immediate() % WORD,
        Width::Bits64 => insn.immediate(),
    };
    Kind::Scalar(Range::constant(number))
}

/// The kind of the second operand of arithmetic or of a comparison, or of what is stored.
pub(crate) fn operand_kind(
    width: Width,
    source: Source,
    insn: &Insn,
    d: &Description,
) -> Result<Kind, u32>
    requires src { insn.now.src ≤ 10 }
    requires description { IsDescription d.now }
    ensures kind { result ≡ operand_kind width source insn.now d.now }
    ensures fulfils { IfOk result IsKind }
{
    match source {
        Source::Immediate => Ok(immediate_kind(width, insn)),
        Source::Register => read_kind(d, insn.src),
    }
}
