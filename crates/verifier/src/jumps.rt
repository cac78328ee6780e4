//! Jumps: where they lead, and what the comparison of a conditional jump gives on each of its successors.

ghost use Rattle.std.specs.Prelude.{◌≡◌, ◌+◌, ◌<◌, ◌≤◌, ℕ, IfOk};
ghost use Rattle.bpf_decode.specs.Text.{slots_of, width_at, IsInstruction};
ghost use Rattle.verifier_kinds.specs.Kinds.{IsKind, IsNormal};
ghost use Rattle.verifier_kinds.specs.Descriptions.{IsDescription};
ghost use Rattle.verifier_kinds.specs.declared.description.Description.{Description};
ghost use Rattle.verifier.specs.declared.successor.Successor.TheVariants.{Jumps};
ghost use Rattle.verifier.specs.Flow.{comparands, compared_kinds, flow_of_branch, flow_of_jump, holds_of_null, is_null_check};
ghost use Rattle.verifier.specs.Successor.{AreNormal, HasDst, FallsTo, LeadsBelow, flow_of_successor, successors_of};
ghost use Rattle.verifier.specs.Pass.{AreDescribed};

use crate::candidate::Candidate;
use crate::rules::{both, operand_kind, read_kind};
use crate::successor::{Check, Fork, Successor};
use bpf_decode::{Comparison, Distance, Insn, Source, Width};
use host_types::rule::{NULL_NOT_CHECKED, WRONG_KIND};
use verifier_kinds::{Description, Kind, Range, refined};

/// What a conditional jump compares: two numbers, or a lookup's answer with 0.
#[derive(Clone, Copy)]
pub enum Compared {
    Numbers(Range, Range),
    Answer { map: u32, call: u32 },
}

/// A comparison that says whether a lookup's answer is 0.
fn is_null_check(comparison: Comparison, width: Width, source: Source, insn: &Insn) -> bool
    ensures { result ≡ is_null_check comparison width source insn.now }
{
    match (comparison, width, source) {
        (Comparison::Equal | Comparison::NotEqual, Width::Bits64, Source::Immediate) => {
            insn.imm == 0
        }
        _ => false,
    }
}

/// Numbers are compared, and a lookup's answer with 0.
fn compared_kinds(null_check: bool, dst: Kind, operand: Kind) -> Result<Compared, u32>
    requires dst { IsKind dst }
    requires operand { IsKind operand }
    ensures compared { result ≡ compared_kinds null_check (dst, operand) }
    ensures normal { IfOk result AreNormal }
{
    match (dst, operand) {
        (Kind::MaybeValue { map, call }, _) if null_check => Ok(Compared::Answer { map, call }),
        (Kind::MaybeValue { .. }, _) | (_, Kind::MaybeValue { .. }) => Err(NULL_NOT_CHECKED),
        (Kind::Scalar(a), Kind::Scalar(b)) => Ok(Compared::Numbers(a, b)),
        _ => Err(WRONG_KIND),
    }
}

/// What a conditional jump compares.
fn comparands(
    comparison: Comparison,
    width: Width,
    source: Source,
    insn: &Insn,
    d: &Description,
) -> Result<Compared, u32>
    requires dst { insn.now.dst ≤ 10 }
    requires src { insn.now.src ≤ 10 }
    requires description { IsDescription d.now }
    ensures compared { result ≡ comparands comparison width source insn.now d.now }
    ensures normal { IfOk result AreNormal }
{
    let (dst, operand) = both(read_kind(d, insn.dst), operand_kind(width, source, insn, d))?;
    compared_kinds(is_null_check(comparison, width, source, insn), dst, operand)
}

/// A comparison with 0 holds of 0.
fn holds_of_null(comparison: Comparison) -> bool
    ensures { result ≡ holds_of_null comparison }
{
    comparison == Comparison::Equal
}

impl Candidate {
    /// Where a jump at a slot leads that is always taken, whatever is known there.
    pub(crate) fn jumps(&self, distance: Distance, slot: u32, insn: &Insn) -> Result<Successor, u32>
        requires instruction { IsInstruction self.now.text slot }
        ensures flow { (d : Description) → flow_of_successor result d ≡ flow_of_jump self.now distance insn.now slot d }
        ensures jumps { IfOk result (λ successor. (to : ℕ) × (successor ≡ Jumps to) × (to < slots_of self.now.text)) }
    {
        let to = self.jumps_to(slot, insn.distance(distance))?;
        Ok(Successor::Jumps(to))
    }

    /// Where a conditional jump at a slot leads. Both targets are verified, also where nothing goes one
    /// way.
    pub(crate) fn branches(
        &self,
        comparison: Comparison,
        width: Width,
        source: Source,
        slot: u32,
        insn: &Insn,
        d: &Description,
    ) -> Result<Successor, u32>
        requires instruction { IsInstruction self.now.text slot }
        requires dst { insn.now.dst ≤ 10 }
        requires src { insn.now.src ≤ 10 }
        requires description { IsDescription d.now }
        ensures flow { flow_of_successor result d.now ≡ flow_of_branch self.now comparison width source insn.now slot d.now }
        ensures described { IfOk result (λ successor. AreDescribed (successors_of successor d.now)) }
        ensures dst { IfOk result HasDst }
        ensures falls { IfOk result (FallsTo (slot + width_at self.now.text slot)) }
        ensures within { IfOk result (LeadsBelow (slots_of self.now.text)) }
    {
        let compared = comparands(comparison, width, source, insn, d);
        let targets = both(
            self.falls_to(slot),
            self.jumps_to(slot, i32::from(insn.offset)),
        );
        let (compared, (next, jump)) = both(compared, targets)?;
        Ok(match compared {
            Compared::Numbers(a, b) => Successor::Forks(Fork {
                dst: insn.dst,
                next,
                fallen: refined(comparison, width, false, a, b),
                jump,
                jumped: refined(comparison, width, true, a, b),
            }),
            Compared::Answer { map, call } => Successor::Checks(Check {
                map,
                call,
                next,
                jump,
                null_jumps: holds_of_null(comparison),
            }),
        })
    }
}
