//! What flows on from an instruction, or which rule it breaks.

ghost use Rattle.std.specs.Prelude.{◌≡◌, ◌+◌, ◌≤◌, ℕ, IfOk, OnOk, Some};
ghost use Rattle.bpf_decode.specs.declared.operation.Operation.TheVariants.{Alu};
ghost use Rattle.bpf_decode.specs.Opcodes.{operation_of};
ghost use Rattle.bpf_decode.specs.Text.{slots_of, width_at, IsInstruction};
ghost use Rattle.verifier_kinds.specs.Kinds.{IsKind};
ghost use Rattle.verifier_kinds.specs.Descriptions.{IsDescription};
ghost use Rattle.verifier.specs.Flow.{dst_is_known, computed_kind, after_alu, falls_on, flow_of_exit, flow};
ghost use Rattle.verifier_kinds.specs.declared.description.Description.{Description};
ghost use Rattle.verifier.specs.declared.successor.Successor.TheVariants.{Ends, Falls};
ghost use Rattle.verifier.specs.Successor.{HasDst, FallsTo, LeadsBelow, done, flow_of_successor, successors_of};
ghost use Rattle.verifier.specs.Pass.{AreDescribed, targets_in, flow_in};

use crate::access::{after_load, after_load_immediate, after_store, is_number};
use crate::calls::after_call;
use crate::candidate::Candidate;
use crate::rules::{both, operand_kind, read_kind, write_kind};
use crate::successor::Successor;
use bpf_decode::{AluCode, Insn, Operation, Source, Width};
use verifier_kinds::{Description, Kind, arith};

/// A slot to which an instruction leads, and what is known there.
#[derive(Drop)]
pub struct Target {
    pub slot: u32,
    pub description: Description,
}

/// Where an instruction leads: the slot to which it falls through, and the one to which it jumps.
#[derive(Drop)]
pub struct Onward {
    pub next: Option<Target>,
    pub jump: Option<Target>,
}

/// The kind of dst is known where the arithmetic reads it.
fn dst_is_known(code: AluCode, insn: &Insn, d: &Description) -> Result<(), u32>
    requires dst { insn.now.dst ≤ 10 }
    requires description { IsDescription d.now }
    ensures { result ≡ dst_is_known code insn.now d.now }
{
    if code != AluCode::Mov {
        read_kind(d, insn.dst)?;
    }
    Ok(())
}

/// The kind that arithmetic leaves in dst.
fn computed_kind(
    code: AluCode,
    width: Width,
    source: Source,
    insn: &Insn,
    d: &Description,
) -> Result<Kind, u32>
    requires operation { operation_of insn.now.opcode ≡ Some (Alu code width source) }
    requires dst { insn.now.dst ≤ 10 }
    requires src { insn.now.src ≤ 10 }
    requires description { IsDescription d.now }
    ensures kind { result ≡ computed_kind code width source insn.now d.now }
    ensures fulfils { IfOk result IsKind }
{
    let known = dst_is_known(code, insn, d);
    let ((), operand) = both(known, operand_kind(width, source, insn, d))?;
    arith(insn, d.register(insn.dst), operand)
}

/// Makes of the description what is known after arithmetic.
#[tactic(auto, unfolding(crate::specs::Flow::after_alu))]
fn after_alu(
    code: AluCode,
    width: Width,
    source: Source,
    insn: &Insn,
    d: &mut Description,
) -> Result<(), u32>
    requires operation { operation_of insn.now.opcode ≡ Some (Alu code width source) }
    requires dst { insn.now.dst ≤ 10 }
    requires src { insn.now.src ≤ 10 }
    requires description { IsDescription d.old }
    ensures description { done result d.new ≡ after_alu code width source insn.now d.old }
    ensures fulfils { OnOk result (IsDescription d.new) }
{
    let kind = computed_kind(code, width, source, insn, d);
    write_kind(d, insn.dst, kind)
}

/// Nothing flows on from the end, where R0 is returned.
fn returned(d: &Description) -> Result<Successor, u32>
    requires { IsDescription d.now }
    ensures flow { flow_of_successor result d.now ≡ flow_of_exit d.now }
    ensures none { IfOk result (λ successor. successor ≡ Ends) }
{
    let kind = read_kind(d, 0)?;
    is_number(kind)?;
    Ok(Successor::Ends)
}

impl Candidate {
    /// Where the instruction at a slot leads that falls through, whatever is known after it.
    fn falls_on(&self, slot: u32, after: Result<(), u32>) -> Result<Successor, u32>
        requires { IsInstruction self.now.text slot }
        ensures flow { (d : Description) → flow_of_successor result d ≡ falls_on self.now slot (done after d) }
        ensures falls { IfOk result (λ successor. (to : ℕ) × (successor ≡ Falls to) × (to ≡ slot + width_at self.now.text slot)) }
    {
        let ((), to) = both(after, self.falls_to(slot))?;
        Ok(Successor::Falls(to))
    }

    /// Makes of a description what is known after the instruction at a slot, and says where it leads.
    /// The error is the smallest number of the rules that it breaks, 11 to 25.
    #[tactic(auto, unfolding(crate::specs::Flow::flow_by))]
    pub(crate) fn flow_in_place(&self, slot: u32, d: &mut Description) -> Result<Successor, u32>
        requires instruction { IsInstruction self.now.text slot }
        requires description { IsDescription d.old }
        ensures flow { flow_of_successor result d.new ≡ flow self.now slot d.old }
        ensures described { IfOk result (λ successor. AreDescribed (successors_of successor d.new)) }
        ensures dst { IfOk result HasDst }
        ensures falls { IfOk result (FallsTo (slot + width_at self.now.text slot)) }
        ensures within { IfOk result (LeadsBelow (slots_of self.now.text)) }
    {
        let insn = self.insn(slot);
        let after = match insn.operation() {
            Operation::Alu {
                code,
                width,
                source,
            } => after_alu(code, width, source, &insn, d),
            Operation::Load { size, extension } => after_load(self, size, extension, &insn, d),
            Operation::Store { size, source } => after_store(self, size, source, &insn, d),
            Operation::LoadImmediate => after_load_immediate(self, &insn, d),
            Operation::Call => after_call(self, slot, &insn, d),
            Operation::Jump { distance } => return self.jumps(distance, slot, &insn),
            Operation::Branch {
                comparison,
                width,
                source,
            } => return self.branches(comparison, width, source, slot, &insn, d),
            Operation::Exit => return returned(d),
        };
        self.falls_on(slot, after)
    }

    /// Where the instruction at a slot leads from a description. The error is the smallest number of
    /// the rules that it breaks, 11 to 25.
    pub fn flow(&self, slot: u32, d: &Description) -> Result<Onward, u32>
        requires instruction { IsInstruction self.now.text slot }
        requires description { IsDescription d.now }
        ensures flow { flow_in result ≡ flow self.now slot d.now }
        ensures described { IfOk result (λ onward. AreDescribed (targets_in onward)) }
    {
        let mut after = *d;
        let successor = self.flow_in_place(slot, &mut after)?;
        Ok(successor.onward(&after))
    }
}
