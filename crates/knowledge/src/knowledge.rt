//! What is known at each slot of a text, refused or not.

ghost use Rattle.std.specs.Prelude.{◌≡◌, ℕ, ◌+◌, ◌<◌, ◌≤◌, ◌∷◌, ◌↔◌, length, replicate, slice_set, Some, None, IfOk, IfSome, IfNone, IsSome, IsTrue};
ghost use Rattle.bpf_decode.specs.Text.{slots_of, IsInstruction, IsWellFormed};
ghost use Rattle.verifier_kinds.specs.Descriptions.{start_description, IsDescription};
ghost use Rattle.verifier.specs.Flow.{target};
ghost use Rattle.verifier.specs.Table.{described, flows_by, flows_from, known_with, arrived, tight_table, Breaks};
ghost use Rattle.verifier.specs.Pass.{AreDescribed, target_in, targets_in};
ghost use Rattle.verifier.specs.Verified.{kind_at};
ghost use Rattle.knowledge.specs.Knowledge.{stack_at, HasFlowed, IsKnowledge};

use std::alloc::{AllocError, Global};
use std::marker::Model;
use verifier::{Candidate, Onward, Target};
use verifier_kinds::{Description, Kind, StackSlot};

/// What the verifier knows at each slot of a text: a description, or nothing where the slot isn't reached. From a slot that
/// breaks a rule nothing flows on. Contracts see the text, with the shapes of its maps and the size of its context: what
/// is known is its tight table.
#[derive(Drop)]
pub struct Knowledge {
    candidate: Candidate,
    slots: Vec<Option<Description>>,
}

impl Model for Knowledge {
    ghost use Rattle.verifier.specs.Subject.{Subject};
    ghost use Rattle.knowledge.specs.Knowledge.{IsKnowledge};

    ghost Value = { Subject };

    ghost view = { λ knowledge. knowledge.candidate };

    ghost invariant = { λ knowledge. IsKnowledge knowledge.candidate knowledge.slots.items };
}

/// What is known, joined with what comes.
fn joined(known: &Option<Description>, coming: &Description) -> Description
    ensures { result ≡ known_with known.now coming.now }
{
    match known {
        Some(known) => known.join(coming),
        None => *coming,
    }
}

/// Lets a description flow to a slot: what is known there is joined with it.
fn enter(slots: &mut Vec<Option<Description>>, slot: u32, coming: &Description)
    requires { slot < length slots.old.items }
    ensures len { length slots.new.items ≡ length slots.old.items }
    ensures arrived { (s : ℕ) → described slots.new.items s ≡ arrived s (described slots.old.items s) (target slot (Some coming.now)) }
{
    let known = joined(&slots[slot as usize], coming);
    slots[slot as usize] = Some(known);
}

/// The same of a target, if there is one.
fn arrive(slots: &mut Vec<Option<Description>>, target: &Option<Target>)
    requires { IfSome target.now (λ t. t.slot < length slots.old.items) }
    ensures len { length slots.new.items ≡ length slots.old.items }
    ensures arrived { (s : ℕ) → described slots.new.items s ≡ arrived s (described slots.old.items s) (target_in target.now) }
{
    if let Some(Target { slot, description }) = target {
        enter(slots, *slot, description);
    }
}

/// Where a slot leads. From one that isn't reached, or that breaks a rule, nothing flows.
fn leads(candidate: &Candidate, slot: u32, known: &Option<Description>) -> Onward
    requires instruction { IfSome known.now (λ d. IsInstruction candidate.now.text slot) }
    requires description { IfSome known.now IsDescription }
    ensures flows { targets_in result ≡ flows_by candidate.now slot known.now }
    ensures described { AreDescribed (flows_by candidate.now slot known.now) }
    ensures next { IfSome result.next (λ t. t.slot < slots_of candidate.now.text) }
    ensures jump { IfSome result.jump (λ t. t.slot < slots_of candidate.now.text) }
{
    const NOWHERE: Onward = Onward {
        next: None,
        jump: None,
    };
    let Some(known) = known else {
        return NOWHERE;
    };
    match candidate.flow(slot, known) {
        Ok(onward) => onward,
        Err(_) => NOWHERE,
    }
}

/// What is known at so many slots before the first: the start's description at slot 0.
#[tactic(auto, using(crate::proofs::Flowed::started))]
fn start(alloc: Global, slots: u32) -> Result<Vec<Option<Description>>, AllocError>
    requires { 0 < slots }
    ensures len { IfOk result (λ known. length known.items ≡ slots) }
    ensures start { IfOk result (λ known. known.items ≡ slice_set (replicate slots None) 0 (Some start_description)) }
{
    let mut known = vec![in alloc; None; slots as usize]?;
    known[0] = Some(Description::start());
    Ok(known)
}

/// Before the first slot the start's description has flowed to it, and nothing else.
#[tactic(auto, using(crate::proofs::Flowed::has_slots, crate::proofs::Flowed::begun))]
fn begin(alloc: Global, candidate: &Candidate) -> Result<Vec<Option<Description>>, AllocError>
    ensures { IfOk result (λ slots. HasFlowed candidate.now slots.items 0) }
{
    start(alloc, candidate.slots())
}

/// Lets what is known at a slot flow on.
#[tactic(auto, using(crate::proofs::Flowed::read_instruction, crate::proofs::Flowed::read_description, crate::proofs::Flowed::passed_over))]
fn pass_slot(slots: &mut Vec<Option<Description>>, candidate: &Candidate, slot: u32)
    requires text { IsWellFormed candidate.now.text }
    requires slot { slot < slots_of candidate.now.text }
    requires flowed { HasFlowed candidate.now slots.old.items slot }
    ensures { HasFlowed candidate.now slots.new.items (slot + 1) }
{
    let onward = leads(candidate, slot, &slots[slot as usize]);
    arrive(slots, &onward.next);
    arrive(slots, &onward.jump);
}

/// The rule that a slot breaks with what is known there, if it breaks one.
#[tactic(auto, using(crate::proofs::Read::known_instruction, crate::proofs::Read::known_description, crate::proofs::Read::rule_broken, crate::proofs::Read::none_broken, crate::proofs::Read::none_unreached))]
fn broken(candidate: &Candidate, slots: &Vec<Option<Description>>, slot: u32) -> Option<u32>
    requires text { IsWellFormed candidate.now.text }
    requires slot { slot < slots_of candidate.now.text }
    requires known { IsKnowledge candidate.now slots.now.items }
    ensures some { IfSome result (Breaks candidate.now (tight_table candidate.now) slot) }
    ensures none { IfNone result ((rule : ℕ) → Breaks candidate.now (tight_table candidate.now) slot rule → ⊥) }
{
    match &slots[slot as usize] {
        None => None,
        Some(known) => match candidate.flow(slot, known) {
            Ok(_) => None,
            Err(rule) => Some(rule),
        },
    }
}

/// Where a slot leads with what is known there.
fn leads_on(candidate: &Candidate, slots: &Vec<Option<Description>>, slot: u32) -> Onward
    requires text { IsWellFormed candidate.now.text }
    requires slot { slot < slots_of candidate.now.text }
    requires known { IsKnowledge candidate.now slots.now.items }
    ensures { targets_in result ≡ flows_from candidate.now (tight_table candidate.now) slot }
{
    leads(candidate, slot, &slots[slot as usize])
}

impl Knowledge {
    /// What is known at each slot of a text. It fails where there is no memory for it.
    #[tactic(auto, using(crate::proofs::Flowed::flowed_all))]
    pub fn of(alloc: Global, candidate: Candidate) -> Result<Knowledge, AllocError>
        ensures { IfOk result (λ knowledge. knowledge ≡ candidate) }
    {
        let mut slots = begin(alloc, &candidate)?;
        for slot in 0..candidate.slots() {
            pass_slot(&mut slots, &candidate, slot);
        }
        Ok(Knowledge { candidate, slots })
    }

    /// How many slots the text has, 1 to 4096.
    pub fn slots(&self) -> u32
        ensures { result ≡ slots_of self.now.text }
    {
        self.candidate.slots()
    }

    /// Whether a slot is reached.
    pub fn reaches(&self, slot: u32) -> bool
        ensures { IsTrue result ↔ IsSome (described (tight_table self.now) slot) }
    {
        matches!(self.slots.get(slot as usize), Some(Some(_)))
    }

    /// What is known of a register at a slot: `None` where nothing is known of it, or where the slot isn't reached. Of a
    /// text that is accepted it is what `Verified::kind` gives.
    pub fn kind(&self, slot: u32, register: u8) -> Option<Kind>
        requires { register ≤ 10 }
        ensures { result ≡ kind_at (tight_table self.now) slot register }
    {
        let known = self.slots.get(slot as usize)?.as_ref()?;
        known.register(register)
    }

    /// What is known of eight bytes of the stack at a slot, the lowest address first: that none is written where
    /// the slot isn't reached.
    pub fn stack(&self, slot: u32, location: usize) -> StackSlot
        requires { location < 64 }
        ensures { result ≡ stack_at (tight_table self.now) slot location }
    {
        match self.slots.get(slot as usize) {
            Some(Some(known)) => known.slot(location),
            _ => StackSlot::Bytes(0),
        }
    }

    /// The rule that a slot breaks, 11 to 25, with what is known there: the smallest number of those that it breaks. A slot
    /// that isn't reached breaks none.
    pub fn breaks(&self, slot: u32) -> Option<u32>
        requires { slot < slots_of self.now.text }
        ensures some { IfSome result (Breaks self.now (tight_table self.now) slot) }
        ensures none { IfNone result ((rule : ℕ) → Breaks self.now (tight_table self.now) slot rule → ⊥) }
    {
        let _well_formed = self.candidate.slots();
        broken(&self.candidate, &self.slots, slot)
    }

    /// Where a slot leads, and with what: nowhere from one that isn't reached, or that breaks a rule.
    pub fn leads(&self, slot: u32) -> Onward
        requires { slot < slots_of self.now.text }
        ensures { targets_in result ≡ flows_from self.now (tight_table self.now) slot }
    {
        let _well_formed = self.candidate.slots();
        leads_on(&self.candidate, &self.slots, slot)
    }
}
