//! The pass over the slots of a program, which makes its table.

ghost use Rattle.std.specs.Prelude.{◌≡◌, ◌≢◌, ℕ, ◌+◌, ◌<◌, ◌≤◌, ◌++◌, ◌∷◌, [], true, length, map, option_map, Some, None, IfOk, IfErr, OnOk, ◌⊎◌};
ghost use Rattle.host_types.specs.declared.fault.Refused.{Refused};
ghost use Rattle.bpf_decode.specs.Text.{slots_of, IsInstruction, IsWellFormed, out_of_memory};
ghost use Rattle.verifier_kinds.specs.declared.kind.Kind.{Kind};
ghost use Rattle.verifier_kinds.specs.declared.kind.Kind.TheVariants.{Scalar};
ghost use Rattle.verifier_kinds.specs.Descriptions.{with_kind};
ghost use Rattle.verifier.specs.declared.successor.Successor.TheVariants.{Checks, Forks};
ghost use Rattle.verifier.specs.Flow.{target};
ghost use Rattle.verifier.specs.Table.{arrived, known_with, tight_table, IsCleanBefore, IsRefusal};
ghost use Rattle.verifier.specs.Wide.{HasNoLawful};
ghost use Rattle.verifier.specs.Successor.{HasDst, FallsTo, LeadsBelow, successors_of};
ghost use Rattle.verifier.specs.Pass.{FlowDescribed, falling, kinds_in, known_with_coming, pending_at, HasPassed};

use crate::candidate::Candidate;
use crate::known::KnownKinds;
use crate::successor::{Check, Fork, Successor};
use host_types::Refused;
use std::alloc::{AllocError, Global};
use verifier_kinds::{Description, Kind, Range};

/// The kinds of the registers at a slot.
pub(crate) type Registers = [Option<Kind>; 11];

/// What is known at the slots to which jumps lead.
type Pending = Vec<Option<Box<Description>>>;

/// What a pass has found before a slot: the kinds of the registers at each slot after, what is known
/// at the slots ahead to which jumps lead, and what falls through to the next instruction, if it `falls`.
#[derive(Drop)]
struct Pass {
    kept: KnownKinds,
    pending: Pending,
    current: Description,
    falls: bool,
}

/// Of no slot anything is known.
fn none_pending(alloc: Global, slots: u32) -> Result<Pending, AllocError>
    ensures len { IfOk result (λ pending. length pending.items ≡ slots) }
    ensures none { IfOk result (λ pending. (s : ℕ) → pending_at pending.items s ≡ None) }
{
    let mut pending = Vec::with_capacity(alloc, slots as usize)?;
    for _slot in 0..slots {
        pending.push(None)?;
    }
    Ok(pending)
}

/// What is known, joined with what comes.
fn known_with(
    alloc: Global,
    known: Option<Box<Description>>,
    coming: &Description,
) -> Result<Box<Description>, AllocError>
    ensures { IfOk result (λ after. after.value ≡ known_with (option_map (λ b. b.value) known) coming.now) }
{
    let Some(mut known) = known else {
        return Ok(Box::new(alloc, *coming)?);
    };
    *known = known.join(coming);
    Ok(known)
}

/// Lets a description flow to a slot: what is known there is joined with it.
fn enter(
    alloc: Global,
    pending: &mut Pending,
    slot: u32,
    coming: &Description,
) -> Result<(), AllocError>
    requires { slot < length pending.old.items }
    ensures len { length pending.new.items ≡ length pending.old.items }
    ensures arrived { OnOk result ((s : ℕ) → pending_at pending.new.items s ≡ arrived s (pending_at pending.old.items s) (target slot (Some coming.now))) }
{
    let known = pending[slot as usize].take();
    pending[slot as usize] = Some(known_with(alloc, known, coming)?);
    Ok(())
}

/// Makes of a description what is known on a way of a conditional jump; the answer is whether that way
/// may be gone.
fn learn(d: &mut Description, dst: u8, range: Option<Range>) -> bool
    requires { dst ≤ 10 }
    ensures learned { falling result d.new ≡ option_map (λ range. with_kind d.old dst (Scalar range)) range }
    ensures same { (kind : Kind) → with_kind d.new dst kind ≡ with_kind d.old dst kind }
{
    let Some(range) = range else {
        return false;
    };
    d.set_register(dst, Kind::Scalar(range));
    true
}

impl Pass {
    /// Before the first slot the start's description falls to it, and nothing else is known.
    fn begin(alloc: Global, candidate: &Candidate) -> Result<Pass, AllocError>
        ensures { IfOk result (λ pass. HasPassed candidate.now pass 0) }
    {
        let slots = candidate.slots();
        Ok(Pass {
            kept: KnownKinds::new(alloc, slots)?,
            pending: none_pending(alloc, slots)?,
            current: Description::start(),
            falls: true,
        })
    }

    /// Makes `current` what is known at a slot: what jumps led there, joined with what falls there.
    fn arrive(&mut self, slot: u32)
        requires { slot < length self.old.pending.items }
        ensures kept { self.new.kept ≡ self.old.kept }
        ensures len { length self.new.pending.items ≡ length self.old.pending.items }
        ensures known { falling self.new.falls self.new.current ≡ known_with_coming (pending_at self.old.pending.items slot) (falling self.old.falls self.old.current) }
        ensures others { (s : ℕ) → s ≢ slot → pending_at self.new.pending.items s ≡ pending_at self.old.pending.items s }
    {
        let Some(known) = self.pending[slot as usize].take() else {
            return;
        };
        self.join_pending(known);
    }

    /// Joins what jumps led to a slot with what falls there. It is a function of its own since no jump leads to most slots: compiled code
    /// clears room for another description only here.
    fn join_pending(&mut self, known: Box<Description>)
        ensures kept { self.new.kept ≡ self.old.kept }
        ensures pending { self.new.pending ≡ self.old.pending }
        ensures known { falling self.new.falls self.new.current ≡ known_with_coming (Some known.value) (falling self.old.falls self.old.current) }
    {
        self.current = if self.falls {
            known.join(&self.current)
        } else {
            *known
        };
        self.falls = true;
    }

    /// Lets flow to a slot what is known on a way of a conditional jump, if that may be gone.
    fn send(
        &mut self,
        alloc: Global,
        slot: u32,
        dst: u8,
        range: Option<Range>,
    ) -> Result<(), AllocError>
        requires slot { slot < length self.old.pending.items }
        requires dst { dst ≤ 10 }
        ensures kept { self.new.kept ≡ self.old.kept }
        ensures len { length self.new.pending.items ≡ length self.old.pending.items }
        ensures arrived { OnOk result ((s : ℕ) → pending_at self.new.pending.items s
            ≡ arrived s (pending_at self.old.pending.items s) (target slot (option_map (λ range. with_kind self.old.current dst (Scalar range)) range))) }
        ensures same { (kind : Kind) → with_kind self.new.current dst kind ≡ with_kind self.old.current dst kind }
    {
        if learn(&mut self.current, dst, range) {
            enter(alloc, &mut self.pending, slot, &self.current)?;
        }
        Ok(())
    }

    /// Lets `current` flow on both successors of a conditional jump. Where both lead to one slot, what falls
    /// through is joined first.
    fn part(&mut self, alloc: Global, fork: Fork) -> Result<(), AllocError>
        requires dst { fork.dst ≤ 10 }
        requires next { fork.next < length self.old.pending.items }
        requires jump { fork.jump < length self.old.pending.items }
        ensures kept { self.new.kept ≡ self.old.kept }
        ensures len { length self.new.pending.items ≡ length self.old.pending.items }
        ensures arrived { OnOk result ((s : ℕ) → arrived s (pending_at self.new.pending.items s) (target fork.next (falling self.new.falls self.new.current))
            ≡ arrived s (pending_at self.old.pending.items s) (successors_of (Forks fork) self.old.current)) }
    {
        let Fork {
            dst,
            next,
            fallen,
            jump,
            jumped,
        } = fork;
        if next == jump {
            self.send(alloc, next, dst, fallen)?;
            self.send(alloc, jump, dst, jumped)?;
            self.falls = false;
        } else {
            self.send(alloc, jump, dst, jumped)?;
            self.falls = learn(&mut self.current, dst, fallen);
        }
        Ok(())
    }

    /// Lets `current` flow on both successors of a conditional jump that says whether a lookup's answer is
    /// 0. Where both lead to one slot, what falls through is joined first.
    fn part_by_answer(&mut self, alloc: Global, check: Check) -> Result<(), AllocError>
        requires next { check.next < length self.old.pending.items }
        requires jump { check.jump < length self.old.pending.items }
        requires falls { self.old.falls ≡ true }
        ensures kept { self.new.kept ≡ self.old.kept }
        ensures len { length self.new.pending.items ≡ length self.old.pending.items }
        ensures arrived { OnOk result ((s : ℕ) → arrived s (pending_at self.new.pending.items s) (target check.next (falling self.new.falls self.new.current))
            ≡ arrived s (pending_at self.old.pending.items s) (successors_of (Checks check) self.old.current)) }
    {
        let mut jumped = self.current;
        check.learn(check.null_jumps, &mut jumped);
        check.learn(!check.null_jumps, &mut self.current);
        if check.next == check.jump {
            enter(alloc, &mut self.pending, check.next, &self.current)?;
            self.falls = false;
        }
        enter(alloc, &mut self.pending, check.jump, &jumped)
    }

    /// Lets `current` flow where an instruction leads.
    fn follow(&mut self, alloc: Global, successor: Successor) -> Result<(), AllocError>
        requires dst { HasDst successor }
        requires within { LeadsBelow (length self.old.pending.items) successor }
        requires falls { self.old.falls ≡ true }
        ensures kept { self.new.kept ≡ self.old.kept }
        ensures len { length self.new.pending.items ≡ length self.old.pending.items }
        ensures arrived { OnOk result ((next s : ℕ) → FallsTo next successor → arrived s (pending_at self.new.pending.items s) (target next (falling self.new.falls self.new.current))
            ≡ arrived s (pending_at self.old.pending.items s) (successors_of successor self.old.current)) }
    {
        match successor {
            Successor::Ends => self.falls = false,
            Successor::Falls(_) => {}
            Successor::Jumps(to) => {
                enter(alloc, &mut self.pending, to, &self.current)?;
                self.falls = false;
            }
            Successor::Forks(fork) => self.part(alloc, fork)?,
            Successor::Checks(check) => self.part_by_answer(alloc, check)?,
        }
        Ok(())
    }

    /// Verifies the instruction at a slot by what is known there, if it is reached. The error is the
    /// refusal of the text, or want of memory.
    fn decode_and_verify(
        &mut self,
        alloc: Global,
        candidate: &Candidate,
        slot: u32,
    ) -> Result<(), Refused>
        requires text { IsWellFormed candidate.now.text }
        requires instruction { IsInstruction candidate.now.text slot }
        requires passed { HasPassed candidate.now self.old slot }
        ensures passed { OnOk result (HasPassed candidate.now self.new (slot + 1)) }
        ensures refused { IfErr result (λ refused. (refused ≡ out_of_memory) ⊎ IsRefusal candidate.now refused) }
        ensures complete { IfErr result (λ refused. (refused ≡ out_of_memory) ⊎ HasNoLawful candidate.now) }
    {
        self.arrive(slot);
        if !self.falls {
            self.skip()?;
            return Ok(());
        }
        self.keep()?;
        let successor = match candidate.flow_in_place(slot, &mut self.current) {
            Ok(successor) => successor,
            Err(number) => return Err(Refused { number, slot }),
        };
        let Ok(()) = self.follow(alloc, successor) else {
            return Err(Refused::OUT_OF_MEMORY);
        };
        Ok(())
    }

    /// Keeps the kinds of the registers at the next slot, which is reached.
    fn keep(&mut self) -> Result<(), Refused>
        requires { length self.old.kept < 4096 }
        ensures kept { OnOk result (self.new.kept ≡ self.old.kept ++ Some self.old.current.registers ∷ []) }
        ensures pending { self.new.pending ≡ self.old.pending }
        ensures current { self.new.current ≡ self.old.current }
        ensures falls { self.new.falls ≡ self.old.falls }
        ensures memory { IfErr result (λ refused. refused ≡ out_of_memory) }
    {
        match self.kept.push(&self.current.registers) {
            Ok(()) => Ok(()),
            Err(_) => Err(Refused::OUT_OF_MEMORY),
        }
    }

    /// Passes over the next slot, which isn't reached.
    fn skip(&mut self) -> Result<(), Refused>
        ensures kept { OnOk result (self.new.kept ≡ self.old.kept ++ None ∷ []) }
        ensures pending { self.new.pending ≡ self.old.pending }
        ensures current { self.new.current ≡ self.old.current }
        ensures falls { self.new.falls ≡ self.old.falls }
        ensures memory { IfErr result (λ refused. refused ≡ out_of_memory) }
    {
        match self.kept.push_unreached() {
            Ok(()) => Ok(()),
            Err(_) => Err(Refused::OUT_OF_MEMORY),
        }
    }

    /// Passes over a slot. The error is the refusal of the text, or want of memory.
    fn pass_slot(&mut self, alloc: Global, candidate: &Candidate, slot: u32) -> Result<(), Refused>
        requires text { IsWellFormed candidate.now.text }
        requires slot { slot < slots_of candidate.now.text }
        requires passed { HasPassed candidate.now self.old slot }
        ensures passed { OnOk result (HasPassed candidate.now self.new (slot + 1)) }
        ensures refused { IfErr result (λ refused. (refused ≡ out_of_memory) ⊎ IsRefusal candidate.now refused) }
        ensures complete { IfErr result (λ refused. (refused ≡ out_of_memory) ⊎ HasNoLawful candidate.now) }
    {
        if candidate.begins(slot) {
            self.decode_and_verify(alloc, candidate, slot)?;
        } else {
            self.skip()?;
        }
        Ok(())
    }
}

/// The kinds of the registers at each slot of a text in which no slot breaks a rule, or else the refusal of
/// the text. Want of memory is `OutOfMemory` at slot 0.
pub(crate) fn kept_kinds(alloc: Global, candidate: &Candidate) -> Result<KnownKinds, Refused>
    ensures kept { IfOk result (λ kept. kept ≡ map kinds_in (tight_table candidate.now)) }
    ensures clean { IfOk result (λ kept. IsCleanBefore candidate.now (tight_table candidate.now) (slots_of candidate.now.text)) }
    ensures flows { IfOk result (λ kept. FlowDescribed candidate.now (tight_table candidate.now) (slots_of candidate.now.text)) }
    ensures refused { IfErr result (λ refused. (refused ≡ out_of_memory) ⊎ IsRefusal candidate.now refused) }
    ensures complete { IfErr result (λ refused. (refused ≡ out_of_memory) ⊎ HasNoLawful candidate.now) }
{
    let Ok(mut pass) = Pass::begin(alloc, candidate) else {
        return Err(Refused::OUT_OF_MEMORY);
    };
    for slot in 0..candidate.slots() {
        pass.pass_slot(alloc, candidate, slot)?;
    }
    Ok(pass.kept)
}
