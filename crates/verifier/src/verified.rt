ghost use Rattle.std.specs.Prelude.{◌≡◌, ◌<◌, ◌≤◌, ◌⊎◌, ◌↔◌, IfOk, IfErr, IsSome, IsTrue};
ghost use Rattle.bpf_decode.specs.Opcodes.{operation_of};
ghost use Rattle.bpf_decode.specs.Text.{slots_of, insn_at, instructions_of, IsInstruction, out_of_memory};
ghost use Rattle.verifier.specs.Subject.{IsContextSize, padded};
ghost use Rattle.verifier.specs.Flow.{value_size_of};
ghost use Rattle.verifier.specs.Named.{names};
ghost use Rattle.verifier.specs.Table.{IsRefusal};
ghost use Rattle.verifier.specs.Wide.{HasNoLawful};
ghost use Rattle.verifier.specs.Verified.{AreShapes, IsVerified, kind_at};
ghost use Rattle.verifier.specs.Reserve.{reserve_from};
ghost use Rattle.verifier.specs.Writes.{writes_from};

use crate::candidate::Candidate;
use crate::known::KnownKinds;
use crate::reserve::reserves;
use crate::table::kept_kinds;
use crate::writes::last_writes;
use bpf_decode::{Insn, Program};
use host_types::limits::{MAX_CONTEXT, MAX_MAPS};
use host_types::{Refused, Shape};
use std::alloc::Global;
use std::marker::Model;
use verifier_kinds::Kind;

/// An accepted program, with the shapes of the maps that it may use, the size of its context, and
/// what is known at each of its slots. Contracts see these. Which maps it names, and what the rest of
/// a run may need from each slot on, are kept beside them, so that they are read in constant time.
#[derive(Drop)]
pub struct Verified {
    candidate: Candidate,
    kept: Box<KnownKinds>,
    named: [bool; MAX_MAPS],
    reserves: Vec<u32>,
    lasts: [u32; MAX_MAPS],
}

impl Model for Verified {
    ghost use Rattle.std.specs.Prelude.{◌≡◌, map};
    ghost use Rattle.bpf_decode.specs.Text.{slots_of};
    ghost use Rattle.verifier.specs.Named.{AreNamed};
    ghost use Rattle.verifier.specs.Table.{tight_table};
    ghost use Rattle.verifier.specs.Pass.{kinds_in};
    ghost use Rattle.verifier.specs.Verified.{Accepted, IsVerified};
    ghost use Rattle.verifier.specs.Reserve.{AreReserves};
    ghost use Rattle.verifier.specs.Writes.{AreLastWrites};

    ghost Value = { Accepted };

    ghost view = { λ v. record { subject = v.candidate; table = tight_table v.candidate } };

    ghost invariant = { λ v. record {
      verified : IsVerified (record { subject = v.candidate; table = tight_table v.candidate });
      kept : v.kept.value ≡ map kinds_in (tight_table v.candidate);
      named : AreNamed v.candidate.text (slots_of v.candidate.text) v.named;
      reserved : AreReserves (record { subject = v.candidate; table = tight_table v.candidate }) v.reserves.items;
      written : AreLastWrites (record { subject = v.candidate; table = tight_table v.candidate }) (slots_of v.candidate.text) v.lasts;
    } };
}

/// Whether a context may have so many bytes: 0 to 256, a multiple of 8.
pub fn is_context_size(size: u32) -> bool
    ensures { IsTrue result ↔ IsContextSize size }
{
    size <= MAX_CONTEXT && size % 8 == 0
}

impl Verified {
    /// How many slots the text has, 1 to 4096.
    pub fn slots(&self) -> u32
        ensures { result ≡ slots_of self.now.subject.text }
    {
        self.candidate.slots()
    }

    /// How many instructions the text has, reached or not.
    pub fn instructions(&self) -> u32
        ensures { result ≡ instructions_of self.now.subject.text }
    {
        self.facts();
        self.program().code().len() as u32
    }

    /// The instruction at a slot at which one begins.
    #[inline]
    pub fn insn(&self, slot: u32) -> Insn
        requires { IsInstruction self.now.subject.text slot }
        ensures fields { result ≡ insn_at self.now.subject.text slot }
        ensures dst { result.dst ≤ 10 }
        ensures src { result.src ≤ 10 }
        ensures operation { IsSome (operation_of result.opcode) }
    {
        self.candidate.insn(slot)
    }

    /// The program that was verified.
    #[inline]
    pub fn program(&self) -> &Program
        ensures { result.now ≡ self.now.subject.text }
    {
        self.candidate.program()
    }

    /// What is known of a register at a slot: `None` where nothing is known of it, or where the
    /// slot isn't reached.
    pub fn kind(&self, slot: u32, register: u8) -> Option<Kind>
        requires { register ≤ 10 }
        ensures { result ≡ kind_at self.now.table slot register }
    {
        self.kept.kind(slot, register)
    }

    /// How many frames the rest of a run may need from a slot on. Each slot from there to the end that is
    /// reached adds 1 if it stores through a pointer to a map's value, and 1 or 2 if it updates a map,
    /// by the map's stride; after the end it's 0.
    #[inline]
    pub fn reserve(&self, slot: u32) -> u32
        ensures { result ≡ reserve_from self.now slot }
    {
        match self.reserves.get(slot as usize) {
            Some(reserve) => *reserve,
            None => 0,
        }
    }

    /// Whether the rest of a run may write a map, from a slot on: by a store through a pointer to a value of
    /// the map, or by an update.
    #[inline]
    #[tactic(auto, using(crate::proofs::Written::last_learns))]
    pub fn writes(&self, slot: u32, map: u32) -> bool
        requires { map < 8 }
        ensures { result ≡ writes_from self.now slot map }
    {
        slot < self.lasts[map as usize]
    }

    /// The shapes of the maps that the program may use, by number: eight, of which each is there or
    /// not.
    pub fn shapes(&self) -> &[Option<Shape>]
        ensures { result.now ≡ self.now.subject.shapes }
    {
        self.candidate.shapes()
    }

    /// The bytes of a value of a map that the program may use, and 0 of any other.
    #[inline]
    pub fn value_size(&self, map: u32) -> u32
        ensures { result ≡ value_size_of self.now.subject map }
    {
        self.candidate.value_size(map)
    }

    /// Whether an instruction, reached or not, names a map: it loads the map's name, or an address in
    /// the map's first value. Of the numbers 0 to 7 it is answered in constant time.
    pub fn names(&self, map: u32) -> bool
        ensures { result ≡ names self.now.subject.text map }
    {
        match self.named.get(map as usize) {
            Some(named) => *named,
            None => self.candidate.names(map),
        }
    }

    /// The bytes of the context.
    pub fn ctx_size(&self) -> u32
        ensures { result ≡ self.now.subject.context_size }
    {
        self.candidate.ctx_size()
    }

    /// What holds of each accepted program. The function does nothing.
    pub fn facts(&self)
        ensures { IsVerified self.now }
    {
        let _opened = &self.kept;
    }
}

/// Verifies a program that may use maps of these shapes, by number, and whose context has `ctx_size` bytes. A number without a shape is that of no
/// map. The program is accepted if no slot that is reached breaks a rule. A refusal is the first slot that breaks one, with the smallest number
/// there (`BackJump` to `PointerLeaks`); or `OutOfMemory` at slot 0 for want of memory.
pub fn verify(
    alloc: Global,
    program: Program,
    shapes: &[Option<Shape>],
    ctx_size: u32,
) -> Result<Verified, Refused>
    requires shapes { AreShapes shapes.now }
    requires context { IsContextSize ctx_size }
    ensures subject { IfOk result (λ v. v.subject ≡ record { text = program; shapes = padded shapes.now; context_size = ctx_size }) }
    ensures verified { IfOk result IsVerified }
    ensures refused { IfErr result (λ refused. (refused ≡ out_of_memory)
        ⊎ IsRefusal (record { text = program; shapes = padded shapes.now; context_size = ctx_size }) refused) }
    ensures complete { IfErr result (λ refused. (refused ≡ out_of_memory)
        ⊎ HasNoLawful (record { text = program; shapes = padded shapes.now; context_size = ctx_size })) }
{
    let candidate = Candidate::new(program, shapes, ctx_size);
    let kept = kept_kinds(alloc, &candidate)?;
    let named = candidate.named_maps();
    let lasts = last_writes(&candidate, &kept);
    let Ok(reserves) = reserves(alloc, &candidate, &kept) else {
        return Err(Refused::OUT_OF_MEMORY);
    };
    let Ok(kept) = Box::new(alloc, kept) else {
        return Err(Refused::OUT_OF_MEMORY);
    };
    Ok(Verified {
        candidate,
        kept,
        named,
        reserves,
        lasts,
    })
}
