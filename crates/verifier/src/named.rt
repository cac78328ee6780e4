//! Which maps a program names.

ghost use Rattle.std.specs.Prelude.{◌≡◌, ℕ, ◌<◌, ◌||◌, false, slice_index_or, IsSome};
ghost use Rattle.bpf_decode.specs.Opcodes.{operation_of};
ghost use Rattle.bpf_decode.specs.Text.{slots_of};
ghost use Rattle.verifier.specs.Named.{map_number, named_by, named_at, is_map, names, AreNamed};

use crate::candidate::Candidate;
use bpf_decode::{Insn, Operation};
use host_types::limits::MAX_MAPS;

/// Whether a slot that may name a map names this one.
fn is_map(named: Option<u32>, map: u32) -> bool
    ensures { result ≡ is_map named map }
{
    match named {
        Some(named) => named == map,
        None => false,
    }
}

/// The map whose number an immediate is.
fn map_number(imm: i32) -> Option<u32>
    ensures { result ≡ map_number imm }
{
    match u32::try_from(imm) {
        Ok(map) => Some(map),
        Err(_) => None,
    }
}

/// The map that an instruction names: by its name, or by an address in its first value.
fn named_by(insn: &Insn) -> Option<u32>
    requires { IsSome (operation_of insn.now.opcode) }
    ensures { result ≡ named_by insn.now }
{
    match (insn.operation(), insn.src) {
        (Operation::LoadImmediate, 1 | 2) => map_number(insn.imm),
        _ => None,
    }
}

/// Sets the flag of a map that is named, if that is one of the numbers 0 to 7.
fn set_flag(flags: &mut [bool; MAX_MAPS], named: Option<u32>)
    ensures { (m : ℕ) → m < 8 → slice_index_or flags.new m false ≡ (slice_index_or flags.old m false || is_map named m) }
{
    if let Some(map) = named {
        if (map as usize) < MAX_MAPS {
            flags[map as usize] = true;
        }
    }
}

impl Candidate {
    /// The map that is named at a slot, reached or not.
    pub(crate) fn named_at(&self, slot: u32) -> Option<u32>
        requires { slot < slots_of self.now.text }
        ensures { result ≡ named_at self.now.text slot }
    {
        if self.begins(slot) {
            named_by(&self.insn(slot))
        } else {
            None
        }
    }

    /// Whether an instruction, reached or not, names a map.
    pub(crate) fn names(&self, map: u32) -> bool
        ensures { result ≡ names self.now.text map }
    {
        let mut named = false;
        for slot in 0..self.slots() {
            let here = is_map(self.named_at(slot), map);
            named |= here;
        }
        named
    }

    /// Of each of the numbers 0 to 7, whether an instruction, reached or not, names that map.
    pub(crate) fn named_maps(&self) -> [bool; MAX_MAPS]
        ensures { AreNamed self.now.text (slots_of self.now.text) result }
    {
        let mut named = [false; MAX_MAPS];
        for slot in 0..self.slots() {
            set_flag(&mut named, self.named_at(slot));
        }
        named
    }
}
