//! Which maps the rest of a run may write, from each slot on.

ghost use Rattle.std.specs.Prelude.{◌≡◌, ℕ, ◌<◌, map, slice_index_or, None, if◌then◌else◌, IfSome};
ghost use Rattle.bpf_decode.specs.Opcodes.{operation_of};
ghost use Rattle.bpf_decode.specs.Text.{insn_at, slots_of, IsInstruction};
ghost use Rattle.verifier.specs.Named.{is_map};
ghost use Rattle.verifier.specs.Pass.{kinds_in};
ghost use Rattle.verifier.specs.Table.{Table, described, tight_table};
ghost use Rattle.verifier.specs.Writes.{store_map, update_map, call_map, map_by, AreLastWrites};

use crate::candidate::Candidate;
use crate::known::KnownKinds;
use bpf_decode::Operation;
use host_types::limits::MAX_MAPS;
use host_types::{MapHelper, MapNo};
use verifier_kinds::Kind;

/// The map that a store through a base writes.
fn store_map(base: Option<Kind>) -> Option<MapNo>
    ensures { result ≡ store_map base }
{
    match base {
        Some(Kind::MapValue { map, .. }) => Some(map),
        _ => None,
    }
}

/// The map that an update writes whose first argument has this kind.
fn update_map(name: Option<Kind>) -> Option<MapNo>
    ensures { result ≡ update_map name }
{
    match name {
        Some(Kind::MapName(map)) => Some(map),
        _ => None,
    }
}

/// The map that a call writes: of the helpers only an update writes.
fn call_map(helper: Option<MapHelper>, name: Option<Kind>) -> Option<MapNo>
    ensures { result ≡ call_map helper name }
{
    match helper {
        Some(MapHelper::Update) => update_map(name),
        _ => None,
    }
}

impl Candidate {
    /// The map that the instruction at a slot writes; one that isn't reached writes none.
    fn written_map(&self, slot: u32, kept: &KnownKinds) -> Option<MapNo>
        requires { IfSome (slice_index_or kept.now slot None) (λ kinds. IsInstruction self.now.text slot) }
        ensures { (table : Table) → kinds_in (described table slot) ≡ slice_index_or kept.now slot None
            → result ≡ map_by self.now table slot (operation_of (insn_at self.now.text slot).opcode) }
    {
        if !kept.is_reached(slot) {
            return None;
        }
        let insn = self.insn(slot);
        match insn.operation() {
            Operation::Store { .. } => store_map(kept.kind(slot, insn.dst)),
            Operation::Call => call_map(MapHelper::of(insn.immediate()), kept.kind(slot, 1)),
            _ => None,
        }
    }
}

/// Notes of a map that is written, if that is one of the numbers 0 to 7, the end up to which it is.
fn note(lasts: &mut [u32; MAX_MAPS], written: Option<MapNo>, end: u32)
    ensures { (m : ℕ) → m < 8 → slice_index_or lasts.new m 0 ≡ (if is_map written m then end else slice_index_or lasts.old m 0) }
{
    if let Some(map) = written {
        if (map as usize) < MAX_MAPS {
            lasts[map as usize] = end;
        }
    }
}

/// For each map one more than the last slot that writes it, and 0 where none does.
pub(crate) fn last_writes(candidate: &Candidate, kept: &KnownKinds) -> [u32; MAX_MAPS]
    requires { kept.now ≡ map kinds_in (tight_table candidate.now) }
    ensures { AreLastWrites (record { subject = candidate.now; table = tight_table candidate.now }) (slots_of candidate.now.text) result }
{
    let slots = candidate.slots();
    let mut lasts = [0; MAX_MAPS];
    for slot in 0..slots {
        let written = candidate.written_map(slot, kept);
        note(&mut lasts, written, slot + 1);
    }
    lasts
}
