//! How many frames the rest of a run may need, from each slot on.

ghost use Rattle.std.specs.Prelude.{◌≡◌, ◌+◌, map, slice_index_or, None, IfOk, IfSome, option_map, unwrap_or};
ghost use Rattle.host_types.specs.Helpers.{update_charge};
ghost use Rattle.bpf_decode.specs.Opcodes.{operation_of};
ghost use Rattle.bpf_decode.specs.Text.{insn_at, IsInstruction};
ghost use Rattle.verifier_kinds.specs.Kinds.{shape_at};
ghost use Rattle.verifier.specs.Table.{Table, described, tight_table};
ghost use Rattle.verifier.specs.Pass.{kinds_in};
ghost use Rattle.verifier.specs.Reserve.{store_cost, update_cost, call_cost, cost_by, AreReserves};

use crate::candidate::Candidate;
use crate::known::KnownKinds;
use bpf_decode::Operation;
use host_types::MapHelper;
use std::alloc::{AllocError, Global};
use verifier_kinds::Kind;

/// A store through a pointer to a map's value writes to one page.
fn store_cost(base: Option<Kind>) -> u32
    ensures { result ≡ store_cost base }
{
    match base {
        Some(Kind::MapValue { .. }) => 1,
        _ => 0,
    }
}

impl Candidate {
    /// What an update of a map may need; a map that isn't there needs nothing.
    fn map_cost(&self, map: u32) -> u32
        ensures { result ≡ unwrap_or (option_map update_charge (shape_at self.now.shapes map)) 0 }
    {
        match self.shape(map) {
            Some(shape) => shape.update_charge(),
            None => 0,
        }
    }

    /// What an update may need whose first argument has this kind.
    fn update_cost(&self, name: Option<Kind>) -> u32
        ensures { result ≡ update_cost self.now name }
    {
        match name {
            Some(Kind::MapName(map)) => self.map_cost(map),
            _ => 0,
        }
    }

    /// What a call may need: of the helpers only an update writes.
    fn call_cost(&self, helper: Option<MapHelper>, name: Option<Kind>) -> u32
        ensures { result ≡ call_cost self.now helper name }
    {
        match helper {
            Some(MapHelper::Update) => self.update_cost(name),
            _ => 0,
        }
    }

    /// What the instruction at a slot may need; a slot that isn't reached needs nothing.
    fn cost(&self, slot: u32, kept: &KnownKinds) -> u32
        requires { IfSome (slice_index_or kept.now slot None) (λ kinds. IsInstruction self.now.text slot) }
        ensures { (table : Table) → kinds_in (described table slot) ≡ slice_index_or kept.now slot None
            → result ≡ cost_by self.now table slot (operation_of (insn_at self.now.text slot).opcode) }
    {
        if !kept.is_reached(slot) {
            return 0;
        }
        let insn = self.insn(slot);
        match insn.operation() {
            Operation::Store { .. } => store_cost(kept.kind(slot, insn.dst)),
            Operation::Call => self.call_cost(MapHelper::of(insn.immediate()), kept.kind(slot, 1)),
            _ => 0,
        }
    }
}

/// What the rest of a program may need from each slot on, summed from its end.
pub(crate) fn reserves(
    alloc: Global,
    candidate: &Candidate,
    kept: &KnownKinds,
) -> Result<Vec<u32>, AllocError>
    requires { kept.now ≡ map kinds_in (tight_table candidate.now) }
    ensures { IfOk result (λ reserves. AreReserves (record { subject = candidate.now; table = tight_table candidate.now }) reserves.items) }
{
    let slots = candidate.slots();
    let mut reserves = vec![in alloc; 0; slots as usize]?;
    let mut reserve = 0;
    for slot in (0..slots).rev() {
        reserve += candidate.cost(slot, kept);
        reserves[slot as usize] = reserve;
    }
    Ok(reserves)
}
