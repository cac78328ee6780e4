//! The groups in the order in which they came to be.
ghost use Rattle.std.specs.Prelude.{◌≡◌, ◌+◌, ◌*◌, ◌<◌, ◌≤◌, ◌==◌, ◌++◌, ◌∷◌, [], not, filter, length, slice_index_or, IfOk, AllPairs, All, ◌≢◌, ℕ, vec_capacity};
ghost use Rattle.page_table.specs.Table.{GroupsState, AreNumbered, groups_in, times};

use std::alloc::{AllocError, Global};
use std::marker::Model;

/// What stands in place of a group that ended: the zero frame, which no group has.
const ENDED: u32 = 0;

/// The frames of the groups in order of creation. A group that ends leaves an empty slot, so that no
/// other one moves then; where all slots are used up, the groups move up together.
#[derive(Drop)]
pub(crate) struct GroupOrder {
    /// With room for twice as many as there are frames.
    slots: Vec<u32>,
    /// By frame the slot of its group.
    slot_of: Vec<u32>,
}

impl Model for GroupOrder {
    ghost use Rattle.std.specs.Prelude.{◌≤◌, ◌*◌, length, vec_capacity};
    ghost use Rattle.page_table.specs.Table.{GroupsState, AreNumbered, groups_in};

    ghost Value = { GroupsState };

    ghost view = { λ order. record { listed = groups_in order.slots.items; frames = length order.slot_of.items } };

    ghost invariant = { λ order. AreNumbered order.slots.items order.slot_of.items
        × (length order.slot_of.items ≤ 4096)
        × (length order.slots.items ≤ length order.slot_of.items * 2)
        × (length order.slot_of.items * 2 ≤ vec_capacity order.slots) };
}

impl GroupOrder {
    /// There is no group.
    pub(crate) fn new(alloc: Global, frames: u32) -> Result<Self, AllocError>
        requires { frames ≤ 4096 }
        ensures { IfOk result (λ order. order ≡ record { listed = []; frames = frames }) }
    {
        let slots = Vec::with_capacity(alloc, frames as usize * 2)?;
        let slot_of = vec![in alloc; 0; frames as usize]?;
        Ok(GroupOrder { slots, slot_of })
    }

    /// Puts a new group after all others. It takes no memory.
    pub(crate) fn push(&mut self, frame: u32)
        requires above { 0 < frame }
        requires there { frame < self.old.frames }
        requires new { times frame self.old.listed ≡ 0 }
        requires room { length self.old.listed < self.old.frames }
        ensures { self.new ≡ record self.old { listed = self.old.listed ++ frame ∷ [] } }
    {
        make_room(&mut self.slots, &mut self.slot_of);
        self.slot_of[frame as usize] = self.slots.len() as u32;
        let pushed = self.slots.push(frame).is_ok();
        prove!(pushed);
    }

    /// Takes out a group. Its slot is found by its frame.
    pub(crate) fn remove(&mut self, frame: u32)
        requires { 1 ≤ times frame self.old.listed }
        ensures { self.new ≡ record self.old { listed = filter (λ group. not (group == frame)) self.old.listed } }
    {
        let slot = self.slot_of[frame as usize];
        self.slots[slot as usize] = ENDED;
    }
}

/// Sees that there is a slot after all others: where there is none, the groups move up into the empty
/// ones.
fn make_room(slots: &mut Vec<u32>, slot_of: &mut [u32])
    requires numbered { AreNumbered slots.old.items slot_of.old }
    requires room { length (groups_in slots.old.items) < length slot_of.old }
    requires few { length slot_of.old ≤ 4096 }
    ensures numbered { AreNumbered slots.new.items slot_of.new }
    ensures listed { groups_in slots.new.items ≡ groups_in slots.old.items }
    ensures room { length slots.new.items < length slot_of.new * 2 }
    ensures frames { length slot_of.new ≡ length slot_of.old }
    ensures capacity { vec_capacity slots.new ≡ vec_capacity slots.old }
{
    if slots.len() < slot_of.len() * 2 {
        return;
    }
    slots.retain(|frame| *frame != ENDED);
    number_all(slots, slot_of);
}

/// Notes the slot of each group.
fn number_all(slots: &[u32], slot_of: &mut [u32])
    requires there { All (λ frame. frame < length slot_of.old) slots.now }
    requires apart { AllPairs (λ frame other. frame ≢ other) slots.now }
    requires few { length slots.now ≤ 4096 }
    ensures numbered { (i : ℕ) → i < length slots.now → slice_index_or slot_of.new (slice_index_or slots.now i 0) 0 ≡ i }
    ensures frames { length slot_of.new ≡ length slot_of.old }
{
    for slot in 0..slots.len() {
        slot_of[slots[slot] as usize] = slot as u32;
    }
}
