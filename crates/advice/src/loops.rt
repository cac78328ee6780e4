//! The loops that jumps close.

use bpf_decode::{Insn, Operation};

/// The most slots of a text.
const SLOTS: usize = 4096;

/// The slots that are reached, and those of them from which edges are still to be followed.
#[derive(Drop)]
struct Reached {
    flags: [bool; SLOTS],
    pending: [usize; SLOTS],
    count: usize,
}

/// The first slot of the loop that the jump at a slot closes: it leads there, to its own slot or back, and a run may come
/// from there to the jump again, by the instructions alone. What values the registers have isn't asked.
pub fn loop_closed(text: &[u8], slot: u32) -> Option<u32> {
    let jump = usize::try_from(slot).ok()?;
    let [_, target] = leads_from(text, jump);
    let first = u32::try_from(target?).ok()?;
    if first <= slot && leads_to(text, target?, jump) {
        Some(first)
    } else {
        None
    }
}

/// Whether a run may come from a slot to another one, by the instructions alone.
fn leads_to(text: &[u8], from: usize, to: usize) -> bool {
    let mut reached = Reached {
        flags: [false; SLOTS],
        pending: [0; SLOTS],
        count: 0,
    };
    reached.note(Some(from));
    for _ in 0..SLOTS {
        let Some(slot) = reached.next() else {
            return false;
        };
        if slot == to {
            return true;
        }
        let [next, jump] = leads_from(text, slot);
        reached.note(next);
        reached.note(jump);
    }
    false
}

impl Reached {
    /// Notes that a slot is reached, if there is one and it wasn't reached before.
    fn note(&mut self, slot: Option<usize>) {
        let Some(slot) = slot else {
            return;
        };
        let Some(flag) = self.flags.get_mut(slot) else {
            return;
        };
        if *flag {
            return;
        }
        *flag = true;
        if let Some(pending) = self.pending.get_mut(self.count) {
            *pending = slot;
            self.count = self.count.saturating_add(1);
        }
    }

    /// A slot whose edges are to be followed.
    fn next(&mut self) -> Option<usize> {
        self.count = self.count.checked_sub(1)?;
        Some(*self.pending.get(self.count)?)
    }
}

/// The slots to which the instruction at a slot leads: the one after it, and that of its jump.
fn leads_from(text: &[u8], slot: usize) -> [Option<usize>; 2] {
    let Some(insn) = Insn::at(text, slot) else {
        return [None, None];
    };
    let after = slot.saturating_add(if insn.slots() == 2 { 2 } else { 1 });
    match Operation::of(insn.opcode) {
        None | Some(Operation::Exit) => [None, None],
        Some(Operation::Jump { distance }) => [None, slot_from(after, insn.distance(distance))],
        Some(Operation::Branch { .. }) => [Some(after), slot_from(after, i32::from(insn.offset))],
        Some(_) => [Some(after), None],
    }
}

/// The slot at a distance from a slot, if it is no number below 0.
fn slot_from(slot: usize, distance: i32) -> Option<usize> {
    let slot = i64::try_from(slot).ok()?;
    usize::try_from(slot.saturating_add(i64::from(distance))).ok()
}
