//! A text without jumps of another one that it doesn't need.

use crate::emit::{Emitted, bytes_at, directed};
use crate::slots::{begins, jump_from};
use bpf_decode::{Operation, Program};
use std::alloc::{AllocError, Global};

/// A text without jumps of another one that are always taken and lead forward: those to what stands next without them, and those that
/// only a comparison before them passes over, which is negated in their stead.
#[derive(Drop)]
pub struct Shorter {
    pub text: Vec<u8>,
    /// The slot of the original for which each slot stands.
    pub origins: Vec<u16>,
    /// Where each slot of the text with the jumps went: for such a jump the slot to which it led.
    pub new_slots: Vec<u16>,
}

impl Shorter {
    /// Leaves out such jumps of a text that was written, a program.
    pub fn of(alloc: Global, emitted: &Emitted, program: &Program) -> Result<Shorter, AllocError> {
        let staying = Staying::of(alloc, program)?;
        let mut shorter = Shorter {
            text: Vec::new(alloc),
            origins: Vec::new(alloc),
            new_slots: staying.new_slots(alloc)?,
        };
        for slot in 0..program.slots() {
            if staying.stays(slot) {
                let origin = emitted.origins.get(slot as usize).copied();
                let bytes = shorter.bytes(emitted.text.as_slice(), program, slot);
                shorter.text.extend_from_slice(&bytes)?;
                shorter.origins.push(origin.unwrap_or(0))?;
            }
        }
        Ok(shorter)
    }

    /// The bytes of a slot, whose jump leads to the same instruction as before. A comparison that passed over a jump that is left out
    /// is negated, and leads where that jump led.
    fn bytes(&self, text: &[u8], program: &Program, slot: u32) -> [u8; 8] {
        let bytes = bytes_at(text, (slot & 0xffff) as u16);
        let next = slot.wrapping_add(1);
        if is_passed_over(program, next) {
            return directed(negated(bytes), self.new_slot(slot), self.new_slot(next));
        }
        match target(program, slot) {
            Some(to) => directed(bytes, self.new_slot(slot), self.new_slot(to)),
            None => bytes,
        }
    }

    /// Where a slot went.
    fn new_slot(&self, slot: u32) -> u16 {
        at(&self.new_slots, slot)
    }
}

/// Which slots of a program stay.
#[derive(Drop)]
struct Staying {
    /// For each slot and the end of the text the slot itself, if it stays, or else the one to which its jump leads in the end.
    ends: Vec<u16>,
    /// For each of these the first slot that stays, from there on.
    nexts: Vec<u16>,
}

impl Staying {
    /// Those of a program, found from its end on, since jumps that are left out lead forward.
    fn of(alloc: Global, program: &Program) -> Result<Staying, AllocError> {
        let count = program.slots().wrapping_add(1);
        let mut staying = Staying {
            ends: vec![in alloc; 0; count as usize]?,
            nexts: vec![in alloc; 0; count as usize]?,
        };
        for slot in (0..count).rev() {
            staying.find(program, slot);
        }
        Ok(staying)
    }

    /// Finds out whether a slot stays, if that is known of those after it.
    fn find(&mut self, program: &Program, slot: u32) {
        let own = (slot & 0xffff) as u16;
        let next = at(&self.nexts, slot.wrapping_add(1));
        let (end, next) = match goto_ahead(program, slot) {
            Some(to) if at(&self.ends, to) == next || is_passed_over(program, slot) => {
                (at(&self.ends, to), next)
            }
            _ => (own, own),
        };
        set(&mut self.ends, slot, end);
        set(&mut self.nexts, slot, next);
    }

    /// Whether a slot stays.
    fn stays(&self, slot: u32) -> bool {
        u32::from(at(&self.ends, slot)) == slot
    }

    /// Where each slot of the program goes.
    fn new_slots(&self, alloc: Global) -> Result<Vec<u16>, AllocError> {
        let before = self.before(alloc)?;
        let mut slots = Vec::new(alloc);
        for end in self.ends.iter() {
            slots.push(at(&before, u32::from(*end)))?;
        }
        let _end = slots.pop();
        Ok(slots)
    }

    /// How many slots before each slot stay.
    fn before(&self, alloc: Global) -> Result<Vec<u16>, AllocError> {
        let mut before = Vec::new(alloc);
        let mut count: u16 = 0;
        for (slot, end) in self.ends.iter().enumerate() {
            before.push(count)?;
            if usize::from(*end) == slot {
                count = count.wrapping_add(1);
            }
        }
        Ok(before)
    }
}

/// The number of a slot in a list.
fn at(slots: &[u16], slot: u32) -> u16 {
    match slots.get(slot as usize) {
        Some(number) => *number,
        None => 0,
    }
}

/// Sets the number of a slot in a list.
fn set(slots: &mut [u16], slot: u32, number: u16) {
    if let Some(place) = slots.get_mut(slot as usize) {
        *place = number;
    }
}

/// The slot to which a jump at a slot leads that is always taken, if it leads forward.
fn goto_ahead(program: &Program, slot: u32) -> Option<u32> {
    if !is_goto(program, slot) {
        return None;
    }
    match target(program, slot) {
        Some(to) if to > slot && begins(program, to) => Some(to),
        _ => None,
    }
}

/// Whether a jump that is always taken stands at a slot and leads forward, and a comparison before it passes over it that has a negation.
fn is_passed_over(program: &Program, slot: u32) -> bool {
    slot > 0
        && goto_ahead(program, slot).is_some()
        && has_negation(program, slot.wrapping_sub(1))
        && target(program, slot.wrapping_sub(1)) == Some(slot.wrapping_add(1))
}

/// Whether a jump that is always taken stands at a slot.
fn is_goto(program: &Program, slot: u32) -> bool {
    begins(program, slot)
        && matches!(
            Operation::of(program.insn(slot).opcode),
            Some(Operation::Jump { .. })
        )
}

/// Whether a comparison stands at a slot that has a negation.
fn has_negation(program: &Program, slot: u32) -> bool {
    begins(program, slot)
        && matches!(
            Operation::of(program.insn(slot).opcode),
            Some(Operation::Branch { .. })
        )
        && negation(program.insn(slot).opcode).is_some()
}

/// A conditional jump with the negated comparison.
fn negated(bytes: [u8; 8]) -> [u8; 8] {
    let [opcode, registers, low, high, third, fourth, fifth, sixth] = bytes;
    match negation(opcode) {
        Some(opcode) => [opcode, registers, low, high, third, fourth, fifth, sixth],
        None => bytes,
    }
}

/// The opcode with the negation of a comparison (RFC 9669, section 4.3: JEQ and JNE, JGT and JLE, JGE and JLT, and the last two of
/// numbers with a sign), if there is one.
fn negation(opcode: u8) -> Option<u8> {
    let code = match opcode & 0xf0 {
        0x10 => 0x50,
        0x50 => 0x10,
        0x20 => 0xb0,
        0xb0 => 0x20,
        0x30 => 0xa0,
        0xa0 => 0x30,
        0x60 => 0xd0,
        0xd0 => 0x60,
        0x70 => 0xc0,
        0xc0 => 0x70,
        _ => return None,
    };
    Some(opcode & 0x0f | code)
}

/// The slot to which an instruction may jump, if one begins at a slot.
fn target(program: &Program, slot: u32) -> Option<u32> {
    if begins(program, slot) {
        jump_from(program, slot)
    } else {
        None
    }
}
