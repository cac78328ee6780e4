//! What is known at a slot: of each register, and of the stack.

use crate::kind::Kind;

/// What is known of eight aligned bytes of the stack.
#[derive(Clone, Copy, PartialEq, Eq)]
pub(crate) enum StackSlot {
    /// What a double word that was stored is, which is never unset.
    Kept(Kind),
    /// The bytes whose bits are set hold written data.
    Bytes(u8),
}

/// Eight bytes of which none is known to be written.
const NO_BYTES: StackSlot = StackSlot::Bytes(0);

impl StackSlot {
    /// The least slot above two.
    fn join(self, other: StackSlot) -> StackSlot {
        match (self, other) {
            (StackSlot::Kept(a), StackSlot::Kept(b)) => match a.join(b) {
                Kind::Unset => NO_BYTES,
                kind => StackSlot::Kept(kind),
            },
            (StackSlot::Bytes(a), StackSlot::Bytes(b)) => StackSlot::Bytes(a & b),
            (StackSlot::Kept(Kind::Scalar(_)), StackSlot::Bytes(set))
            | (StackSlot::Bytes(set), StackSlot::Kept(Kind::Scalar(_))) => StackSlot::Bytes(set),
            _ => NO_BYTES,
        }
    }

    /// Whether the slot is below another.
    fn is_below(self, other: StackSlot) -> bool {
        match (self, other) {
            (StackSlot::Kept(a), StackSlot::Kept(b)) => a.is_below(b),
            (StackSlot::Kept(Kind::Scalar(_)), StackSlot::Bytes(_)) => true,
            (StackSlot::Kept(_), StackSlot::Bytes(set)) => set == 0,
            (StackSlot::Bytes(a), StackSlot::Bytes(b)) => a & b == b,
            (StackSlot::Bytes(_), StackSlot::Kept(_)) => false,
        }
    }

    /// The slot once it is known what the call at a slot answered.
    fn with_answer(self, slot: u32, answer: Kind) -> StackSlot {
        match self {
            StackSlot::Kept(kind) => StackSlot::Kept(kind.with_answer(slot, answer)),
            StackSlot::Bytes(_) => self,
        }
    }
}

/// What is known at a slot: eleven registers, and 64 slots of the stack, the lowest address first.
#[derive(Clone, Copy, PartialEq, Eq)]
pub(crate) struct Description {
    pub(crate) registers: [Kind; 11],
    pub(crate) stack: [StackSlot; 64],
}

impl Description {
    /// What is known at the start.
    pub(crate) fn start() -> Description {
        let mut registers = [Kind::Unset; 11];
        registers[1] = Kind::Context(0);
        registers[10] = Kind::Stack(0);
        Description {
            registers,
            stack: [NO_BYTES; 64],
        }
    }

    /// What is known of a register.
    pub(crate) fn register(&self, register: u8) -> Kind {
        match self.registers.get(usize::from(register)) {
            Some(kind) => *kind,
            None => Kind::Unset,
        }
    }

    /// Replaces what is known of a register.
    pub(crate) fn set_register(&mut self, register: u8, kind: Kind) {
        if let Some(known) = self.registers.get_mut(usize::from(register)) {
            *known = kind;
        }
    }

    /// What is known of a slot of the stack.
    pub(crate) fn slot(&self, index: usize) -> StackSlot {
        match self.stack.get(index) {
            Some(slot) => *slot,
            None => NO_BYTES,
        }
    }

    /// Replaces what is known of a slot of the stack.
    pub(crate) fn set_slot(&mut self, index: usize, slot: StackSlot) {
        if let Some(known) = self.stack.get_mut(index) {
            *known = slot;
        }
    }

    /// Makes the least description above this one and another of it.
    pub(crate) fn join(&mut self, other: &Description) {
        for register in 0..11 {
            self.registers[register] = self.registers[register].join(other.registers[register]);
        }
        self.join_stack(other);
    }

    /// The same of the stack.
    fn join_stack(&mut self, other: &Description) {
        for index in 0..64 {
            self.stack[index] = self.stack[index].join(other.stack[index]);
        }
    }

    /// Whether the description is below another.
    pub(crate) fn is_below(&self, other: &Description) -> bool {
        (0..11).all(|register| self.register(register).is_below(other.register(register)))
            && (0..64).all(|index| self.slot(index).is_below(other.slot(index)))
    }

    /// Makes it known what the call at a slot answered, of each register and each slot that keeps the answer.
    pub(crate) fn answer(&mut self, slot: u32, answer: Kind) {
        for register in 0..11 {
            self.registers[register] = self.registers[register].with_answer(slot, answer);
        }
        self.answer_stack(slot, answer);
    }

    /// The same of the stack.
    fn answer_stack(&mut self, slot: u32, answer: Kind) {
        for index in 0..64 {
            self.stack[index] = self.stack[index].with_answer(slot, answer);
        }
    }
}
