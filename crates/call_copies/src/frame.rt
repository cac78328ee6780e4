//! How much of its stack a function uses, itself or by a function that it gives an address of its stack.

use crate::instruction::{Class, FRAME_POINTER, Insn};
use crate::liveness::ROUNDS;
use crate::order::{Function, Made};
use crate::stop::{NotInlined, Stop};
use std::alloc::Global;

/// The registers that may hold an address of the stack, R10 aside.
const REGISTERS: usize = 10;

/// The registers that hold arguments.
const ARGUMENTS: [u8; 5] = [1, 2, 3, 4, 5];

/// The bytes of the stack.
pub(crate) const STACK: i16 = 512;

/// A register that holds no address of the stack.
const NONE: i32 = i32::MAX;

/// What addresses are counted from: R10, or what an argument's register holds at the beginning.
#[derive(Clone, Copy, PartialEq, Eq)]
enum Base {
    Frame,
    Argument(u8),
}

/// What a function does with an argument that is an address of its caller's stack.
#[derive(Clone, Copy)]
pub(crate) enum Lent {
    /// It makes and reaches no address that lies further down than `lowest`, which is 0 or less, and returns none that lies further
    /// down than `returned`, both counted from the argument.
    Within { lowest: i32, returned: i32 },
    /// It stores the address, or moves it by a number that isn't constant: how far it goes isn't known.
    Escapes,
}

/// Of each slot of a text, the lowest address that each register may hold, counted from a base.
#[derive(Drop)]
struct Lowest {
    base: Base,
    at: Vec<i32>,
}

impl Lowest {
    fn new(alloc: Global, base: Base, slots: usize) -> Result<Self, NotInlined> {
        let mut at = Vec::new(alloc);
        for _register in 0..slots.saturating_add(1).saturating_mul(REGISTERS) {
            at.push(NONE)?;
        }
        let mut lowest = Lowest { base, at };
        if let Base::Argument(register) = base {
            lowest.lower(0, register, 0);
        }
        Ok(lowest)
    }

    /// The lowest address in a register at a slot.
    fn get(&self, slot: usize, register: u8) -> i32 {
        if register == FRAME_POINTER {
            return if self.base == Base::Frame { 0 } else { NONE };
        }
        let index = slot
            .saturating_mul(REGISTERS)
            .saturating_add(usize::from(register));
        self.at.get(index).copied().unwrap_or(NONE)
    }

    /// Lowers what a register may hold at a slot. Answers whether that is news.
    fn lower(&mut self, slot: usize, register: u8, address: i32) -> bool {
        let index = slot
            .saturating_mul(REGISTERS)
            .saturating_add(usize::from(register));
        match self.at.get_mut(index) {
            Some(known) if address < *known => {
                *known = address;
                true
            }
            _ => false,
        }
    }
}

/// A function whose addresses are followed, which function each of its slots calls, and what those do.
#[derive(Clone, Copy)]
pub(crate) struct Followed<'a> {
    pub function: &'a Function<'a>,
    pub called: &'a [Option<usize>],
    pub made: &'a [Option<Made>],
}

impl Followed<'_> {
    /// The bytes of its stack that the function uses, a multiple of eight: all that it and those that it calls reach by addresses of it.
    pub fn frame(&self, alloc: Global) -> Result<i16, NotInlined> {
        let lowest = self.lowest(alloc, Base::Frame)?;
        let depth = self.used(&lowest)?.unsigned_abs();
        if depth > u32::from(STACK.unsigned_abs()) {
            return Err(Stop::StackSize.at(0));
        }
        Ok(i16::try_from(depth.div_ceil(8) * 8).unwrap_or(STACK))
    }

    /// What the function does with each of its arguments.
    pub fn lent(&self, alloc: Global) -> Result<Vec<Lent>, NotInlined> {
        let mut lent = Vec::new(alloc);
        for register in ARGUMENTS {
            lent.push(self.lent_by(alloc, register)?)?;
        }
        Ok(lent)
    }

    /// What the function does with the argument in a register.
    fn lent_by(&self, alloc: Global, register: u8) -> Result<Lent, NotInlined> {
        match self.within(alloc, register) {
            Ok(lent) => Ok(lent),
            Err(error) => match error.stop {
                Stop::OutOfMemory(_) => Err(error),
                _ => Ok(Lent::Escapes),
            },
        }
    }

    /// How far the function goes from the argument in a register.
    fn within(&self, alloc: Global, register: u8) -> Result<Lent, NotInlined> {
        let lowest = self.lowest(alloc, Base::Argument(register))?;
        Ok(Lent::Within {
            lowest: self.used(&lowest)?,
            returned: self.returned(&lowest),
        })
    }

    fn slots(&self) -> usize {
        self.function.text.len() / 8
    }

    /// The lowest addresses, counted from a base, in each register at each slot.
    fn lowest(&self, alloc: Global, base: Base) -> Result<Lowest, NotInlined> {
        let mut lowest = Lowest::new(alloc, base, self.slots())?;
        for _round in 0..ROUNDS {
            if !self.follow(&mut lowest)? {
                return Ok(lowest);
            }
        }
        Err(Stop::Tangled.at(0))
    }

    /// Follows addresses through each instruction once. Answers whether something was found out.
    fn follow(&self, lowest: &mut Lowest) -> Result<bool, NotInlined> {
        let mut found = false;
        let mut is_second = false;
        for slot in 0..self.slots() {
            let Some(insn) = Insn::at(self.function.text, slot) else {
                continue;
            };
            if is_second {
                is_second = false;
                continue;
            }
            is_second = insn.is_wide();
            for register in 0..REGISTERS as u8 {
                let address = self.after(&insn, slot, register, lowest)?;
                found = flow(&insn, slot, register, address, lowest) || found;
            }
        }
        Ok(found)
    }

    /// The lowest address in a register after an instruction.
    fn after(
        &self,
        insn: &Insn,
        slot: usize,
        register: u8,
        lowest: &Lowest,
    ) -> Result<i32, NotInlined> {
        if !insn.is_call() {
            return after(insn, slot, register, lowest);
        }
        match register {
            0 if insn.calls_function() => Ok(self.answered(slot, lowest)),
            0..=5 => Ok(NONE),
            _ => Ok(lowest.get(slot, register)),
        }
    }

    /// What the function that is called at a slot does with the argument in a register.
    fn lent_at(&self, slot: usize, register: u8) -> Lent {
        let index = usize::from(register).saturating_sub(1);
        match self.made_at(slot) {
            Some(called) => called.lent.get(index).copied().unwrap_or(Lent::Escapes),
            None => Lent::Escapes,
        }
    }

    /// The text that is called at a slot, if it is made.
    fn made_at(&self, slot: usize) -> Option<&Made> {
        let number = self.called.get(slot).copied()??;
        self.made.get(number)?.as_ref()
    }

    /// The lowest address that the function called at a slot may return, of those that it is given.
    fn answered(&self, slot: usize, lowest: &Lowest) -> i32 {
        let mut answered = NONE;
        for register in ARGUMENTS {
            let address = lowest.get(slot, register);
            if address == NONE {
                continue;
            }
            if let Lent::Within { returned, .. } = self.lent_at(slot, register)
                && returned != NONE
            {
                answered = answered.min(address.saturating_add(returned));
            }
        }
        answered
    }

    /// The lowest address that the function reaches or makes, or 0.
    fn used(&self, lowest: &Lowest) -> Result<i32, NotInlined> {
        let mut used: i32 = 0;
        for slot in 0..self.slots() {
            let Some(insn) = Insn::at(self.function.text, slot) else {
                continue;
            };
            used = used.min(lowest_at(&insn, slot, lowest)?);
            if insn.calls_function() {
                used = used.min(self.called_lowest_at(slot, lowest)?);
            }
        }
        Ok(used)
    }

    /// The lowest address that the function called at a slot reaches or makes of those that it is given.
    fn called_lowest_at(&self, slot: usize, lowest: &Lowest) -> Result<i32, NotInlined> {
        let mut found: i32 = 0;
        for register in ARGUMENTS {
            let address = lowest.get(slot, register);
            if address == NONE {
                continue;
            }
            match self.lent_at(slot, register) {
                Lent::Within { lowest, .. } => found = found.min(address.saturating_add(lowest)),
                Lent::Escapes => return Err(Stop::StackAddress.at(slot)),
            }
        }
        Ok(found)
    }

    /// The lowest address that the function returns.
    fn returned(&self, lowest: &Lowest) -> i32 {
        let mut returned = NONE;
        for slot in 0..self.slots() {
            if let Some(insn) = Insn::at(self.function.text, slot)
                && insn.is_exit()
            {
                returned = returned.min(lowest.get(slot, 0));
            }
        }
        returned
    }
}

/// The lowest address in a register after an instruction that calls nothing.
fn after(insn: &Insn, slot: usize, register: u8, lowest: &Lowest) -> Result<i32, NotInlined> {
    let before = lowest.get(slot, register);
    let is_written = matches!(
        insn.class(),
        Class::Immediate | Class::Load | Class::Arithmetic
    );
    if !is_written || insn.dst != register {
        return Ok(before);
    }
    if let Some(from) = insn.copied() {
        return Ok(lowest.get(slot, from));
    }
    if before == NONE || insn.is_copy() {
        return Ok(NONE);
    }
    match insn.moved() {
        Some(by) => match before.checked_add(by) {
            Some(address) if -i32::from(STACK) <= address && address <= i32::from(STACK) => Ok(
                address,
            ),
            _ => Err(Stop::StackAddress.at(slot)),
        },
        None if insn.class() == Class::Arithmetic => Err(Stop::StackAddress.at(slot)),
        None => Ok(NONE),
    }
}

/// Lets an address flow to where an instruction leads. Answers whether that is news.
fn flow(insn: &Insn, slot: usize, register: u8, address: i32, lowest: &mut Lowest) -> bool {
    if insn.is_exit() || address == NONE {
        return false;
    }
    let mut found = false;
    if let Some(target) = insn.target(slot) {
        found = lowest.lower(target, register, address);
    }
    if !insn.is_jump() {
        found = lowest.lower(insn.next(slot), register, address) || found;
    }
    found
}

/// The lowest address of the stack that an instruction reaches or makes itself, or 0.
fn lowest_at(insn: &Insn, slot: usize, lowest: &Lowest) -> Result<i32, NotInlined> {
    if insn.class() == Class::StoreRegister && lowest.get(slot, insn.src) != NONE {
        return Err(Stop::StackAddress.at(slot));
    }
    if let Some(source) = insn.operand()
        && lowest.get(slot, source) != NONE
    {
        return Err(Stop::StackAddress.at(slot));
    }
    let mut found: i32 = 0;
    if let Some(base) = insn.base() {
        let address = lowest.get(slot, base);
        if address != NONE {
            found = address.saturating_add(i32::from(insn.offset));
        }
    }
    for register in 0..REGISTERS as u8 {
        found = found.min(lowest.get(slot, register));
    }
    Ok(found)
}
