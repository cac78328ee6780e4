//! The text of a function with a copy of the called text at each of its calls.

use crate::call_copy::{CallCopy, size_of};
use crate::copy::copied;
use crate::expansion::{Begins, MOST_SLOTS};
use crate::frame::{Followed, STACK};
use crate::inlined::{Inlined, Origin};
use crate::instruction::Insn;
use crate::liveness::{live, live_after, written};
use crate::order::{Function, Made};
use crate::stop::{NotInlined, Stop};
use std::alloc::Global;

/// A function by its number, and how much of its stack it uses itself.
#[derive(Clone, Copy)]
struct Caller<'a> {
    number: usize,
    function: &'a Function<'a>,
    frame: i16,
}

/// The text of a function, by its number, with a copy of the called text at each call.
pub(crate) fn with_copies(
    alloc: Global,
    number: usize,
    function: &Function<'_>,
    made: &[Option<Made>],
) -> Result<Made, NotInlined> {
    let called = function.called_by_slot(alloc)?;
    let followed = Followed {
        function,
        called: called.as_slice(),
        made,
    };
    let frame = followed.frame(alloc)?;
    let caller = Caller {
        number,
        function,
        frame,
    };
    let copies = caller.copies(alloc, made)?;
    let begins = begins_of(alloc, copies.as_slice())?;
    let whole = caller.whole(alloc, copies.as_slice(), &begins)?;
    Ok(Made {
        whole,
        frame: deepest(frame, copies.as_slice()),
        lent: followed.lent(alloc)?,
    })
}

impl Caller<'_> {
    /// For each slot of the function the copy that stands at its call, if it calls a function.
    fn copies(
        &self,
        alloc: Global,
        made: &[Option<Made>],
    ) -> Result<Vec<Option<CallCopy>>, NotInlined> {
        let text = self.function.text;
        let live = live(alloc, text)?;
        let mut copies = Vec::new(alloc);
        let mut slots: usize = 0;
        let mut is_second = false;
        for slot in 0..text.len() / 8 {
            let Some(insn) = Insn::at(text, slot) else {
                continue;
            };
            let is_call = !is_second && insn.calls_function();
            is_second = insn.is_wide() && !is_second;
            if !is_call {
                copies.push(None)?;
                continue;
            }
            let after = live_after(&insn, slot, live.as_slice());
            let copy = self.copy_at(alloc, slot, after, made)?;
            // The copies alone, of which too many take much memory: `Begins::add` counts all slots.
            slots = slots.saturating_add(copy.copy.slots());
            if slots > MOST_SLOTS {
                return Err(Stop::TooLong.at(slot));
            }
            copies.push(Some(copy))?;
        }
        Ok(copies)
    }

    /// The copy for the call at a slot, after which some registers are read.
    fn copy_at(
        &self,
        alloc: Global,
        slot: usize,
        after: u16,
        made: &[Option<Made>],
    ) -> Result<CallCopy, NotInlined> {
        let Some(called) = self.function.called_at(slot, made) else {
            return Err(Stop::UnknownCall.at(slot));
        };
        let saved = after & written(called.whole.text.as_slice());
        let shift = self.frame.saturating_add(size_of(saved));
        let end = shift.saturating_add(called.frame);
        if end > STACK {
            return Err(Stop::StackSize.at(slot));
        }
        let copy = copied(alloc, &called.whole, shift)?;
        Ok(CallCopy { saved, copy, end })
    }

    /// The whole text, of which each slot begins where it is said.
    fn whole(
        &self,
        alloc: Global,
        copies: &[Option<CallCopy>],
        begins: &Begins,
    ) -> Result<Inlined, NotInlined> {
        let mut whole = Inlined::new(alloc);
        let mut is_second = false;
        for (slot, copy) in copies.iter().enumerate() {
            let Some(insn) = Insn::at(self.function.text, slot) else {
                continue;
            };
            let origin = Origin {
                function: self.number,
                slot,
            };
            let at = whole.slots();
            match copy {
                Some(copy) => copy.push(self.frame, origin, &mut whole)?,
                None if is_second => whole.push(&insn, origin)?,
                None => whole.push(&begins.moved(insn, slot, at)?, origin)?,
            }
            is_second = insn.is_wide() && !is_second;
        }
        Ok(whole)
    }
}

/// Where each slot of a function begins in its text with copies.
fn begins_of(alloc: Global, copies: &[Option<CallCopy>]) -> Result<Begins, NotInlined> {
    let mut begins = Begins::new(alloc);
    for copy in copies {
        begins.add(match copy {
            Some(copy) => copy.slots(),
            None => 1,
        })?;
    }
    Ok(begins)
}

/// How much stack is used by a function, its own or that of a copy.
fn deepest(frame: i16, copies: &[Option<CallCopy>]) -> i16 {
    let mut deepest = frame;
    for copy in copies.iter().flatten() {
        deepest = deepest.max(copy.end);
    }
    deepest
}
