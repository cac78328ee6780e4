//! Functions in the order in which copies of them are made: each after those that it calls.

use crate::caller::with_copies;
use crate::frame::Lent;
use crate::inlined::Inlined;
use crate::stop::{NotInlined, Stop};
use std::alloc::Global;

/// A function: its text, and which function each of its calls calls.
#[derive(Clone, Copy)]
pub struct Function<'a> {
    pub text: &'a [u8],
    pub calls: &'a [Call],
}

/// A call at a slot, of the function with a number.
#[derive(Clone, Copy)]
pub struct Call {
    pub slot: usize,
    pub function: usize,
}

impl Function<'_> {
    /// The text that is called at a slot, if it is made.
    pub(crate) fn called_at<'m>(&self, slot: usize, made: &'m [Option<Made>]) -> Option<&'m Made> {
        let call = self.calls.iter().find(|call| call.slot == slot)?;
        match made.get(call.function) {
            Some(Some(called)) => Some(called),
            _ => None,
        }
    }

    /// Which function each slot calls.
    pub(crate) fn called_by_slot(&self, alloc: Global) -> Result<Vec<Option<usize>>, NotInlined> {
        let mut called = Vec::new(alloc);
        for _slot in 0..self.text.len() / 8 {
            called.push(None)?;
        }
        self.note_calls(called.as_mut_slice());
        Ok(called)
    }

    /// Notes at each slot which function it calls.
    fn note_calls(&self, called: &mut [Option<usize>]) {
        for call in self.calls {
            if let Some(noted) = called.get_mut(call.slot) {
                *noted = Some(call.function);
            }
        }
    }
}

/// A text without calls of functions, if it is made, with how much stack it uses, and what it does with each of its arguments.
#[derive(Drop)]
pub(crate) struct Made {
    pub whole: Inlined,
    pub frame: i16,
    pub lent: Vec<Lent>,
}

/// The text of function 0 with a copy of the called function's text at each call.
pub fn with_copies_at_calls(
    alloc: Global,
    functions: &[Function<'_>],
) -> Result<Inlined, NotInlined> {
    let made = all_made(alloc, functions)?;
    let (function, slot) = recursive_call(functions, made.as_slice());
    match made.into_iter().next() {
        Some(Some(first)) => Ok(first.whole),
        _ => Err(NotInlined {
            function,
            slot,
            stop: Stop::Recursion,
        }),
    }
}

/// The texts of functions, where none leads back to itself.
fn all_made(alloc: Global, functions: &[Function<'_>]) -> Result<Vec<Option<Made>>, NotInlined> {
    let mut made = none_made(alloc, functions.len())?;
    for _round in functions {
        make_more(alloc, functions, &mut made)?;
    }
    Ok(made)
}

/// Of so many functions no text yet.
fn none_made(alloc: Global, functions: usize) -> Result<Vec<Option<Made>>, NotInlined> {
    let mut made = Vec::new(alloc);
    for _function in 0..functions {
        made.push(None)?;
    }
    Ok(made)
}

/// Whether the text of a function is made.
fn is_made(made: &[Option<Made>], function: usize) -> bool {
    matches!(made.get(function), Some(Some(_)))
}

/// A call that leads back to its function, by the number of this and its slot, where texts aren't made since there is one. From the
/// first function on, calls of functions whose texts aren't made lead to it in as many steps as there are functions.
fn recursive_call(functions: &[Function<'_>], made: &[Option<Made>]) -> (usize, usize) {
    let mut found = (0, 0);
    let mut number = 0;
    for _step in functions {
        let Some(function) = functions.get(number) else {
            break;
        };
        let unmade = |call: &&Call| !is_made(made, call.function);
        let Some(call) = function.calls.iter().find(unmade) else {
            break;
        };
        found = (number, call.slot);
        number = call.function;
    }
    found
}

/// Makes each text whose calls are of functions whose texts are made.
fn make_more(
    alloc: Global,
    functions: &[Function<'_>],
    made: &mut Vec<Option<Made>>,
) -> Result<(), NotInlined> {
    for (number, function) in functions.iter().enumerate() {
        let calls_unmade = function
            .calls
            .iter()
            .any(|call| !is_made(made.as_slice(), call.function));
        if is_made(made.as_slice(), number) || calls_unmade {
            continue;
        }
        let text = match with_copies(alloc, number, function, made.as_slice()) {
            Ok(text) => text,
            Err(error) => return Err(error.in_function(number)),
        };
        if let Some(slot) = made.get_mut(number) {
            *slot = Some(text);
        }
    }
    Ok(())
}
