//! Two passes over the slots of a text, which join what flows to a slot in opposite orders.

use crate::description::Description;
use crate::flow::{Onward, Target, flow};
use crate::given::Given;
use crate::table::{Table, Verdict};
use bpf_decode::Program;
use host_types::{Refused, Shape};
use std::alloc::{AllocError, Global};

/// The order in which what flows to a slot is joined.
#[derive(Clone, Copy, PartialEq, Eq)]
pub enum Order {
    /// From the first slot on, of each first what falls through: each slot hands on what is known after it.
    Forward,
    /// From the last slot back, of each first what jumps: each slot looks back for what flows to it.
    Backward,
}

/// Joins what is known with what flows there.
fn join_into(known: &mut Option<Description>, description: &Description) {
    match known {
        Some(before) => before.join(description),
        None => *known = Some(*description),
    }
}

/// Joins what flows to a target with what is known there.
fn hand_on(table: &mut [Option<Description>], target: &Option<Target>) {
    if let Some(target) = target {
        if let Some(known) = table.get_mut(target.slot as usize) {
            join_into(known, &target.description);
        }
    }
}

/// A table that knows of so many slots only where a program starts.
fn first_table(alloc: Global, slots: u32) -> Result<Vec<Option<Description>>, AllocError> {
    let mut table = Vec::with_capacity(alloc, slots as usize)?;
    table.push(Some(Description::start()))?;
    for _ in 1..slots {
        table.push(None)?;
    }
    Ok(table)
}

/// The answer of a pass in which a slot breaks a rule: the table up to the slot.
fn refused(mut slots: Vec<Option<Description>>, slot: u32, number: u32) -> Verdict {
    slots.truncate(slot as usize + 1);
    Verdict::Refused {
        table: Table { slots },
        refused: Refused { number, slot },
    }
}

/// The pass that hands on.
fn forward(alloc: Global, given: &Given) -> Result<Verdict, AllocError> {
    let mut table = first_table(alloc, given.slots())?;
    for slot in 0..given.slots() {
        let Some(Some(known)) = table.get(slot as usize) else {
            continue;
        };
        match flow(given, slot, known) {
            Ok(onward) => {
                hand_on(table.as_mut_slice(), &onward.next);
                hand_on(table.as_mut_slice(), &onward.jump);
            }
            Err(number) => return Ok(refused(table, slot, number)),
        }
    }
    Ok(Verdict::Accepted(Table { slots: table }))
}

/// Joins a target with what is known at a slot, if it leads there.
fn arrive(known: &mut Option<Description>, slot: u32, target: &Option<Target>) {
    if let Some(target) = target {
        if target.slot == slot {
            join_into(known, &target.description);
        }
    }
}

/// What is known at a slot, by what each of the slots before it leads to: the last one first.
fn looked_back(slot: u32, before: &[Onward]) -> Option<Description> {
    let mut known = None;
    for onward in before.iter().rev() {
        arrive(&mut known, slot, &onward.jump);
        arrive(&mut known, slot, &onward.next);
    }
    if slot == 0 {
        join_into(&mut known, &Description::start());
    }
    known
}

/// Where the instruction at a slot leads, if the slot is reached.
fn flow_from(given: &Given, slot: u32, known: &Option<Description>) -> Result<Onward, u32> {
    match known {
        Some(known) => flow(given, slot, known),
        None => Ok(Onward::NOWHERE),
    }
}

/// The pass that looks back.
fn backward(alloc: Global, given: &Given) -> Result<Verdict, AllocError> {
    let mut table = Vec::with_capacity(alloc, given.slots() as usize)?;
    let mut led = Vec::with_capacity(alloc, given.slots() as usize)?;
    for slot in 0..given.slots() {
        let known = looked_back(slot, &led);
        let onward = flow_from(given, slot, &known);
        table.push(known)?;
        match onward {
            Ok(onward) => led.push(onward)?,
            Err(number) => return Ok(refused(table, slot, number)),
        }
    }
    Ok(Verdict::Accepted(Table { slots: table }))
}

/// Verifies a program that may use maps of these shapes, by number, and whose context has `ctx_size` bytes; a
/// number without a shape is that of no map. What flows to a slot is joined in this order. The error is want of
/// memory.
pub fn verdict_in(
    alloc: Global,
    program: Program,
    shapes: &[Option<Shape>],
    ctx_size: u32,
    order: Order,
) -> Result<Verdict, AllocError> {
    let given = Given {
        program: &program,
        shapes,
        context_size: i128::from(ctx_size),
    };
    match order {
        Order::Forward => forward(alloc, &given),
        Order::Backward => backward(alloc, &given),
    }
}

/// Whether what flows to a target is contained in what a table knows there.
fn contains(table: &Table, target: &Option<Target>) -> bool {
    match target {
        Some(target) => match table.slots.get(target.slot as usize) {
            Some(Some(known)) => target.description.is_below(known),
            _ => false,
        },
        None => true,
    }
}

/// Whether the slot of a table breaks no rule, and leads only to what the table contains.
fn is_kept(given: &Given, table: &Table, slot: u32) -> bool {
    match table.slots.get(slot as usize) {
        Some(Some(known)) => match flow(given, slot, known) {
            Ok(onward) => contains(table, &onward.next) && contains(table, &onward.jump),
            Err(_) => false,
        },
        _ => true,
    }
}

/// Whether a table is lawful for a program, by the order of kinds: it contains the start, and each slot that it
/// knows of breaks no rule and leads only to what it contains.
pub fn is_lawful(
    program: &Program,
    shapes: &[Option<Shape>],
    ctx_size: u32,
    table: &Table,
) -> bool {
    let given = Given {
        program,
        shapes,
        context_size: i128::from(ctx_size),
    };
    let start = Some(Target {
        slot: 0,
        description: Description::start(),
    });
    contains(table, &start) && (0..given.slots()).all(|slot| is_kept(&given, table, slot))
}
