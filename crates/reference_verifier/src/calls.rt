//! Calls of helpers, and the exit.

use crate::access::{lies_within, stack_offset};
use crate::description::{Description, StackSlot};
use crate::given::Given;
use crate::kind::Kind;
use crate::memory::BYTES;
use crate::range::remainder;
use crate::rules::Rules;
use bpf_decode::Insn;
use host_types::rule::{
    MISALIGNED, OUTSIDE_CONTEXT, OUTSIDE_STACK, POINTER_LEAKS, UNKNOWN_HELPER, UNSET_STACK,
};

/// The helper that looks an element up.
const LOOKUP: i32 = 1;

/// The helper that writes an element.
const UPDATE: i32 = 2;

/// The helper that would delete an element.
const DELETE: i32 = 3;

/// Asks whether a byte of the stack is known as one of a number.
fn ask_byte(known: &Description, begin: usize, rules: &mut Rules) {
    match known.slot(begin / 8) {
        StackSlot::Kept(Kind::Scalar(_)) => {}
        StackSlot::Kept(_) => rules.broken(POINTER_LEAKS),
        StackSlot::Bytes(set) => rules.ask(set & BYTES[begin % 8] != 0, UNSET_STACK),
    }
}

/// Asks whether bytes of the stack lie in it, and are known as bytes of numbers.
fn ask_stack(known: &Description, offset: i128, size: i128, rules: &mut Rules) {
    if !lies_within(offset, size, -512, 0) {
        rules.broken(OUTSIDE_STACK);
        return;
    }
    let first = stack_offset(offset);
    for begin in 0..512usize {
        if first <= begin && begin < first.saturating_add(usize::try_from(size).unwrap_or(0)) {
            ask_byte(known, begin, rules);
        }
    }
}

/// Asks whether the bytes at an address may be read.
fn ask_bytes(given: &Given, known: &Description, address: Kind, size: i128, rules: &mut Rules) {
    match address {
        Kind::Context(offset) => rules.ask(
            lies_within(offset, size, 0, given.context_size),
            OUTSIDE_CONTEXT,
        ),
        Kind::Stack(offset) => ask_stack(known, offset, size, rules),
        _ => {}
    }
}

/// An argument that is an address of bytes.
fn address_in(known: &Description, register: u8, rules: &mut Rules) -> Kind {
    let kind = rules.read(known, register);
    match kind {
        Kind::Context(_) | Kind::Stack(_) => {}
        _ => rules.wrong(kind),
    }
    kind
}

/// Asks for the four aligned bytes of a key.
fn ask_key(given: &Given, known: &Description, rules: &mut Rules) {
    let key = address_in(known, 2, rules);
    match key {
        Kind::Context(offset) => rules.ask(remainder(offset, 4) == 0, MISALIGNED),
        Kind::Stack(offset) => rules.ask(remainder(offset, 4) == 0, MISALIGNED),
        _ => {}
    }
    ask_bytes(given, known, key, 4, rules);
}

/// The map that the first argument names.
fn map_in(known: &Description, rules: &mut Rules) -> Option<u32> {
    match rules.read(known, 1) {
        Kind::MapName(map) => Some(map),
        kind => {
            rules.wrong(kind);
            None
        }
    }
}

/// Asks for the bytes of a value and for flags. The bytes are asked only where a map is named.
fn ask_update(given: &Given, known: &Description, map: Option<u32>, rules: &mut Rules) {
    let value = address_in(known, 3, rules);
    if let Some(map) = map {
        let size = given.value_size(map).unwrap_or(0);
        ask_bytes(given, known, value, size, rules);
    }
    let flags = rules.read(known, 4);
    if flags.is_pointer() {
        rules.wrong(flags);
    }
}

/// What is known after a call.
pub(crate) fn call(
    given: &Given,
    slot: u32,
    insn: &Insn,
    known: &mut Description,
    rules: &mut Rules,
) {
    if !matches!(insn.imm, LOOKUP | UPDATE | DELETE) {
        rules.broken(UNKNOWN_HELPER);
        return;
    }
    let map = map_in(known, rules);
    ask_key(given, known, rules);
    if insn.imm == UPDATE {
        ask_update(given, known, map, rules);
    }
    let answer = match map {
        Some(map) if insn.imm == LOOKUP => Kind::MaybeValue { map, call: slot },
        _ => Kind::any_number(),
    };
    known.set_register(0, answer);
    for register in 1..6 {
        known.set_register(register, Kind::Unset);
    }
}

/// Asks whether what a program returns is a number.
pub(crate) fn exit(known: &Description, rules: &mut Rules) {
    let answer = rules.read(known, 0);
    rules.ask(!answer.is_pointer(), POINTER_LEAKS);
}
