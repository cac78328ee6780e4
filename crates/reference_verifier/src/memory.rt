//! Loads and stores, and what they leave known of the stack.

use crate::access::{Reached, ask_access};
use crate::description::{Description, StackSlot};
use crate::given::Given;
use crate::kind::Kind;
use crate::range::{DOUBLE_WORD, Range};
use crate::rules::Rules;
use crate::scalars::{immediate, power_of_2};
use bpf_decode::{Extension, Insn, Size, Source, Width};
use host_types::rule::{POINTER_LEAKS, UNSET_STACK, WRONG_KIND};

/// The bits that stand for the bytes of a stack slot, the lowest address first.
pub(crate) const BYTES: [u8; 8] = [1, 2, 4, 8, 16, 32, 64, 128];

/// Any number of so many bytes.
fn number_of_bytes(size: i128) -> Kind {
    let modulus = power_of_2(size.saturating_mul(8)).min(DOUBLE_WORD);
    Kind::Scalar(Range::full(modulus, 1))
}

/// The set of `size` bytes of a stack slot from one on.
fn bytes_from(first: usize, size: i128) -> u8 {
    let mut set = 0;
    for byte in 0..8 {
        if first <= byte
            && i128::from(byte as u64) < i128::from(first as u64).saturating_add(size)
        {
            set |= BYTES[byte];
        }
    }
    set
}

/// What a load from the stack gives.
fn loaded_from_stack(known: &Description, begin: usize, size: i128, rules: &mut Rules) -> Kind {
    match known.slot(begin / 8) {
        StackSlot::Kept(kind) if size == 8 => kind,
        StackSlot::Kept(Kind::Scalar(_)) => number_of_bytes(size),
        StackSlot::Kept(_) => {
            rules.broken(POINTER_LEAKS);
            Kind::Unset
        }
        StackSlot::Bytes(set) => {
            let read = bytes_from(begin % 8, size);
            rules.ask(set & read == read, UNSET_STACK);
            number_of_bytes(size)
        }
    }
}

/// What is known after a load.
pub(crate) fn load(
    given: &Given,
    size: Size,
    extension: Extension,
    insn: &Insn,
    known: &mut Description,
    rules: &mut Rules,
) {
    let size = i128::from(size.bytes());
    let base = rules.read(known, insn.src);
    rules.write(insn.dst);
    let loaded = match ask_access(given, base, insn.offset, size, rules) {
        Reached::Stack(begin) => loaded_from_stack(known, begin, size, rules),
        _ => number_of_bytes(size),
    };
    let kind = match extension {
        Extension::Zero => loaded,
        Extension::Sign => Kind::any_number(),
    };
    known.set_register(insn.dst, kind);
}

/// What a store to a stack slot leaves of it.
fn stored_in_slot(before: StackSlot, first: usize, size: i128) -> StackSlot {
    let written = bytes_from(first, size);
    match before {
        StackSlot::Bytes(set) => StackSlot::Bytes(set | written),
        StackSlot::Kept(Kind::Scalar(_)) => StackSlot::Bytes(255),
        StackSlot::Kept(_) => StackSlot::Bytes(written),
    }
}

/// Stores a kind to the stack.
fn store_to_stack(
    known: &mut Description,
    begin: usize,
    size: i128,
    kind: Kind,
    rules: &mut Rules,
) {
    if size == 8 {
        known.set_slot(begin / 8, StackSlot::Kept(kind));
    } else {
        rules.ask(!kind.is_pointer(), POINTER_LEAKS);
        let slot = stored_in_slot(known.slot(begin / 8), begin % 8, size);
        known.set_slot(begin / 8, slot);
    }
}

/// What is known after a store.
pub(crate) fn store(
    given: &Given,
    size: Size,
    source: Source,
    insn: &Insn,
    known: &mut Description,
    rules: &mut Rules,
) {
    let size = i128::from(size.bytes());
    let base = rules.read(known, insn.dst);
    let kind = match source {
        Source::Immediate => Kind::constant(immediate(insn.imm, Width::Bits64)),
        Source::Register => rules.read(known, insn.src),
    };
    match ask_access(given, base, insn.offset, size, rules) {
        Reached::Context => rules.broken(WRONG_KIND),
        Reached::Stack(begin) => store_to_stack(known, begin, size, kind, rules),
        Reached::Value => rules.ask(!kind.is_pointer(), POINTER_LEAKS),
        Reached::Nothing => {}
    }
}
