//! Loads and stores: where they go, and what is known of what they load and of the stack after them.

ghost use Rattle.std.specs.Prelude.{◌≡◌, ◌+◌, ◌-◌, ◌%◌, ◌^◌, ◌<◌, ◌≤◌, pos, ◌+ℤ◌, ◌≤ℤ◌, IfOk, OnOk};
ghost use Rattle.bpf_decode.specs.Opcodes.{byte_count};
ghost use Rattle.verifier_kinds.specs.Kinds.{AreOffsets, IsKind, IsNormal};
ghost use Rattle.verifier_kinds.specs.Descriptions.{IsDescription, IsSlot, number_bytes};
ghost use Rattle.verifier.specs.Flow.{lies_below, aligned, context_offset, stack_offset, begins_in_value, ends_in_value, lies_in_value, is_aligned_in_value, value_access, loaded_range, mask, slot_kind, load_kind, loaded_kind, after_load, name_kind, at_offset, first_value_kind, wide_kind, after_load_immediate, is_number, written_slot, after_stack_store, stored, after_store};
ghost use Rattle.verifier.specs.Successor.{done};

use crate::candidate::Candidate;
use crate::rules::{both, operand_kind, read_kind, write_kind};
use bpf_decode::{Extension, Insn, Size, Source, Width};
use host_types::layout::STACK_SIZE;
use host_types::rule::{
    MISALIGNED, NULL_NOT_CHECKED, OUTSIDE_CONTEXT, OUTSIDE_MAP, OUTSIDE_STACK, POINTER_LEAKS,
    UNKNOWN_MAP, UNSET_STACK, WRONG_KIND,
};
use verifier_kinds::{Align, Description, Kind, OFFSET_BIAS, Offsets, Range, StackSlot};

/// The bytes of a slot of the stack.
pub(crate) const SLOT_SIZE: u64 = 8;

/// The offset of `size` bytes that lie whole between 0 and an end.
pub(crate) fn lies_below(at: i64, size: u64, end: u64, rule: u32) -> Result<u64, u32>
    requires { size ≤ 4096 }
    ensures begin { result ≡ lies_below at size end rule }
    ensures within { IfOk result (λ begin. begin + size ≤ end) }
{
    match u64::try_from(at) {
        Ok(begin) if begin + size <= end => Ok(begin),
        _ => Err(rule),
    }
}

/// The location of an access that is aligned to its size.
pub(crate) fn aligned(at: u64, size: u64) -> Result<u64, u32>
    requires { 0 < size }
    ensures begin { result ≡ aligned at size }
    ensures aligned { IfOk result (λ at. at % size ≡ 0) }
{
    if at % size == 0 {
        Ok(at)
    } else {
        Err(MISALIGNED)
    }
}

/// The location in the context of an access at an offset from its beginning.
fn context_offset(ctx_size: u32, offset: i64, size: u64) -> Result<u64, u32>
    requires some { 0 < size }
    requires word { size ≤ 8 }
    ensures { result ≡ context_offset ctx_size offset size }
{
    let at = lies_below(offset, size, u64::from(ctx_size), OUTSIDE_CONTEXT)?;
    aligned(at, size)
}

/// The location in the stack of an access at an offset from its end.
fn stack_offset(offset: i64, size: u64) -> Result<u64, u32>
    requires near { offset ≤ℤ pos 4294967296 }
    requires some { 0 < size }
    requires word { size ≤ 8 }
    ensures begin { result ≡ stack_offset offset size }
    ensures within { IfOk result (λ at. at < 512) }
    ensures aligned { IfOk result (λ at. at % size ≡ 0) }
{
    let at = lies_below(
        offset + STACK_SIZE as i64,
        size,
        STACK_SIZE as u64,
        OUTSIDE_STACK,
    )?;
    aligned(at, size)
}

/// An offset that an instruction moves on.
fn displaced(offset: i32, by: i16) -> i64
    ensures sum { result ≡ offset +ℤ by }
    ensures near { result ≤ℤ pos 4294967296 }
{
    i64::from(offset) + i64::from(by)
}

/// An access begins in a value, at whichever of its offsets the pointer is.
fn begins_in_value(offsets: Offsets, by: i16) -> bool
    ensures { result ≡ begins_in_value offsets by }
{
    i64::from(OFFSET_BIAS) <= i64::from(offsets.low) + i64::from(by)
}

/// An access ends in a value, at whichever of its offsets the pointer is.
fn ends_in_value(value_size: u32, offsets: Offsets, by: i16, size: u64) -> bool
    requires { size ≤ 8 }
    ensures { result ≡ ends_in_value value_size offsets by size }
{
    (u64::from(offsets.high) + size) as i64 + i64::from(by)
        <= i64::from(OFFSET_BIAS) + i64::from(value_size)
}

/// An access lies whole in a value, at whichever of its offsets the pointer is.
fn lies_in_value(value_size: u32, offsets: Offsets, by: i16, size: u64) -> Result<(), u32>
    requires { size ≤ 8 }
    ensures { result ≡ lies_in_value value_size offsets by size }
{
    if begins_in_value(offsets, by) && ends_in_value(value_size, offsets, by, size) {
        Ok(())
    } else {
        Err(OUTSIDE_MAP)
    }
}

/// An access is aligned to its size, at whichever of its offsets the pointer is.
fn is_aligned_in_value(offsets: Offsets, by: i16, size: u64) -> bool
    requires some { 0 < size }
    requires word { size ≤ 8 }
    ensures { result ≡ is_aligned_in_value offsets by size }
{
    let by = i64::from(by).cast_unsigned() % size;
    if offsets.low == offsets.high {
        (u64::from(offsets.low) + by) % size == 0
    } else {
        offsets.align.factor() % size == 0 && by == 0
    }
}

/// An access through a pointer to a value.
fn value_access(value_size: u32, offsets: Offsets, by: i16, size: u64) -> Result<(), u32>
    requires some { 0 < size }
    requires word { size ≤ 8 }
    ensures { result ≡ value_access value_size offsets by size }
{
    lies_in_value(value_size, offsets, by, size)?;
    if is_aligned_in_value(offsets, by, size) {
        Ok(())
    } else {
        Err(MISALIGNED)
    }
}

/// The numbers that are loaded: with sign extension they are all numbers.
fn loaded_range(size: Size, extension: Extension) -> Range
    ensures range { result ≡ loaded_range size extension }
    ensures normal { IsNormal result }
{
    let high = match (size, extension) {
        (Size::Byte, Extension::Zero) => u64::from(u8::MAX),
        (Size::HalfWord, Extension::Zero) => u64::from(u16::MAX),
        (Size::Word, Extension::Zero) => u64::from(u32::MAX),
        (Size::DoubleWord, Extension::Zero) | (_, Extension::Sign) => u64::MAX,
    };
    Range {
        low: 0,
        high,
        align: Align::One,
    }
}

/// As many low bits as an access has bytes.
const fn low_bits(size: Size) -> u8
    ensures { result ≡ 2 ^ byte_count size - 1 }
{
    match size {
        Size::Byte => 0x01,
        Size::HalfWord => 0x03,
        Size::Word => 0x0f,
        Size::DoubleWord => 0xff,
    }
}

/// The bytes of an access in a slot of the stack, by the bits of a number.
#[tactic(auto, using(crate::proofs::Mask::mask_fit))]
fn mask(at: u64, size: Size) -> u8
    requires { at % byte_count size ≡ 0 }
    ensures { result ≡ mask at size }
{
    low_bits(size) << (at % SLOT_SIZE)
}

/// What is known of bytes of a slot that are loaded. The bytes of a kept pointer aren't read one by
/// one.
fn slot_kind(size: Size, extension: Extension, slot: StackSlot, at: u64) -> Result<Kind, u32>
    requires slot { IsSlot slot }
    requires aligned { at % byte_count size ≡ 0 }
    ensures kind { result ≡ slot_kind size extension slot at }
    ensures fulfils { IfOk result IsKind }
{
    match (size, slot) {
        (Size::DoubleWord, StackSlot::Kept(kind)) => Ok(kind),
        (_, StackSlot::Kept(Kind::Scalar(_))) => Ok(Kind::Scalar(loaded_range(size, extension))),
        (_, StackSlot::Kept(_)) => Err(POINTER_LEAKS),
        (_, StackSlot::Bytes(set)) => {
            let asked = mask(at, size);
            if set & asked == asked {
                Ok(Kind::Scalar(loaded_range(size, extension)))
            } else {
                Err(UNSET_STACK)
            }
        }
    }
}

/// What is known of a number that is loaded through a base.
fn load_kind(
    candidate: &Candidate,
    size: Size,
    extension: Extension,
    insn: &Insn,
    d: &Description,
    base: Kind,
) -> Result<Kind, u32>
    requires description { IsDescription d.now }
    ensures kind { result ≡ load_kind candidate.now size extension insn.now d.now base }
    ensures fulfils { IfOk result IsKind }
{
    let bytes = u64::from(size.bytes());
    match base {
        Kind::Context(k) => {
            context_offset(candidate.ctx_size(), displaced(k, insn.offset), bytes)?;
            Ok(Kind::Scalar(loaded_range(size, extension)))
        }
        Kind::Stack(k) => {
            let at = stack_offset(displaced(k, insn.offset), bytes)?;
            slot_kind(size, extension, d.slot((at / SLOT_SIZE) as usize), at)
        }
        Kind::MapValue { map, offsets } => {
            value_access(candidate.value_size(map), offsets, insn.offset, bytes)?;
            Ok(Kind::Scalar(loaded_range(size, extension)))
        }
        Kind::MaybeValue { .. } => Err(NULL_NOT_CHECKED),
        Kind::Scalar(_) | Kind::MapName(_) => Err(WRONG_KIND),
    }
}

/// What is known of a number that an instruction loads.
fn loaded_kind(
    candidate: &Candidate,
    size: Size,
    extension: Extension,
    insn: &Insn,
    d: &Description,
) -> Result<Kind, u32>
    requires src { insn.now.src ≤ 10 }
    requires description { IsDescription d.now }
    ensures kind { result ≡ loaded_kind candidate.now size extension insn.now d.now }
    ensures fulfils { IfOk result IsKind }
{
    let base = read_kind(d, insn.src)?;
    load_kind(candidate, size, extension, insn, d, base)
}

/// What is known after a load.
#[tactic(auto, unfolding(crate::specs::Flow::after_load))]
pub(crate) fn after_load(
    candidate: &Candidate,
    size: Size,
    extension: Extension,
    insn: &Insn,
    d: &mut Description,
) -> Result<(), u32>
    requires dst { insn.now.dst ≤ 10 }
    requires src { insn.now.src ≤ 10 }
    requires description { IsDescription d.old }
    ensures description { done result d.new ≡ after_load candidate.now size extension insn.now d.old }
    ensures fulfils { OnOk result (IsDescription d.new) }
{
    let kind = loaded_kind(candidate, size, extension, insn, d);
    write_kind(d, insn.dst, kind)
}

/// The name of a map that the program may use.
fn name_kind(candidate: &Candidate, number: i32) -> Result<Kind, u32>
    ensures kind { result ≡ name_kind candidate.now number }
    ensures fulfils { IfOk result IsKind }
{
    match u32::try_from(number) {
        Ok(map) if candidate.has_map(map) => Ok(Kind::MapName(map)),
        _ => Err(UNKNOWN_MAP),
    }
}

/// The one offset of a pointer that is so many bytes after the beginning of an element.
fn at_offset(n: u32) -> Offsets
    requires { n ≤ 4096 }
    ensures offset { result ≡ at_offset n }
    ensures fulfils { AreOffsets result }
{
    let range = Range::constant(u64::from(OFFSET_BIAS) + u64::from(n));
    Offsets {
        low: range.low as u32,
        high: range.high as u32,
        align: range.align,
    }
}

/// The address at an offset in the first value of a map that the program may use. A map always has a
/// first element, so that nothing is left to test.
fn first_value_kind(candidate: &Candidate, number: i32, offset: u32) -> Result<Kind, u32>
    ensures kind { result ≡ first_value_kind candidate.now number offset }
    ensures fulfils { IfOk result IsKind }
{
    match u32::try_from(number) {
        Ok(map) if candidate.has_map(map) => {
            if offset < candidate.value_size(map) {
                let offsets = at_offset(offset);
                Ok(Kind::MapValue { map, offsets })
            } else {
                Err(OUTSIDE_MAP)
            }
        }
        _ => Err(UNKNOWN_MAP),
    }
}

/// What is known of what the wide instruction loads: a number, the name of a map, or an address in
/// its first value.
fn wide_kind(candidate: &Candidate, insn: &Insn) -> Result<Kind, u32>
    ensures kind { result ≡ wide_kind candidate.now insn.now }
    ensures fulfils { IfOk result IsKind }
{
    match insn.src {
        0 => Ok(Kind::Scalar(Range::constant(insn.wide_immediate()))),
        1 => name_kind(candidate, insn.imm),
        _ => first_value_kind(candidate, insn.imm, insn.next_imm),
    }
}

/// What is known after a load of both immediates.
#[tactic(auto, unfolding(crate::specs::Flow::after_load_immediate))]
pub(crate) fn after_load_immediate(
    candidate: &Candidate,
    insn: &Insn,
    d: &mut Description,
) -> Result<(), u32>
    requires dst { insn.now.dst ≤ 10 }
    requires description { IsDescription d.old }
    ensures description { done result d.new ≡ after_load_immediate candidate.now insn.now d.old }
    ensures fulfils { OnOk result (IsDescription d.new) }
{
    write_kind(d, insn.dst, wide_kind(candidate, insn))
}

/// No pointer is given away: not to a map, and not as what the program returns.
pub(crate) fn is_number(kind: Kind) -> Result<(), u32>
    ensures { result ≡ is_number kind }
{
    match kind {
        Kind::Scalar(_) => Ok(()),
        _ => Err(POINTER_LEAKS),
    }
}

/// The bytes of a slot that are known to hold numbers, by the bits of a number: of a kept pointer
/// none.
fn known_mask(slot: StackSlot) -> u8
    ensures { result ≡ number_bytes slot }
{
    match slot {
        StackSlot::Kept(Kind::Scalar(_)) => u8::MAX,
        StackSlot::Kept(_) => 0,
        StackSlot::Bytes(set) => set,
    }
}

/// A slot of the stack with some of its bytes written. A pointer is stored whole alone.
fn written_slot(size: Size, slot: StackSlot, at: u64, kind: Kind) -> Result<StackSlot, u32>
    requires kind { IsKind kind }
    requires aligned { at % byte_count size ≡ 0 }
    ensures slot { result ≡ written_slot size slot at kind }
    ensures fulfils { IfOk result IsSlot }
{
    match (size, kind) {
        (Size::DoubleWord, kind) => Ok(StackSlot::Kept(kind)),
        (_, Kind::Scalar(_)) => Ok(StackSlot::Bytes(known_mask(slot) | mask(at, size))),
        _ => Err(POINTER_LEAKS),
    }
}

/// What is known after a store to the stack at an offset from its end.
fn after_stack_store(size: Size, offset: i64, kind: Kind, d: &mut Description) -> Result<(), u32>
    requires near { offset ≤ℤ pos 4294967296 }
    requires kind { IsKind kind }
    requires description { IsDescription d.old }
    ensures description { done result d.new ≡ after_stack_store size offset kind d.old }
    ensures fulfils { OnOk result (IsDescription d.new) }
{
    let at = stack_offset(offset, u64::from(size.bytes()))?;
    let slot = (at / SLOT_SIZE) as usize;
    let written = written_slot(size, d.slot(slot), at, kind)?;
    d.set_slot(slot, written);
    Ok(())
}

/// What is known after a store of a kind through a base. Nothing is known of what maps hold, and the
/// context is read-only.
fn stored(
    candidate: &Candidate,
    size: Size,
    insn: &Insn,
    d: &mut Description,
    base: Kind,
    kind: Kind,
) -> Result<(), u32>
    requires kind { IsKind kind }
    requires description { IsDescription d.old }
    ensures description { done result d.new ≡ stored candidate.now size insn.now d.old base kind }
    ensures fulfils { OnOk result (IsDescription d.new) }
{
    match base {
        Kind::Stack(k) => after_stack_store(size, displaced(k, insn.offset), kind, d),
        Kind::MapValue { map, offsets } => {
            let bytes = u64::from(size.bytes());
            value_access(candidate.value_size(map), offsets, insn.offset, bytes)?;
            is_number(kind)
        }
        Kind::MaybeValue { .. } => Err(NULL_NOT_CHECKED),
        Kind::Scalar(_) | Kind::Context(_) | Kind::MapName(_) => Err(WRONG_KIND),
    }
}

/// What is known after a store.
#[tactic(auto, unfolding(crate::specs::Flow::after_store))]
pub(crate) fn after_store(
    candidate: &Candidate,
    size: Size,
    source: Source,
    insn: &Insn,
    d: &mut Description,
) -> Result<(), u32>
    requires dst { insn.now.dst ≤ 10 }
    requires src { insn.now.src ≤ 10 }
    requires description { IsDescription d.old }
    ensures description { done result d.new ≡ after_store candidate.now size source insn.now d.old }
    ensures fulfils { OnOk result (IsDescription d.new) }
{
    let operand = operand_kind(Width::Bits64, source, insn, d);
    let (base, kind) = both(read_kind(d, insn.dst), operand)?;
    stored(candidate, size, insn, d, base, kind)
}
