//! Calls of helpers: what they read, and what is known after them.

ghost use Rattle.std.specs.Prelude.{◌≡◌, ◌+◌, ◌≤◌, ◌<◌, IfOk, OnOk};
ghost use Rattle.verifier_kinds.specs.Kinds.{IsKind};
ghost use Rattle.verifier_kinds.specs.Descriptions.{IsDescription};
ghost use Rattle.verifier.specs.Flow.{after_call, answer_kind, argument, byte_in_slot, bytes_known, called_map, flags_argument, flags_in, key_argument, name_in, named_map, points, update_arguments, value_argument, without_arguments};
ghost use Rattle.verifier.specs.Successor.{done};

use crate::access::{SLOT_SIZE, aligned, lies_below};
use crate::candidate::Candidate;
use crate::rules::{both, first_of, read_kind};
use bpf_decode::Insn;
use host_types::MapHelper;
use host_types::layout::STACK_SIZE;
use host_types::rule::{
    NULL_NOT_CHECKED, OUTSIDE_CONTEXT, OUTSIDE_STACK, POINTER_LEAKS, UNKNOWN_HELPER, UNSET_STACK,
    WRONG_KIND,
};
use verifier_kinds::{Align, Description, Kind, Range, StackSlot};

/// The bytes of a key.
const KEY_SIZE: u64 = 4;

/// A byte of a slot of the stack is known to hold a part of a number.
fn byte_in_slot(slot: StackSlot, i: u64) -> Result<(), u32>
    requires { i < 8 }
    ensures { result ≡ byte_in_slot slot i }
{
    match slot {
        StackSlot::Kept(Kind::Scalar(_)) => Ok(()),
        StackSlot::Kept(_) => Err(POINTER_LEAKS),
        StackSlot::Bytes(set) => {
            let asked = 1 << i;
            if set & asked == asked {
                Ok(())
            } else {
                Err(UNSET_STACK)
            }
        }
    }
}

/// So are the bytes of the stack from an offset on.
fn bytes_known(d: &Description, at: u64, size: u64) -> Result<(), u32>
    requires { at + size ≤ 512 }
    ensures { result ≡ bytes_known d.now at size }
{
    let mut known = Ok(());
    for i in 0..size {
        let slot = d.slot(((at + i) / SLOT_SIZE) as usize);
        known = first_of(known, byte_in_slot(slot, (at + i) % SLOT_SIZE));
    }
    known
}

/// Bytes that a helper reads: they lie whole in the context or in the stack, at a multiple of `align`,
/// and those of the stack are known to hold numbers.
fn argument(
    candidate: &Candidate,
    d: &Description,
    size: u64,
    align: u64,
    kind: Kind,
) -> Result<(), u32>
    requires size { size ≤ 4096 }
    requires align { 0 < align }
    requires kind { IsKind kind }
    ensures { result ≡ argument candidate.now d.now size align kind }
{
    match kind {
        Kind::Context(k) => {
            let end = u64::from(candidate.ctx_size());
            let at = lies_below(i64::from(k), size, end, OUTSIDE_CONTEXT)?;
            aligned(at, align)?;
            Ok(())
        }
        Kind::Stack(k) => {
            let offset = i64::from(k) + STACK_SIZE as i64;
            let at = lies_below(offset, size, STACK_SIZE as u64, OUTSIDE_STACK)?;
            both(aligned(at, align), bytes_known(d, at, size))?;
            Ok(())
        }
        Kind::MaybeValue { .. } => Err(NULL_NOT_CHECKED),
        _ => Err(WRONG_KIND),
    }
}

/// The same of bytes whose number isn't known.
fn points(kind: Kind) -> Result<(), u32>
    ensures { result ≡ points kind }
{
    match kind {
        Kind::Context(_) | Kind::Stack(_) => Ok(()),
        Kind::MaybeValue { .. } => Err(NULL_NOT_CHECKED),
        _ => Err(WRONG_KIND),
    }
}

/// The map whose name a kind is.
fn name_in(kind: Kind) -> Result<u32, u32>
    ensures { result ≡ name_in kind }
{
    match kind {
        Kind::MapName(map) => Ok(map),
        Kind::MaybeValue { .. } => Err(NULL_NOT_CHECKED),
        _ => Err(WRONG_KIND),
    }
}

/// The flags of an update are a number.
fn flags_in(kind: Kind) -> Result<(), u32>
    ensures { result ≡ flags_in kind }
{
    match kind {
        Kind::Scalar(_) => Ok(()),
        Kind::MaybeValue { .. } => Err(NULL_NOT_CHECKED),
        _ => Err(WRONG_KIND),
    }
}

/// R1 of a helper is the name of a map.
fn named_map(d: &Description) -> Result<u32, u32>
    requires { IsDescription d.now }
    ensures { result ≡ named_map d.now }
{
    name_in(read_kind(d, 1)?)
}

/// R2 is where the four bytes of the key are.
fn key_argument(candidate: &Candidate, d: &Description) -> Result<(), u32>
    requires { IsDescription d.now }
    ensures { result ≡ key_argument candidate.now d.now }
{
    argument(candidate, d, KEY_SIZE, KEY_SIZE, read_kind(d, 2)?)
}

/// R3 of an update is where the value is, of as many bytes as the map's values have.
fn value_argument(candidate: &Candidate, d: &Description, map: Result<u32, u32>) -> Result<(), u32>
    requires { IsDescription d.now }
    ensures { result ≡ value_argument candidate.now d.now map }
{
    let kind = read_kind(d, 3)?;
    match map {
        Ok(map) => argument(candidate, d, u64::from(candidate.value_size(map)), 1, kind),
        Err(_) => points(kind),
    }
}

/// R4 of an update holds its flags.
fn flags_argument(d: &Description) -> Result<(), u32>
    requires { IsDescription d.now }
    ensures { result ≡ flags_argument d.now }
{
    flags_in(read_kind(d, 4)?)
}

/// The arguments after the key, which an update has alone.
fn update_arguments(
    candidate: &Candidate,
    helper: MapHelper,
    d: &Description,
    map: Result<u32, u32>,
) -> Result<(), u32>
    requires description { IsDescription d.now }
    requires map { map ≡ named_map d.now }
    ensures { result ≡ update_arguments candidate.now helper d.now }
{
    match helper {
        MapHelper::Update => first_of(value_argument(candidate, d, map), flags_argument(d)),
        MapHelper::Lookup | MapHelper::Delete => Ok(()),
    }
}

/// The map that a helper is called for, if it may be called.
fn called_map(candidate: &Candidate, helper: MapHelper, d: &Description) -> Result<u32, u32>
    requires { IsDescription d.now }
    ensures { result ≡ called_map candidate.now helper d.now }
{
    let map = named_map(d);
    let others = both(
        key_argument(candidate, d),
        update_arguments(candidate, helper, d, map),
    );
    let (map, _) = both(map, others)?;
    Ok(map)
}

/// What a helper leaves in R0.
fn answer_kind(helper: MapHelper, slot: u32, map: u32) -> Kind
    ensures kind { result ≡ answer_kind helper slot map }
    ensures fulfils { IsKind result }
{
    match helper {
        MapHelper::Lookup => Kind::MaybeValue { map, call: slot },
        MapHelper::Update | MapHelper::Delete => Kind::Scalar(Range::full(Align::One)),
    }
}

/// After a call nothing is known of R1 to R5.
fn unset_arguments(d: &mut Description)
    ensures unset { d.new ≡ without_arguments d.old }
    ensures fulfils { IsDescription d.old → IsDescription d.new }
{
    d.unset_register(1);
    d.unset_register(2);
    d.unset_register(3);
    d.unset_register(4);
    d.unset_register(5);
}

/// What is known after a call of a helper.
#[tactic(auto, unfolding(crate::specs::Flow::after_call))]
pub(crate) fn after_call(
    candidate: &Candidate,
    slot: u32,
    insn: &Insn,
    d: &mut Description,
) -> Result<(), u32>
    requires description { IsDescription d.old }
    ensures description { done result d.new ≡ after_call candidate.now slot insn.now d.old }
    ensures fulfils { OnOk result (IsDescription d.new) }
{
    let Some(helper) = MapHelper::of(insn.immediate()) else {
        return Err(UNKNOWN_HELPER);
    };
    let map = called_map(candidate, helper, d)?;
    unset_arguments(d);
    d.set_register(0, answer_kind(helper, slot, map));
    Ok(())
}
