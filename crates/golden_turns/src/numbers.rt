//! Memories in which each tenant has a map of one number, and turns that read it or add to it.

ghost use Rattle.std.specs.Prelude.{◌≡◌, ◌<◌, ◌≤◌, ℕ, IfOk, IsTrue, length};
ghost use Rattle.page_table.specs.State.{part, map_bytes};
ghost use Rattle.page_table.specs.Changes.{OtherTenantsUnchanged};
ghost use Rattle.turn.specs.Seats.{IsIdle};
ghost use Rattle.tenant_workers.specs.Runs.{IsResting};

use host_types::{Fault, Options};
use page_table::Memory;
use std::alloc::Global;
use std::sync::Wait;
use turn::{Kind, Seat, SeatOf, Turn};
use write_break::{load, needs, store};

/// A memory in which each tenant has a map of one number, which is 0, and no open run.
#[tactic(auto, using(tenant_workers::proofs::Resting::new_rests, tenant_workers::proofs::Resting::made_rests))]
pub(crate) fn with_numbers(
    alloc: Global,
    frames: u32,
    tenants: u32,
    options: Options,
) -> Result<Memory, Fault>
    ensures { IfOk result (λ memory. (t : ℕ) → t < tenants → IsResting (part memory t)) }
{
    let mut memory = Memory::new(alloc, frames, tenants, options)?;
    for tenant in 0..tenants {
        memory.create_map(tenant, 8, 1, true)?;
    }
    Ok(memory)
}

/// Whether a tenant has a number in its map 0.
fn has_number(memory: &Memory, tenant: u32) -> bool
    ensures { IsTrue result → 8 ≤ length (map_bytes (part memory.now tenant) 0) }
{
    match memory.shape(tenant, 0) {
        Some(shape) => 8 <= shape.byte_len(),
        None => false,
    }
}

/// The number of a tenant's map 0, if there is one.
pub(crate) fn number(memory: &Memory, tenant: u32) -> Option<u64> {
    if !has_number(memory, tenant) {
        return None;
    }
    Some(load(memory, tenant, 0, 0, 8))
}

/// Adds to the number of a tenant's map 0, where there are frames for it.
fn add(memory: &mut Memory, tenant: u32, more: u64)
    ensures others { OtherTenantsUnchanged tenant memory.old memory.new }
    ensures there { length (part memory.new tenant).maps ≡ length (part memory.old tenant).maps }
{
    if !has_number(memory, tenant) {
        return;
    }
    if needs(memory, tenant, 0, 0, 8) > memory.have() {
        return;
    }
    let sum = load(memory, tenant, 0, 0, 8).wrapping_add(more);
    store(memory, tenant, 0, 0, 8, sum);
}

/// A turn in which the number of the seat's tenant grows.
pub(crate) fn grow(rt: &impl Wait, turn: &Turn, seat: &mut Seat, more: u64)
    requires { IsIdle turn.now seat.old }
    ensures { IsIdle turn.now seat.new }
{
    let tenant = seat.tenant();
    let mut held = turn.take(rt, seat);
    add(held.memory_mut(), tenant, more);
    turn.give(seat, held);
}

/// The number of the seat's tenant, in a turn of its own.
pub(crate) fn look(rt: &impl Wait, turn: &Turn, seat: &mut Seat) -> Option<u64>
    requires { IsIdle turn.now seat.old }
    ensures { IsIdle turn.now seat.new }
{
    let tenant = seat.tenant();
    let held = turn.take(rt, seat);
    let number = number(held.memory(), tenant);
    turn.give(seat, held);
    number
}

/// How many tenants the memory has that a seat takes.
pub(crate) fn tenants<K: Kind>(rt: &impl Wait, turn: &Turn, seat: &mut SeatOf<K>) -> u32
    requires { IsIdle turn.now seat.old }
    ensures { IsIdle turn.now seat.new }
{
    let held = turn.take(rt, seat);
    let tenants = held.memory().tenants();
    turn.give(seat, held);
    tenants
}
