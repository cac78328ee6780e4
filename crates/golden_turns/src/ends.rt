//! What a turn gives back at its end, for every tenant and whichever seat ends it.

ghost use Rattle.std.specs.Prelude.{◌≡◌, IfOk};
ghost use Rattle.turn.specs.Seats.{IsIdle};

use crate::numbers::{grow, number, tenants, with_numbers};
use crate::print;
use host_types::{Fault, Options};
use page_table::Memory;
use std::alloc::Global;
use std::io;
use std::sync::Wait;
use turn::{HostSeat, ScanSeat, Seat, Turn};

/// Three tenants and ten frames.
pub(crate) struct Three {
    pub(crate) turn: Turn,
    pub(crate) seats: (Seat, Seat, Seat),
    pub(crate) scanner: ScanSeat,
    pub(crate) host: HostSeat,
}

/// Options of which none has its usual value.
const OPTIONS: Options = Options {
    pages_to_scan: 7,
    run: 0,
    use_zero_pages: 1,
    max_page_sharing: 3,
};

pub(crate) fn three_tenants(alloc: Global) -> Result<Three, Fault>
    ensures first { IfOk result (λ three. IsIdle three.turn three.seats.0) }
    ensures second { IfOk result (λ three. IsIdle three.turn three.seats.1) }
    ensures third { IfOk result (λ three. IsIdle three.turn three.seats.2) }
    ensures scanner { IfOk result (λ three. IsIdle three.turn three.scanner) }
    ensures host { IfOk result (λ three. IsIdle three.turn three.host) }
{
    let memory = with_numbers(alloc, 10, 3, OPTIONS)?;
    let (turn, mut seats, scanner, host) = Turn::new(alloc, memory, 3)?;
    let third = seats.remove(2);
    let second = seats.remove(1);
    let first = seats.remove(0);
    Ok(Three {
        turn,
        seats: (first, second, third),
        scanner,
        host,
    })
}

/// The memory after each tenant's number grew and the scanner and the host had a turn, by the seat
/// that ends it. None too where one of these saw another number of tenants.
fn ended_by(rt: &impl Wait, three: Three, ending: u32) -> Option<Memory>
    requires first { IsIdle three.turn three.seats.0 }
    requires second { IsIdle three.turn three.seats.1 }
    requires third { IsIdle three.turn three.seats.2 }
    requires scanner { IsIdle three.turn three.scanner }
    requires host { IsIdle three.turn three.host }
{
    let Three {
        turn,
        seats,
        mut scanner,
        mut host,
    } = three;
    let (mut first, mut second, mut third) = seats;
    grow(rt, &turn, &mut first, 1);
    grow(rt, &turn, &mut second, 12);
    grow(rt, &turn, &mut third, 23);
    let seen = [
        tenants(rt, &turn, &mut scanner),
        tenants(rt, &turn, &mut host),
    ];
    if seen != [3, 3] {
        return None;
    }
    match ending {
        0 => turn.close(first),
        1 => turn.close(second),
        _ => turn.close(third),
    }
}

/// Whether there is a memory with each tenant's number, the options, and as many free frames as before.
fn is_whole(memory: Option<Memory>) -> bool {
    let Some(memory) = memory else {
        return false;
    };
    let numbers = [number(&memory, 0), number(&memory, 1), number(&memory, 2)];
    let is_kept = memory.tenants() == 3 && memory.free() == 6 && memory.options() == OPTIONS;
    is_kept && numbers == [Some(1), Some(12), Some(23)]
}

/// Whether the memory is whole, by the seat that ends the turn.
fn is_whole_by(rt: &(impl Wait + AllocGlobal), ending: u32) -> Result<bool, Fault> {
    let three = three_tenants(rt.alloc())?;
    Ok(is_whole(ended_by(rt, three, ending)))
}

/// A `close` that changes another tenant's part fulfils its contract, as does one that gives nothing to some
/// seats; so every tenant's map is looked at, whichever seat ends the turn.
fn whole(rt: &(impl Wait + AllocGlobal)) -> Result<[bool; 3], Fault> {
    Ok([
        is_whole_by(rt, 0)?,
        is_whole_by(rt, 1)?,
        is_whole_by(rt, 2)?,
    ])
}

/// Whether a new turn's seats are numbered from 0 on, where there is one for so many tenants.
fn is_numbered(alloc: Global, seats: u32) -> Result<bool, Fault> {
    let memory = Memory::new(alloc, 2, 3, OPTIONS)?;
    let (_turn, seats, _scanner, _host) = Turn::new(alloc, memory, seats)?;
    Ok(seats.iter().map(|seat| seat.tenant()).eq(0..3))
}

/// The same of fewer seats than tenants, as many, and more.
fn numbered(rt: &impl AllocGlobal) -> Result<[Result<bool, Fault>; 3], Fault> {
    let alloc = rt.alloc();
    Ok([2, 3, 4].map(|seats| is_numbered(alloc, seats)))
}

pub(crate) fn print_rows(rt: &(impl Print + Wait + AllocGlobal)) -> io::Result<()> {
    print(rt, "every tenant has its map at the end", whole(rt))?;
    print(rt, "a turn has a seat for each tenant", numbered(rt))
}
