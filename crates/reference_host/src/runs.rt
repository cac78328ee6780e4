//! Runs of the standard's machine, and which bytes of a map its next step writes.

use crate::entries;
use crate::maps::{Maps, PageRange, element_at};
use bpf_decode::{Insn, Operation, Size};
use host_types::MapHelper;
use host_types::layout::{MAP_NAMES, MAP_VALUES, REGION};
use reference_machine::{ArrayMap, Machine, Made};

/// The flag of an update that writes an element that is there or not.
const ANY: u64 = 0;

/// The flag of an update that writes an element that is there.
const EXIST: u64 = 2;

/// An open run: the number of its program, its machine, and how many steps it made.
#[derive(Drop)]
pub(crate) struct PlainRun {
    pub(crate) program: usize,
    pub(crate) machine: Machine,
    pub(crate) steps: u32,
}

/// Bytes of a map that are written, by the pages that they lie in.
#[derive(Clone, Copy, Drop)]
pub(crate) struct Written {
    pub(crate) map: usize,
    pub(crate) range: PageRange,
}

/// The machine where a run begins, with at most eight maps.
pub(crate) fn start(context: Vec<u8>, maps: Maps) -> Option<Machine> {
    if maps.len() > 8 {
        return None;
    }
    Some(Machine::start(context, maps))
}

/// Makes a step of a text; one of no whole slots is a fault.
pub(crate) fn step(machine: &mut Machine, text: &[u8]) -> Made {
    if text.len() % 8 != 0 {
        return Made::Fault;
    }
    machine.step(text)
}

/// What the next step writes to a map, where it is no fault.
pub(crate) fn next_written(machine: &Machine, text: &[u8]) -> Option<Written> {
    let insn = Insn::at(text, machine.slot())?;
    match Operation::of(insn.opcode) {
        Some(Operation::Store { size, .. }) => written_by_store(machine, &insn, size),
        Some(Operation::Call) => written_by_call(machine, &insn),
        _ => None,
    }
}

/// What a store writes: the bytes at its address, where that is in the values of a map.
fn written_by_store(machine: &Machine, insn: &Insn, size: Size) -> Option<Written> {
    let base = machine.register(insn.dst)?;
    let address = base.wrapping_add(i64::from(insn.offset).cast_unsigned());
    let region = address / REGION;
    if region < MAP_VALUES {
        return None;
    }
    Some(Written {
        map: (region - MAP_VALUES) as usize,
        range: PageRange::of((address % REGION) as usize, size.bytes() as usize),
    })
}

/// What an update writes: the value of its element, where the answer is 0.
fn written_by_call(machine: &Machine, insn: &Insn) -> Option<Written> {
    if MapHelper::of(insn.immediate()) != Some(MapHelper::Update) {
        return None;
    }
    let map = (machine.register(1)? / REGION).saturating_sub(MAP_NAMES) as usize;
    let key = machine.fetch(machine.register(2)?, 4)?;
    let flags = machine.register(4)?;
    if flags != ANY && flags != EXIST {
        return None;
    }
    Some(Written {
        map,
        range: range_of(entries::at(machine.maps(), map)?, key)?,
    })
}

/// The pages that the value of an element lies in, if the map has the element.
fn range_of(map: &ArrayMap, key: u64) -> Option<PageRange> {
    let shape = map.shape();
    let key = u32::try_from(key).ok()?;
    if key >= shape.entries {
        return None;
    }
    Some(PageRange::of(element_at(shape, key), shape.value_size as usize))
}
