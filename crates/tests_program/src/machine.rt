//! The standard's machine: where it faults, and its maps.

use crate::text::{EXIT, context_of, text_of};
use host_types::Shape;
use reference_machine::{ArrayMap, Ending, Machine};
use std::alloc::{AllocError, Global};
use std::test::Fail;

/// R1 += R1. Four of these lead from the context's address to the values of map 0.
const DOUBLE: u64 = 0x0f110000_00000000;

/// How at most ten steps of a program go; a text that isn't whole slots is cut.
fn run(alloc: Global, machine: &mut Machine, slots: &[u64]) -> Result<Ending, AllocError> {
    let text = text_of(alloc, slots)?;
    if text.len() % 8 != 0 {
        return Ok(Ending::Cut);
    }
    Ok(machine.run(&text, 10))
}

/// How at most ten steps of a program go on a context of two double words, with no maps.
fn run_on(alloc: Global, context: [u64; 2], slots: &[u64]) -> Result<Ending, AllocError> {
    let context = context_of(context).to_vec(alloc)?;
    let mut machine = Machine::start(context, Vec::new(alloc));
    run(alloc, &mut machine, slots)
}

/// Programs of two slots, and the steps after which they fault.
const FAULTS: [([u64; 2], u32); 12] = [
    // R0 isn't set: an exit, a move of it, a load through it.
    ([EXIT, EXIT], 0),
    ([0xbf020000_00000000, EXIT], 0),
    ([0x79000000_00000000, EXIT], 0),
    // The stack's last double word isn't set.
    ([0x79a0f8ff_00000000, EXIT], 0),
    // R10 is written, and a register above it read.
    ([0xb70a0000_01000000, EXIT], 0),
    ([0xbfb00000_00000000, EXIT], 0),
    // The context is written.
    ([0xb7000000_01000000, 0x7b010000_00000000], 1),
    // A load from the context isn't aligned, or isn't whole in it.
    ([0x79100100_00000000, EXIT], 0),
    ([0x79101000_00000000, EXIT], 0),
    ([0x7910f8ff_00000000, EXIT], 0),
    // There is no such opcode.
    ([0xb7000000_01000000, 0x8d000000_00000000], 1),
    // The text ends.
    ([0xb7000000_01000000, 0xb7000000_01000000], 2),
];

#[test]
fn faults(rt: HostRuntime) -> Result<(), Fail> {
    for (text, steps) in FAULTS {
        let ending = run_on(rt.alloc(), [1, 2], &text)?;
        assert!(rt; ending == Ending::Faulted { steps }, "{text:?}");
    }
    Ok(())
}

#[test]
fn stops_within_its_steps(rt: HostRuntime) -> Result<(), Fail> {
    assert!(rt; run_on(rt.alloc(), [0, 0], &[DOUBLE; 11])? == Ending::Cut);
    Ok(())
}

/// A machine with an empty context and a map of one element of eight bytes, the number 41.
fn machine_with_map(alloc: Global) -> Result<Option<Machine>, AllocError> {
    let shape = Shape {
        value_size: 8,
        entries: 1,
    };
    let bytes = 41u64.to_le_bytes().to_vec(alloc)?;
    if !shape.is_valid() || bytes.len() != shape.byte_len() as usize {
        return Ok(None);
    }
    let maps = vec![in alloc; Some(ArrayMap::new(shape, bytes))]?;
    Ok(Some(Machine::start(Vec::new(alloc), maps)))
}

/// How a program goes on the machine with a map, and the number of the map then.
fn run_on_map(alloc: Global, slots: &[u64]) -> Result<Option<(Ending, u64)>, AllocError> {
    let Some(mut machine) = machine_with_map(alloc)? else {
        return Ok(None);
    };
    let ending = run(alloc, &mut machine, slots)?;
    let number = match machine.maps() {
        [Some(map)] => map.bytes().try_into().map(u64::from_le_bytes).unwrap_or(0),
        _ => 0,
    };
    Ok(Some((ending, number)))
}

#[test]
fn reads_and_writes_a_map(rt: HostRuntime) -> Result<(), Fail> {
    // R0 = [R1]; R0 += 1; [R1] = R0
    let text = [
        DOUBLE,
        DOUBLE,
        DOUBLE,
        DOUBLE,
        0x79100000_00000000,
        0x07000000_01000000,
        0x7b010000_00000000,
        EXIT,
    ];
    let exited = Ending::Exited {
        number: 42,
        steps: 8,
    };
    assert!(rt; run_on_map(rt.alloc(), &text)? == Some((exited, 42)));
    Ok(())
}

#[test]
fn faults_outside_a_map(rt: HostRuntime) -> Result<(), Fail> {
    // A load and a store past the element.
    for past in [0x79100800_00000000, 0x7b110800_00000000] {
        let text = [DOUBLE, DOUBLE, DOUBLE, DOUBLE, past];
        let faulted = Ending::Faulted { steps: 4 };
        assert!(rt; run_on_map(rt.alloc(), &text)? == Some((faulted, 41)));
    }
    Ok(())
}
