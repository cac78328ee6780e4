//! Numbers that are drawn out of a few.

use tests_inputs::Draws;

/// One of some bytes.
pub(crate) fn one_of(draws: &mut Draws, choices: &[u8]) -> u8 {
    let count = u32::try_from(choices.len()).unwrap_or(1).max(1);
    match choices.get(draws.below(count) as usize) {
        Some(choice) => *choice,
        None => 0,
    }
}

/// Whether one draw in so many comes out.
pub(crate) fn rarely(draws: &mut Draws, times: u32) -> bool {
    draws.below(times.max(1)) == 0
}

/// A register: mostly one of some, and else any.
pub(crate) fn register_of(draws: &mut Draws, usual: &[u8]) -> u8 {
    if rarely(draws, 24) {
        draws.below(11) as u8
    } else {
        one_of(draws, usual)
    }
}

/// An immediate: mostly a small one or one at an end.
pub(crate) fn immediate(draws: &mut Draws) -> i32 {
    match draws.below(16) {
        0 => -1,
        1 => -8,
        2 => i32::MIN,
        3 => i32::MAX,
        4 => 0,
        5 => 0x38,
        6 => 0x3f,
        7 => draws.below(65_536) as i32,
        8 => draws.below(65_536) as i32 - 32_768,
        _ => draws.below(17) as i32,
    }
}

/// An offset of an access at a register: mostly a multiple of four near 0, below the stack's end.
pub(crate) fn index_offset(draws: &mut Draws, base: u8) -> i16 {
    match draws.below(8) {
        0 => draws.below(40) as i16 - 16,
        1 => -8,
        _ if base == 10 => -4 - draws.below(5) as i16 * 4,
        _ => draws.below(3) as i16 * 4,
    }
}
