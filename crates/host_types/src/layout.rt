//! Where a program finds its memory (this project's own rule; docs/INSTRUCTIONS.md): an address is the number
//! of a region and an offset in it.

/// How many addresses a region has.
pub const REGION: u64 = 1 << 32;

/// The number of the context's region.
pub const CONTEXT: u64 = 1;

/// The number of the stack's region.
pub const STACK: u64 = 2;

/// The number of the region that names map 0, which those that name the other maps follow.
pub const MAP_NAMES: u64 = 8;

/// The number of the region of map 0's values, which those of the other maps follow.
pub const MAP_VALUES: u64 = 16;

/// The bytes of the stack.
pub const STACK_SIZE: usize = 512;

/// The first byte of the context, which R1 has at the start.
pub const CONTEXT_BASE: u64 = CONTEXT * REGION;

/// The end of the stack, which R10 has.
pub const STACK_END: u64 = STACK * REGION + STACK_SIZE as u64;
