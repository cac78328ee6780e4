//! The limits of what a host has (this project's own; docs/HOST.md), each said once for the code. In the
//! definitions they stand as numbers.

/// The most frames of a memory, the frame of zeros among them.
pub const MAX_FRAMES: u32 = 4096;

/// The most tenants of a memory.
pub const MAX_TENANTS: u32 = 16;

/// How many map numbers a tenant has.
pub const MAX_MAPS: usize = 8;

/// How many entries for programs a tenant has.
pub const MAX_PROGRAMS: usize = 8;

/// The bytes of a page.
pub const PAGE_SIZE: u32 = 4096;

/// The most pages of a map.
pub const MAX_PAGES: usize = 256;

/// The most bytes of a map: 256 pages of 4096 bytes.
pub const MAX_MAP_BYTES: u32 = 1048576;

/// The largest value of a map, in bytes.
pub const MAX_VALUE_SIZE: u32 = 4096;

/// The most elements of a map.
pub const MAX_ENTRIES: u32 = 65536;

/// The most bytes of a program's text: 4096 slots of eight bytes.
pub const MAX_TEXT: usize = 32768;

/// The most bytes of a context.
pub const MAX_CONTEXT: u32 = 256;
