//! The rules that a program may break, by the numbers of their refusals. A refusal prints the rule's
//! word (`Refused::name`); docs/VERIFIER.md says what each rule is.

/// The text is empty, too long, or no whole number of slots.
pub const BAD_LENGTH: u32 = 1;

/// The opcode isn't one of the profile.
pub const UNKNOWN_OPCODE: u32 = 2;

/// A field has a value that its instruction doesn't take.
pub const BAD_FIELD: u32 = 3;

/// A register above R10.
pub const BAD_REGISTER: u32 = 4;

/// The text ends before the second slot of a wide instruction.
pub const CUT_WIDE: u32 = 5;

/// A jump leads to its own slot or to one before it.
pub const BACK_JUMP: u32 = 11;

/// A jump leads past the end, or to the second slot of a wide instruction.
pub const JUMP_OUT: u32 = 12;

/// Nothing stands after an instruction that may fall through.
pub const FALLS_OFF: u32 = 13;

/// A register is read of which nothing is known.
pub const UNSET_REGISTER: u32 = 14;

/// A value's kind isn't one that the instruction takes.
pub const WRONG_KIND: u32 = 15;

/// An access that isn't whole in the context, or a pointer to it that is moved too far.
pub const OUTSIDE_CONTEXT: u32 = 16;

/// An access that isn't whole in the stack, or a pointer to it that is moved too far.
pub const OUTSIDE_STACK: u32 = 17;

/// Bytes of the stack are loaded that aren't all known to be written.
pub const UNSET_STACK: u32 = 18;

/// An access that isn't whole in an element of a map.
pub const OUTSIDE_MAP: u32 = 19;

/// The location of an access is no multiple of its size.
pub const MISALIGNED: u32 = 20;

/// A pointer is used that may be null.
pub const NULL_NOT_CHECKED: u32 = 21;

/// R10 is written.
pub const FRAME_WRITTEN: u32 = 22;

/// A helper is called that there isn't.
pub const UNKNOWN_HELPER: u32 = 23;

/// The name of a map that isn't there.
pub const UNKNOWN_MAP: u32 = 24;

/// A pointer would become a number.
pub const POINTER_LEAKS: u32 = 25;
