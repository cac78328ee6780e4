//! The refusals of a program. Each function has the rules of one kind, and answers `None` for others.

ghost use Rattle.std.specs.Prelude.{◌↔◌, IsSome, IsTrue};
ghost use Rattle.advice.specs.Answered.{is_of_text, is_of_jump, is_of_value, is_of_access, is_of_call};

use crate::Advice;
use host_types::rule::{
    BACK_JUMP, BAD_FIELD, BAD_LENGTH, BAD_REGISTER, CUT_WIDE, FALLS_OFF, FRAME_WRITTEN, JUMP_OUT,
    MISALIGNED, NULL_NOT_CHECKED, OUTSIDE_CONTEXT, OUTSIDE_MAP, OUTSIDE_STACK, POINTER_LEAKS,
    UNKNOWN_HELPER, UNKNOWN_MAP, UNKNOWN_OPCODE, UNSET_REGISTER, UNSET_STACK, WRONG_KIND,
};

/// What is wrong with an instruction alone, or with the text's length.
pub fn on_text(number: u32) -> Option<Advice>
    ensures { IsSome result ↔ IsTrue (is_of_text number) }
{
    let (wrong, fix) = match number {
        BAD_LENGTH => (
            "the program is empty, is longer than 4096 slots, or its length isn't a multiple of \
                eight bytes",
            "give 1 to 4096 whole slots of eight bytes",
        ),
        UNKNOWN_OPCODE => (
            "this opcode isn't supported",
            "use the opcodes of docs/INSTRUCTIONS.md",
        ),
        BAD_FIELD => (
            "a field has an invalid value: an unused field isn't 0, or an offset of DIV, MOD or \
                MOV or a width of END isn't in the table of docs/INSTRUCTIONS.md",
            "set unused fields to 0; use offset 1 for a signed division or modulo, 8, 16 or (64 \
                bits only) 32 for a sign-extending move of a register, and a width of 16, 32 or 64",
        ),
        BAD_REGISTER => ("a register above R10 is used", "use R0 to R10"),
        CUT_WIDE => (
            "a wide instruction, opcode 0x18, begins in the last slot",
            "give both of its slots",
        ),
        _ => return None,
    };
    Some(Advice { wrong, fix })
}

/// Where an instruction may lead.
pub fn on_successor(number: u32) -> Option<Advice>
    ensures { IsSome result ↔ IsTrue (is_of_jump number) }
{
    let (wrong, fix) = match number {
        BACK_JUMP => (
            "a jump leads to its own slot or backward",
            "use the program `lower`, which makes an equivalent program without such jumps: it \
                reorders blocks, and unrolls loops whose values are bounded",
        ),
        JUMP_OUT => (
            "a jump leads past the end of the program, or into the second half of a wide \
                instruction",
            "count the offset in slots from the next instruction; a wide instruction has two slots",
        ),
        FALLS_OFF => (
            "execution may continue after the last instruction",
            "end the program with EXIT",
        ),
        _ => return None,
    };
    Some(Advice { wrong, fix })
}

/// Which registers and kinds of values an instruction may take.
pub fn on_value(number: u32) -> Option<Advice>
    ensures { IsSome result ↔ IsTrue (is_of_value number) }
{
    let (wrong, fix) = match number {
        UNSET_REGISTER => (
            "a register is read that isn't set on every path to the slot, or holds an address on \
                one path and a different value on another",
            "set it first on every path, to numbers or to the same address; at the start only R1 \
                and R10 are set; a call leaves R1 to R5 unset; EXIT reads R0",
        ),
        WRONG_KIND => (
            "a load or store through a number or a map's name, a store to the context, a \
                comparison with an address, arithmetic on an address other than a 64-bit copy or a \
                64-bit addition or subtraction of a constant, or a call without a map's name in \
                R1, addresses on the stack or in the context for key and value, and a number for \
                flags",
            "keep the base in a copy of R1, of R10 or of a pointer that a lookup returned; add \
                only constants to it, and other numbers only to an address in a map's value; store \
                to the stack and to maps; compare numbers; and load the map's name right before \
                the call",
        ),
        NULL_NOT_CHECKED => (
            "the pointer that a lookup returned is used without a check for NULL",
            "check it first (in C: if (!value) return 0; in assembly: JEQ or JNE with 0, 64 bits), \
                and use it only on the path where it isn't NULL",
        ),
        FRAME_WRITTEN => (
            "R10, the read-only frame pointer, is written",
            "copy R10 to another register, and change the copy",
        ),
        POINTER_LEAKS => (
            "the program returns an address, stores one in fewer than eight bytes or in a map, \
                loads part of one from the stack, or lets a helper read part of one there",
            "return a number; store addresses as double words on the stack, and load them as \
                double words; let helpers read only numbers",
        ),
        _ => return None,
    };
    Some(Advice { wrong, fix })
}

/// Which bytes an instruction may read and write.
pub fn on_access(number: u32) -> Option<Advice>
    ensures { IsSome result ↔ IsTrue (is_of_access number) }
{
    let (wrong, fix) = match number {
        OUTSIDE_CONTEXT => (
            "a load, or a helper's key or value, isn't entirely inside the context, or an address \
                is more than 65536 bytes from the context's beginning",
            "use a smaller offset, or load the program with a larger context size",
        ),
        OUTSIDE_STACK => (
            "an access, or a helper's key or value, isn't entirely inside the 512 bytes below R10, \
                or an address is more than 65536 bytes from R10",
            "use offsets from -512 to -1, with the whole access below R10",
        ),
        UNSET_STACK => (
            "bytes of the stack are read that aren't all initialized",
            "initialize them first, on every path to the slot",
        ),
        OUTSIDE_MAP => (
            "an access may be outside a map's value, an address may be more than 65536 bytes from \
                the value's beginning, or an offset in a map's first value isn't less than the \
                value's size",
            "before adding the index, compare it, as an unsigned number, with the value's size, or \
                mask it, so that the whole access is inside the value; or give the map larger \
                values",
        ),
        MISALIGNED => (
            "an access or a key may be misaligned: the address of an access must be a multiple of \
                its size, that of a key a multiple of 4",
            "use only multiples of the access's size: mask off the low bits of an index that isn't \
                constant, or shift it left",
        ),
        _ => return None,
    };
    Some(Advice { wrong, fix })
}

/// Which helpers and maps there are.
pub fn on_call(number: u32) -> Option<Advice>
    ensures { IsSome result ↔ IsTrue (is_of_call number) }
{
    let (wrong, fix) = match number {
        UNKNOWN_HELPER => (
            "a helper other than 1, 2 and 3 is called",
            "call 1 to look up an element of a map, 2 to update it, 3 to delete it",
        ),
        UNKNOWN_MAP => (
            "the program refers to a map that doesn't exist",
            "count maps from 0; create a map before loading a program that refers to it, and give \
                `check` a V:E for each",
        ),
        _ => return None,
    };
    Some(Advice { wrong, fix })
}
