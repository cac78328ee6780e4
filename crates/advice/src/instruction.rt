//! The refusals whose words depend on the text. Each function has the cases of one number, and answers
//! `None` where the general words say it.

ghost use Rattle.std.specs.Prelude.{IfSome, IsTrue};
ghost use Rattle.advice.specs.Answered.{is_answered};

use crate::Advice;
use crate::loops::loop_closed;
use bpf_decode::{AluCode, Insn, Operation, Size, Source, Width};
use host_types::limits::MAX_TEXT;
use host_types::rule::{
    BACK_JUMP, BAD_FIELD, BAD_LENGTH, JUMP_OUT, MISALIGNED, OUTSIDE_MAP, POINTER_LEAKS,
    UNKNOWN_OPCODE, UNSET_STACK, WRONG_KIND,
};
use host_types::{MapHelper, Refused};

/// The bits of an opcode that are those of an atomic instruction: its class and its mode (RFC 9669,
/// section 5.3).
const ATOMIC: u8 = 0xc3;

/// The field src of a call of a function of the program's own (RFC 9669, section 4.3).
const LOCAL_CALL: u8 = 1;

/// The imm of a call that a linker was to fill in, as LLVM writes it.
const UNLINKED: i32 = -1;

/// What is said of a refusal of this text alone.
pub fn on_refused(refused: Refused, text: &[u8]) -> Option<Advice>
    ensures { IfSome result (λ _. IsTrue (is_answered refused.number)) }
{
    if refused.number == BAD_LENGTH {
        return Some(on_length(text));
    }
    let insn = Insn::at(text, refused.slot as usize)?;
    match refused.number {
        UNKNOWN_OPCODE => on_opcode(insn.opcode),
        BAD_FIELD => on_field(&insn),
        BACK_JUMP => Some(on_back_jump(text, refused.slot)),
        JUMP_OUT => on_target(&insn, text, refused.slot),
        WRONG_KIND => on_kind(&insn),
        UNSET_STACK => on_unset_bytes(&insn),
        OUTSIDE_MAP => on_reach(&insn),
        MISALIGNED => on_alignment(&insn),
        POINTER_LEAKS => on_leak(&insn),
        _ => None,
    }
}

/// The length of a text that has no whole slots, or too many.
fn on_length(text: &[u8]) -> Advice {
    if text.is_empty() {
        Advice {
            wrong: "the program is empty",
            fix: "give 1 to 4096 slots of eight bytes; if HEX comes from a file, check that the \
                file was written",
        }
    } else if text.len() > MAX_TEXT {
        Advice {
            wrong: "the program is longer than 4096 slots",
            fix: "make the program shorter, or split it into two",
        }
    } else {
        Advice {
            wrong: "the program's length isn't a multiple of eight bytes",
            fix: "give whole slots of eight bytes",
        }
    }
}

/// An opcode of an instruction that the host doesn't support.
fn on_opcode(opcode: u8) -> Option<Advice> {
    if opcode & 0xe7 == ATOMIC {
        return Some(Advice {
            wrong: "atomic instructions aren't supported",
            fix: "load, compute and store instead: while a program runs, it has its memory to \
                itself",
        });
    }
    match opcode {
        0x8d => Some(Advice {
            wrong: "calls through a register aren't supported",
            fix: "compile with `clang -O2`, by which helpers are called by their numbers; and inline \
                functions that are called through a pointer",
        }),
        0x20 | 0x28 | 0x30 | 0x40 | 0x48 | 0x50 => Some(Advice {
            wrong: "legacy packet access instructions (ABS and IND) aren't supported",
            fix: "load from the context, which R1 points to at the start",
        }),
        _ => None,
    }
}

/// A field with a number that means nothing there.
fn on_field(insn: &Insn) -> Option<Advice> {
    let (wrong, fix) = match Operation::of(insn.opcode)? {
        Operation::Call if insn.src != 0 => return Some(on_callee(insn)),
        Operation::LoadImmediate => (
            "this form of the wide instruction isn't supported",
            "use src 0 to load a number; src 1 to load a map's name, with 0 in the second half; or \
                src 2 for an address in a map's first value, with its offset in the second half's \
                imm; the second half's other fields must be 0",
        ),
        Operation::Alu {
            code: AluCode::Div | AluCode::Mod,
            ..
        } => (
            "a division or modulo has an offset other than 0 and 1, or sets a field that it \
                doesn't use",
            "use offset 0, or 1 if it is signed, and 0 in the unused fields",
        ),
        Operation::Alu {
            code: AluCode::Mov,
            source: Source::Register,
            ..
        } => (
            "a register move has an offset other than 0, 8, 16 and (64 bits only) 32, or an imm \
                other than 0",
            "use one of these offsets, and 0 in imm",
        ),
        Operation::Alu {
            code: AluCode::ToLittleEndian | AluCode::ToBigEndian | AluCode::SwapBytes,
            ..
        } => (
            "a byte swap has a width other than 16, 32 and 64, or sets a field that it doesn't use",
            "use one of these widths in imm, and 0 in the unused fields",
        ),
        _ => (
            "a field that the instruction doesn't use isn't 0",
            "set it to 0",
        ),
    };
    Some(Advice { wrong, fix })
}

/// A call of something other than a helper.
fn on_callee(insn: &Insn) -> Advice {
    if insn.src != LOCAL_CALL {
        return Advice {
            wrong: "a call with this src field isn't supported",
            fix: "call a helper by its number, with src 0",
        };
    }
    if insn.imm == UNLINKED {
        Advice {
            wrong: "a call that a linker should have resolved isn't supported, such as one of a \
                library's `memcmp`",
            fix: "define the function in the program and inline it; in C, `__builtin_memcpy` and \
                `__builtin_memset` of constant sizes need no call",
        }
    } else {
        Advice {
            wrong: "a call of a program-local function isn't supported",
            fix: "inline it: in C mark it `static inline __attribute__((always_inline))`",
        }
    }
}

/// A jump to its own slot or back.
fn on_back_jump(text: &[u8], slot: u32) -> Advice {
    if loop_closed(text, slot).is_some() {
        Advice {
            wrong: "a backward jump forms a loop",
            fix: "use the program `lower`, which unrolls loops as often as they can run, if their \
                values are bounded: in C count up to a constant, as in `for (i = 0; i < 40 && i < \
                n; i++)`, and for `while (x)` write `for (i = 0; i < 64 && x; i++)`",
        }
    } else {
        Advice {
            wrong: "a jump leads backward, though it forms no loop",
            fix: "use the program `lower`, which reorders the blocks so that all jumps lead \
                forward",
        }
    }
}

/// A jump that leads to no instruction.
fn on_target(insn: &Insn, text: &[u8], slot: u32) -> Option<Advice> {
    let distance = match Operation::of(insn.opcode)? {
        Operation::Jump { distance } => insn.distance(distance),
        Operation::Branch { .. } => i32::from(insn.offset),
        _ => return None,
    };
    let target = i64::from(slot) + 1 + i64::from(distance);
    let (wrong, fix) = match usize::try_from(target) {
        Ok(target) if target < text.len() / 8 => (
            "a jump leads into the second half of a wide instruction",
            "count two slots for a wide instruction",
        ),
        _ => (
            "a jump leads past the end of the program",
            "count the offset in slots from the next instruction; the last possible target is the \
                last instruction",
        ),
    };
    Some(Advice { wrong, fix })
}

/// A value of a kind that the instruction doesn't take.
fn on_kind(insn: &Insn) -> Option<Advice> {
    let (wrong, fix) = match Operation::of(insn.opcode)? {
        Operation::Load { .. } => (
            "a load's base register holds a number or a map's name, not an address",
            "load through R1, R10, a pointer that a lookup returned, an address in a map's first \
                value, or a copy of one of them",
        ),
        Operation::Store { .. } => (
            "a store's base register holds a number, a map's name or an address in the context",
            "store to the stack, through R10 or a copy of it, or through a pointer that a lookup \
                returned",
        ),
        Operation::Branch { .. } => (
            "an address is compared",
            "compare only numbers; check a pointer that a lookup returned for NULL just once",
        ),
        Operation::Alu {
            code: AluCode::Add,
            width: Width::Bits64,
            source: Source::Register,
        } => (
            "the source register holds an address, or a number that isn't constant is added to an \
                address in the context or on the stack",
            "add the number to the address, not the address to the number: in C write `p + n` for \
                a pointer p that isn't cast to a number; add only constants to an address in the \
                context or on the stack: in C use a `switch` with a case for each constant, and \
                `asm volatile(\"\" : \"+r\"(x))` after the load of x in each case",
        ),
        Operation::Alu { .. } => (
            "this arithmetic isn't allowed on an address",
            "copy an address with a 64-bit move, and add or subtract only constants; to an address \
                in a map's value, other numbers may be added too",
        ),
        Operation::Call => return on_arguments(insn),
        _ => return None,
    };
    Some(Advice { wrong, fix })
}

/// An argument of a call of a kind that the helper doesn't take.
fn on_arguments(insn: &Insn) -> Option<Advice> {
    let (wrong, fix) = match MapHelper::of(insn.immediate())? {
        MapHelper::Lookup | MapHelper::Delete => (
            "R1 doesn't hold a map's name, or R2 doesn't hold an address on the stack or in the \
                context",
            "load the map's name by a wide instruction with src 1, and store the key on the stack",
        ),
        MapHelper::Update => (
            "R1 doesn't hold a map's name, R2 or R3 doesn't hold an address on the stack or in the \
                context, or R4 doesn't hold a number",
            "load the map's name by a wide instruction with src 1, store key and value on the \
                stack, and pass 0 as flags",
        ),
    };
    Some(Advice { wrong, fix })
}

/// Bytes of the stack that a helper would read.
fn on_unset_bytes(insn: &Insn) -> Option<Advice> {
    match Operation::of(insn.opcode)? {
        Operation::Call => Some(Advice {
            wrong: "the helper would read bytes of the stack that aren't all initialized",
            fix: "store all four bytes of the key, and all `value_size` bytes of an update's \
                value: in C first set a struct that has padding to 0 with `__builtin_memset`",
        }),
        _ => None,
    }
}

/// A number that is added to an address in a map's value, an access there, or an offset in its first
/// value.
fn on_reach(insn: &Insn) -> Option<Advice> {
    let (wrong, fix) = match Operation::of(insn.opcode)? {
        Operation::Alu {
            source: Source::Register,
            ..
        } => (
            "the address may end up more than 65536 bytes from the beginning of the map's value",
            "bound the number first: mask it, or compare it as an unsigned 64-bit number. A signed \
                comparison bounds nothing, and a 32-bit one only a number below 2^32. In C the \
                compiler drops a comparison after a remainder, or one that can't fail: put `asm \
                volatile(\"\" : \"+r\"(i))` before it",
        ),
        Operation::Load { .. } | Operation::Store { .. } => (
            "the access may be outside the map's value",
            "before adding the index, compare it, as an unsigned 64-bit number, with the array's \
                length, or mask it, so that the whole access is inside the value; or give the map \
                larger values. In C the compiler drops a mask or a comparison that changes nothing: \
                put `asm volatile(\"\" : \"+r\"(i))` before it",
        ),
        Operation::LoadImmediate => (
            "the offset isn't less than the size of the map's values",
            "use a smaller offset in the second half's imm, or give the map larger values",
        ),
        _ => return None,
    };
    Some(Advice { wrong, fix })
}

/// An address that may be no multiple of what it has to be.
fn on_alignment(insn: &Insn) -> Option<Advice> {
    let (wrong, fix) = match Operation::of(insn.opcode)? {
        Operation::Load { .. } | Operation::Store { .. } => (
            "the access may be misaligned: its address must be a multiple of its size",
            "use only multiples of the size: shift an index left, or mask off its low bits; in C \
                mark the struct `__attribute__((packed))`, or copy the field with \
                `__builtin_memcpy` from a `char *`, as for a struct of a kernel header",
        ),
        Operation::Call => (
            "the key is misaligned: its address must be a multiple of 4",
            "put it at a multiple of 4: in C use a `u32` variable of its own as the key",
        ),
        _ => return None,
    };
    Some(Advice { wrong, fix })
}

/// An address that would leave the program, or be taken apart.
fn on_leak(insn: &Insn) -> Option<Advice> {
    let (wrong, fix) = match Operation::of(insn.opcode)? {
        Operation::Exit => ("the program returns an address", "return a number in R0"),
        Operation::Store {
            size: Size::DoubleWord,
            ..
        } => (
            "an address is stored in a map",
            "store only numbers in maps, and addresses only on the stack",
        ),
        Operation::Store { .. } => (
            "an address is stored in fewer than eight bytes",
            "store it as a double word on the stack",
        ),
        Operation::Load { .. } => (
            "part of an address is loaded from the stack",
            "load it as a double word",
        ),
        Operation::Call => (
            "the helper would read part of an address from the stack",
            "store the key, or the value, there first",
        ),
        _ => return None,
    };
    Some(Advice { wrong, fix })
}
