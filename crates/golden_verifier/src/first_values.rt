//! Rows of every offset in the first value of a map: what `verify` and both passes of the plain verifier say
//! of the address there, against the rule.

ghost use Rattle.verifier.specs.Verified.{AreShapes};

use bpf_decode::decode;
use golden_compared::{shapes_of, verdicts_agree};
use host_types::{Refused, Shape};
use std::alloc::Global;
use std::io;
use verifier::verify;
use verifier_kinds::{Align, Kind, Offsets};

/// A program that loads the address at an offset in the first value of map 0 into R1, and returns 0.
fn text_of(offset: u16) -> [u8; 32] {
    let mut text = [0; 32];
    text[0] = 0x18;
    text[1] = 0x21;
    text[12..14].copy_from_slice(&offset.to_le_bytes());
    text[16] = 0xb7;
    text[24] = 0x95;
    text
}

/// The greatest of 8, 4, 2 and 1 that divides an offset.
fn align_of(offset: u16) -> Align {
    match offset % 8 {
        0 => Align::Eight,
        4 => Align::Four,
        2 | 6 => Align::Two,
        _ => Align::One,
    }
}

/// What is known of R1 after the load, or the refusal, in a map whose values have so many bytes.
fn ruled(offset: u16, value_size: u16) -> Result<Kind, Refused> {
    if offset >= value_size {
        return Err(Refused {
            number: 19,
            slot: 0,
        });
    }
    // An offset is kept as 65536 more than it is.
    let at = 65536 + u32::from(offset);
    let offsets = Offsets {
        low: at,
        high: at,
        align: align_of(offset),
    };
    Ok(Kind::MapValue { map: 0, offsets })
}

/// Whether `verify` and the plain verifier answer of an offset what the rule says.
fn is_as_ruled(alloc: Global, shapes: &[Option<Shape>], offset: u16, value_size: u16) -> bool
    requires { AreShapes shapes.now }
{
    let text = text_of(offset);
    let Ok(program) = decode(alloc, &text) else {
        return false;
    };
    let verified = verify(alloc, program, shapes, 0);
    if !verdicts_agree(alloc, &text, shapes, 0, &verified) {
        return false;
    }
    match (verified, ruled(offset, value_size)) {
        (Ok(program), Ok(kind)) => program.kind(2, 1) == Some(kind),
        (Err(refused), Err(wanted)) => refused == wanted,
        _ => false,
    }
}

/// Prints whether all offsets in the first value of a map of this shape, and the one after them, are as the
/// rule says.
pub(crate) fn print_first_values(rt: &(impl AllocGlobal + Print), shape: &str) -> io::Result<()> {
    let shapes = shapes_of(rt.alloc(), shape)?;
    let Some(Some(shape)) = shapes.first() else {
        return print!(rt; "no row");
    };
    let value_size = u16::try_from(shape.value_size).unwrap_or(0);
    for offset in 0..=value_size {
        if !is_as_ruled(rt.alloc(), &shapes, offset, value_size) {
            return print!(rt; "offset {offset} is not as the rule says");
        }
    }
    print!(rt; "offsets 0 to {value_size} are as the rule says")
}
