//! What is wrong with a text by the instruction that is refused, where its number alone says less.

use advice::advice_on_text;
use host_types::Refused;
use std::io;

/// What stands above the rows.
const HEAD: &str = "\n## By instruction\n\n\
    What is wrong by the instruction at the refused slot, or by the length of the program.\n\n\
    | number | slot | what is wrong |\n\
    |---|---|---|";

/// How many bytes a text has that is one slot too long.
const TOO_LONG: usize = 32776;

/// A refusal's number, and a slot that is refused with it.
type Row = (u32, u64);

/// A slot for each thing that is said by the instruction.
fn rows() -> [Row; 26] {
    [
        (2, 0x8d00000000000000),
        (2, 0xdb01000000000000),
        (2, 0x2000000000000000),
        (2, 0xff00000000000000),
        (3, 0x8510000001000000),
        (3, 0x8520000001000000),
        (3, 0x1830000000000000),
        (3, 0x3700020001000000),
        (3, 0xdc00000011000000),
        (3, 0xbf10010000000000),
        (3, 0x9510000000000000),
        (11, 0x0500ffff00000000),
        (12, 0x0500080000000000),
        (12, 0x0500000000000000),
        (15, 0x7900000000000000),
        (15, 0x7b11000000000000),
        (15, 0x1d1a000000000000),
        (15, 0x0f14000000000000),
        (15, 0x2f11000000000000),
        (15, 0x8500000001000000),
        (15, 0x8500000002000000),
        (25, 0x9500000000000000),
        (25, 0x631a000000000000),
        (25, 0x7b10000000000000),
        (25, 0x8500000001000000),
        (25, 0x61a0000000000000),
    ]
}

/// Prints a row for each slot, and for each kind of length that no text has.
pub fn print_instructions<R: AllocGlobal + Print>(rt: &R) -> io::Result<()> {
    println!(rt; "{HEAD}")?;
    let bytes = [0; TOO_LONG];
    for length in [0, 12, TOO_LONG] {
        let bytes = bytes.get(..length).unwrap_or(&[]);
        println!(rt; "| 1 | {length} bytes | {} |", wrong_with(1, bytes))?;
    }
    for (number, slot) in rows() {
        // A second slot stands after it.
        let mut text = [0; 16];
        text[..8].copy_from_slice(&slot.to_be_bytes());
        println!(rt;
            "| {number} | {slot:016x} | {} |",
            wrong_with(number, text.as_slice())
        )?;
    }
    Ok(())
}

/// What is said to be wrong with a text that is refused at its first slot.
fn wrong_with(number: u32, text: &[u8]) -> &'static str {
    match advice_on_text(Refused { number, slot: 0 }, text) {
        Some(advice) => advice.wrong,
        None => "nothing",
    }
}
