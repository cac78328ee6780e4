//! Text from outside, printed so that no character of it steers a terminal.
#![tactic(auto)]

ghost use Rattle.std.specs.Prelude.{◌≡◌, ◌↔◌, ◌++◌, IfOk, Any, IsTrue, OnOk};
ghost use Rattle.std.specs.String.{string_bytes};
ghost use Rattle.terminal_text.specs.Plain.{IsBetween, IsPlain, IsPlainText};

use std::alloc::{AllocError, Global};

/// The first and the last of the characters that steer a terminal.
const STEERING: [(u32, u32); 10] = [
    (0, 0x1f),
    (0x7f, 0x9f),
    (0xad, 0xad),
    (0x61c, 0x61c),
    (0x200b, 0x200f),
    (0x2028, 0x202e),
    (0x2060, 0x206f),
    (0xfeff, 0xfeff),
    (0xfff9, 0xfffb),
    (0xe0000, 0xe007f),
];

/// The most characters that are printed of a text.
const MOST: usize = 40;

/// A text from outside as it is printed: no more than 40 characters of it, and two dots where there are more.
/// A character that could steer a terminal is printed as its number.
pub fn quoted(alloc: Global, text: &str) -> Result<String, AllocError>
    ensures { IfOk result (λ shown. IsPlainText (string_bytes shown)) }
{
    let mut shown = String::new(alloc);
    for c in text.chars().take(MOST) {
        push_plain(&mut shown, c)?;
    }
    if text.chars().count() > MOST {
        shown.push_str("..")?;
    }
    Ok(shown)
}

/// Adds a character, or its number where it could steer a terminal.
fn push_plain(shown: &mut String, c: char) -> Result<(), AllocError>
    ensures { OnOk result (IsPlainText (string_bytes shown.old) → IsPlainText (string_bytes shown.new)) }
{
    if is_plain(c) {
        shown.push(c)?;
        return Ok(());
    }
    for escaped in c.escape_unicode() {
        shown.push(escaped)?;
    }
    Ok(())
}

/// Whether a character stands for itself on a terminal: no control, and none that turns the direction of the
/// text or can't be seen.
pub fn is_plain(c: char) -> bool
    ensures { IsTrue result ↔ IsPlain c }
{
    !is_among(&STEERING, c as u32)
}

/// Whether a code lies in one of the ranges.
fn is_among(ranges: &[(u32, u32)], code: u32) -> bool
    ensures { IsTrue result ↔ Any (IsBetween code) ranges.now }
{
    ranges
        .iter()
        .any(|(first, last)| *first <= code && code <= *last)
}
