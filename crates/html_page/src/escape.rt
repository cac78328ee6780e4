//! Text from outside, written so that a browser reads none of it as HTML.

ghost use Rattle.std.specs.Prelude.{◌<◌, IfOk, IfSome, OnOk, All, IsTrue};
ghost use Rattle.html_page.specs.Inert.{AppendsInert, IsInert};

use std::alloc::{AllocError, Global};
use std::io;
use std::io::Write;

/// Writes a text as `escaped` makes it: between tags, or between the quotes of a JSON string, a browser reads it as text.
pub fn write_inert<W: Write>(alloc: Global, output: &mut W, text: &str) -> io::Result<()>
    ensures { OnOk result (AppendsInert (W.contents output.old) (W.contents output.new)) }
{
    let text = escaped(alloc, text)?;
    output.write_all(text.as_slice())
}

/// A text as it stands between the quotes of a JSON string: characters of ASCII that print, but for `"`, `&`, `<`, `>` and
/// `\`, as they are, and of every other one the `\uXXXX` of its units of UTF-16.
#[tactic(auto, using(crate::proofs::Pushed::no_bytes))]
pub fn escaped(alloc: Global, text: &str) -> Result<Vec<u8>, AllocError>
    ensures { IfOk result (λ escaped. All IsInert escaped.items) }
{
    let mut escaped = Vec::new(alloc);
    for c in text.chars() {
        push_escaped(&mut escaped, c as u32)?;
    }
    Ok(escaped)
}

/// Adds the character of a code.
fn push_escaped(escaped: &mut Vec<u8>, code: u32) -> Result<(), AllocError>
    requires { All IsInert escaped.old.items }
    ensures { OnOk result (All IsInert escaped.new.items) }
{
    if let Some(byte) = inert(code) {
        return push_byte(escaped, byte);
    }
    if code < 0x10000 {
        return push_unit(escaped, code);
    }
    let rest = code.saturating_sub(0x10000);
    push_unit(escaped, 0xd800 + rest / 0x400 % 0x400)?;
    push_unit(escaped, 0xdc00 + rest % 0x400)
}

/// The byte that stands for a character, if one does.
fn inert(code: u32) -> Option<u8>
    ensures { IfSome result IsInert }
{
    match u8::try_from(code) {
        Ok(byte) if is_inert(byte) => Some(byte),
        _ => None,
    }
}

/// Whether a byte stands for itself.
fn is_inert(byte: u8) -> bool
    ensures { IsTrue result → IsInert byte }
{
    32 <= byte
        && byte < 127
        && byte != b'"'
        && byte != b'&'
        && byte != b'<'
        && byte != b'>'
        && byte != b'\\'
}

/// Adds the escape of a unit of UTF-16: a backslash, `u` and four digits.
fn push_unit(escaped: &mut Vec<u8>, unit: u32) -> Result<(), AllocError>
    requires { All IsInert escaped.old.items }
    ensures { OnOk result (All IsInert escaped.new.items) }
{
    push_byte(escaped, b'\\')?;
    push_byte(escaped, b'u')?;
    push_digit(escaped, unit / 0x1000)?;
    push_digit(escaped, unit / 0x100)?;
    push_digit(escaped, unit / 0x10)?;
    push_digit(escaped, unit)
}

/// Adds the last hex digit of a number.
fn push_digit(escaped: &mut Vec<u8>, number: u32) -> Result<(), AllocError>
    requires { All IsInert escaped.old.items }
    ensures { OnOk result (All IsInert escaped.new.items) }
{
    push_byte(escaped, digit((number % 16) as u8))
}

/// Adds a byte.
#[tactic(auto, using(crate::proofs::Pushed::pushed_byte))]
fn push_byte(escaped: &mut Vec<u8>, byte: u8) -> Result<(), AllocError>
    requires inert { IsInert byte }
    requires before { All IsInert escaped.old.items }
    ensures { OnOk result (All IsInert escaped.new.items) }
{
    escaped.push(byte)?;
    Ok(())
}

/// A hex digit.
fn digit(number: u8) -> u8
    requires { number < 16 }
    ensures { IsInert result }
{
    if number < 10 {
        b'0' + number
    } else {
        b'a' + (number - 10)
    }
}
