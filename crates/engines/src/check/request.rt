//! What the words of a command line ask `check` for.

ghost use Rattle.std.specs.Prelude.{◌≡◌, ℕ, List, IfErr, IfNone, IfOk, IfSome, Ok, Option};
ghost use Rattle.hex.specs.Hex.{decode_of};
ghost use Rattle.host_types.specs.declared.shape.Shape.{Shape};
ghost use Rattle.engines.specs.Check.{AreShapeWords, AskNothing, IsAsked, IsDecimal, IsShapeWord};
ghost use Rattle.host_file.specs.Faults.{IsOfWords, IsUsage};

use crate::fault::usage;
use hex::FromHexError;
use host_core::Bytes;
use host_file::FileFault;
use host_types::Shape;
use std::alloc::{AllocError, Global};
use terminal_text::{is_plain, quoted};

/// A program to verify: its text, the shapes of its maps by number, and the bytes of its context.
#[derive(Drop)]
pub struct CheckRequest {
    pub text: Bytes,
    pub shapes: Vec<Option<Shape>>,
    pub context_size: u32,
}

/// Reads the words. A fault names the word that is wrong.
pub fn check_request_of(
    alloc: Global,
    hex: &str,
    shapes: &[&str],
    context: &str,
) -> Result<CheckRequest, FileFault>
    ensures asked { IfOk result (IsAsked hex.now shapes.now context.now) }
    ensures usage { IfErr result (λ fault. IsUsage fault → AskNothing hex.now shapes.now context.now) }
    ensures words { IfErr result IsOfWords }
{
    let text = text_of(alloc, hex)?;
    let shapes = shapes_of(alloc, shapes)?;
    match number_of(context) {
        Some(context_size) => Ok(CheckRequest {
            text,
            shapes,
            context_size,
        }),
        None => Err(no_number(alloc, context)),
    }
}

fn no_shape(alloc: Global, word: &str) -> FileFault
    ensures { IsOfWords result }
{
    let Ok(word) = quoted(alloc, word) else {
        return FileFault::OutOfMemory(AllocError);
    };
    usage(format!(in alloc;
        "V:E `{word}` isn't two decimal numbers from 0 to 4294967295 with a colon between them"
    ))
}

fn no_number(alloc: Global, context: &str) -> FileFault
    ensures { IsOfWords result }
{
    let Ok(context) = quoted(alloc, context) else {
        return FileFault::OutOfMemory(AllocError);
    };
    usage(format!(in alloc; "--context `{context}` is no decimal number from 0 to 4294967295"))
}

/// The bytes of a hex text.
fn text_of(alloc: Global, hex: &str) -> Result<Bytes, FileFault>
    ensures ok { IfOk result (λ text. decode_of hex.now ≡ Ok text) }
    ensures usage { IfErr result (λ fault. IsUsage fault → (bytes : List ℕ) → decode_of hex.now ≡ Ok bytes → ⊥) }
    ensures words { IfErr result IsOfWords }
{
    match hex::decode(alloc, hex) {
        Ok(text) => Ok(Bytes::from(text)),
        Err(FromHexError::OutOfMemory) => Err(FileFault::OutOfMemory(AllocError)),
        Err(_) => Err(no_hex(alloc, hex)),
    }
}

/// What is wrong with a word that is no hex text: its first character that is no digit, or else how many
/// there are.
fn no_hex(alloc: Global, hex: &str) -> FileFault
    ensures { IsOfWords result }
{
    usage(match wrong_character(hex) {
        Some((location, c)) if is_plain(c) => {
            format!(in alloc;
                "HEX has `{c}` at character {location}, counted from 0, which is no hex digit"
            )
        }
        // A line break too is printed as its number.
        Some((location, c)) => {
            let c = c.escape_unicode();
            format!(in alloc;
                "HEX has `{c}` at character {location}, counted from 0, which is no hex digit"
            )
        }
        None => format!(in alloc; "HEX has {} digits, and each byte has two", hex.len()),
    })
}

/// The first character that is no hex digit, and how many stand before it.
fn wrong_character(hex: &str) -> Option<(usize, char)> {
    for (location, c) in hex.chars().enumerate() {
        if !c.is_ascii_hexdigit() {
            return Some((location, c));
        }
    }
    None
}

/// The shapes of maps that words V:E give, one for each. A fault names the first word that gives none.
fn shapes_of(alloc: Global, words: &[&str]) -> Result<Vec<Option<Shape>>, FileFault>
    ensures ok { IfOk result (λ shapes. AreShapeWords words.now shapes.items) }
    ensures usage { IfErr result (λ fault. IsUsage fault → (shapes : List (Option Shape)) → AreShapeWords words.now shapes → ⊥) }
    ensures words { IfErr result IsOfWords }
{
    let mut shapes = Vec::new(alloc);
    for word in words {
        let Some(shape) = shape_of(word) else {
            return Err(no_shape(alloc, word));
        };
        let Ok(()) = shapes.push(Some(shape)) else {
            return Err(FileFault::OutOfMemory(AllocError));
        };
    }
    Ok(shapes)
}

/// The shape that a word V:E gives. It may be one that no map has.
fn shape_of(word: &str) -> Option<Shape>
    ensures some { IfSome result (IsShapeWord word.now) }
    ensures none { IfNone result ((shape : Shape) → IsShapeWord word.now shape → ⊥) }
{
    let (value_size, entries) = word.split_once(':')?;
    Some(Shape {
        value_size: number_of(value_size)?,
        entries: number_of(entries)?,
    })
}

/// The decimal number that a word is.
fn number_of(word: &str) -> Option<u32>
    ensures some { IfSome result (IsDecimal word.now) }
    ensures none { IfNone result ((n : ℕ) → IsDecimal word.now n → ⊥) }
{
    // `parse` would take a plus sign.
    if word.starts_with('+') {
        return None;
    }
    word.parse().ok()
}
