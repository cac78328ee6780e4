//! Texts that call no functions, each of whose slots has an origin.

ghost use Rattle.std.specs.Prelude.{◌≡◌, ◌↔◌, IfOk, IsTrue};
ghost use Rattle.inlining.specs.Whole.{IsInlined, IsWholeText, first_text};

use call_copies::{
    CALL, Function, Inlined, MOST_SLOTS, NotInlined, Origin, Stop, with_copies_at_calls,
};
use std::alloc::Global;

/// One text of function 0 and of those that it calls. It is that of function 0 itself where that calls none.
pub fn inlined(alloc: Global, functions: &[Function<'_>]) -> Result<Inlined, NotInlined>
    ensures whole { IfOk result IsInlined }
    ensures unchanged { IfOk result (λ inlined. IsWholeText (first_text functions.now) → inlined.text.items ≡ first_text functions.now) }
{
    let text = text_of_first(functions);
    if is_whole(text) {
        return unchanged(alloc, text);
    }
    tested(with_copies_at_calls(alloc, functions)?)
}

/// The text of function 0, or none if there is none.
fn text_of_first<'a>(functions: &[Function<'a>]) -> &'a [u8]
    ensures { result.now ≡ first_text functions.now }
{
    match functions.first() {
        Some(first) => first.text,
        None => &[],
    }
}

/// The text of a function that calls none, as it is.
fn unchanged(alloc: Global, text: &[u8]) -> Result<Inlined, NotInlined>
    requires { IsWholeText text.now }
    ensures same { IfOk result (λ inlined. inlined.text.items ≡ text.now) }
    ensures whole { IfOk result IsInlined }
{
    let mut origins = Vec::new(alloc);
    for slot in 0..text.len() / 8 {
        origins.push(Origin { function: 0, slot })?;
    }
    Ok(Inlined {
        text: Vec::from_slice(alloc, text)?,
        origins,
    })
}

/// A text with copies, if it calls no function.
fn tested(inlined: Inlined) -> Result<Inlined, NotInlined>
    ensures { IfOk result IsInlined }
{
    if is_inlined(&inlined) {
        Ok(inlined)
    } else {
        Err(Stop::UnknownCall.at(0))
    }
}

/// Whether a text is whole, and each of its slots has an origin.
fn is_inlined(inlined: &Inlined) -> bool
    ensures { IsTrue result → IsInlined inlined.now }
{
    is_whole(inlined.text.as_slice()) && inlined.origins.len() == inlined.text.len() / 8
}

/// Whether a text has whole slots, at most 4096 of them, and no call of a function.
fn is_whole(text: &[u8]) -> bool
    ensures { IsTrue result ↔ IsWholeText text.now }
{
    if text.len() % 8 != 0 || text.len() > 8 * MOST_SLOTS {
        return false;
    }
    for slot in 0..text.len() / 8 {
        if text[8 * slot] == CALL && text[8 * slot + 1] / 16 == 1 {
            return false;
        }
    }
    true
}
