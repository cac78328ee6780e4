//! The text of a program as the verifier accepts it, or why there is none.

use crate::fault::Fault;
use command_line::ToLoad;
use lowered_text::lowered;
use object_program::{Chosen, refusal_words, request_of};
use object_text::ObjectText;
use std::alloc::Global;

/// The text of an object's program, lowered if the verifier doesn't accept it as it is.
pub fn accepted_text(
    alloc: Global,
    asked: &ToLoad<'_>,
    bytes: &[u8],
    object: &ObjectText,
) -> Result<Vec<u8>, Fault> {
    let request = request_of(alloc, object, asked.context)?;
    let stopped = match lowered(alloc, &request) {
        Some(Ok(lowered)) => return Ok(lowered.text),
        Some(Err(stopped)) => Some(stopped),
        None => None,
    };
    let chosen = Chosen {
        file: bytes,
        name: asked.section,
    };
    let said = refusal_words(alloc, &chosen, &request, stopped)?;
    Err(Fault::NotLowered(said))
}
