//! The first bytes of the contexts on which a program is run.

use crate::fault::Fault;
use command_line::{Form, ToLoad};
use engines::check::check_request_of;
use host_types::Bytes;
use std::alloc::Global;

/// The first bytes of the context of each run that is asked for.
pub fn fronts_of(alloc: Global, asked: &ToLoad<'_>) -> Result<Vec<Bytes>, Fault> {
    let mut fronts = Vec::new(alloc);
    let Form::Runs(words) = &asked.form else {
        return Ok(fronts);
    };
    for word in words {
        fronts.push(front_of(alloc, word, asked.context)?)?;
    }
    Ok(fronts)
}

/// The first bytes, in hex, of a context of a size.
fn front_of(alloc: Global, word: &str, size: u32) -> Result<Bytes, Fault> {
    // `check` says what is wrong with hex text; it needs no maps for that.
    let front = check_request_of(alloc, word, &[], "0")?.text;
    let length = front.as_slice().len();
    if length > size as usize {
        return Err(Fault::Usage(format!(in alloc;
            "HEX has {length} bytes, and the context {size}; --context says how many it has"
        )?));
    }
    Ok(front)
}
