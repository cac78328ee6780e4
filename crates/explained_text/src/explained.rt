//! A text's verdict and its listing, in lines.

use crate::verdict::VerdictWords;
use engines::check::CheckRequest;
use engines::written;
use findings::CheckedText;
use host_file::FileFault;
use listing::{Detail, Listing, Paint, Text, fold};
use std::alloc::Global;
use std::io::{self, Write};

/// Verifies a text, and explains it as `explain` does where it is asked for no more than a text's maps and its context.
pub fn explain_text<W: Write>(
    alloc: Global,
    asked: &CheckRequest,
    output: &mut W,
) -> Result<(), FileFault> {
    let verdict = VerdictWords::of(alloc, asked)?;
    let checked = CheckedText {
        text: asked.text.as_slice(),
        shapes: asked.shapes.as_slice(),
        context_size: asked.context_size,
    };
    let listing = Listing::of(alloc, &checked, None, None);
    let plain = Text {
        detail: Detail::Read,
        paint: Paint::Plain,
    };
    written(write_explained(output, plain, listing.as_ref(), &verdict))
}

/// Writes the verdict on a text and its listing, with what a refusal means after the slot that is refused.
pub fn write_explained<W: Write>(
    output: &mut W,
    text: Text,
    listing: Option<&Listing<'_>>,
    verdict: &VerdictWords,
) -> io::Result<()> {
    output.write_all(verdict.line.as_slice())?;
    if let Some(listing) = listing {
        text.write_rows(output, listing)?;
    }
    write_folded(output, verdict.meant.as_slice())?;
    match listing {
        Some(listing) => text.write_further(output, listing),
        None => Ok(()),
    }
}

/// Writes words in lines of at most 100 columns, if there are any.
pub fn write_folded<W: Write>(output: &mut W, words: &[u8]) -> io::Result<()> {
    match str::from_utf8(words).unwrap_or("").trim_end() {
        "" => Ok(()),
        words => fold(output, words),
    }
}
