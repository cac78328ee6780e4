//! What is shown of a program, as text or as a page.

use command_line::ToExplain;
use explained_text::{VerdictWords, write_explained, write_folded};
use listing::{Detail, Listing, Paint, Text};
use listing_page::{Page, write_page};
use std::alloc::{AllocError, Global};
use std::io::{self, Write};
use terminal_text::quoted;

/// How a program is shown.
#[derive(Clone, Copy)]
pub struct Shown {
    pub paint: Paint,
    /// Whether it is what the lowering made.
    pub is_lowered: bool,
}

/// Writes the line of `check` for a program, its listing, what a refusal means, and a note on what stopped a lowering.
pub fn write_view<W: Write>(
    alloc: Global,
    output: &mut W,
    asked: &ToExplain<'_>,
    shown: Shown,
    listing: Option<&Listing<'_>>,
    verdict: &VerdictWords,
    note: &[u8],
) -> io::Result<()> {
    if asked.html {
        write_html(
            alloc,
            output,
            asked,
            shown.is_lowered,
            listing,
            verdict,
            note,
        )?;
    } else {
        let detail = if asked.all { Detail::All } else { Detail::Read };
        let text = Text {
            detail,
            paint: shown.paint,
        };
        write_explained(output, text, listing, verdict)?;
        write_folded(output, note)?;
    }
    output.flush()
}

/// Writes a listing as a page.
fn write_html<W: Write>(
    alloc: Global,
    output: &mut W,
    asked: &ToExplain<'_>,
    is_lowered: bool,
    listing: Option<&Listing<'_>>,
    verdict: &VerdictWords,
    note: &[u8],
) -> io::Result<()> {
    let program = program_named(alloc, asked.hex)?;
    let page = Page {
        alloc,
        program: program.as_str(),
        verdict: text_of(verdict.line.as_slice()),
        is_accepted: verdict.line.starts_with(b"accepted"),
        said: text_of(verdict.meant.as_slice()),
        note: text_of(note),
        shapes: asked.shapes.as_slice(),
        context: asked.context,
        is_lowered,
        shows_all: asked.all,
        listing,
    };
    write_page(output, &page)
}

/// What a program is called: by the path of its file, if it has one.
fn program_named(alloc: Global, hex: &str) -> Result<String, AllocError> {
    match hex.strip_prefix('@') {
        Some(path) => quoted(alloc, path),
        None => String::from_str(alloc, "hex text"),
    }
}

/// Words that were written, without the end of their last line.
fn text_of(words: &[u8]) -> &str {
    str::from_utf8(words).unwrap_or("").trim_end()
}
