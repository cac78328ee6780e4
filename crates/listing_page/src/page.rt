//! The page around the data.

use crate::actions::ACTIONS;
use crate::data::write_data;
use crate::model::MODEL;
use crate::policy::{SCRIPT_HASH, STYLE_HASH};
use crate::style::STYLE;
use html_page::{Frame, write_end, write_head};
use listing::Listing;
use std::alloc::Global;
use std::io;
use std::io::Write;

/// What a page shows.
#[derive(Clone, Copy)]
pub struct Page<'a> {
    /// Where memory comes from.
    pub alloc: Global,
    /// What the program is called.
    pub program: &'a str,
    /// The line of `check`, and whether it says that the program is accepted.
    pub verdict: &'a str,
    pub is_accepted: bool,
    /// What `check` says of a refusal.
    pub said: &'a str,
    /// What stopped a lowering, or nothing.
    pub note: &'a str,
    /// The words by which maps and the context were given.
    pub shapes: &'a [&'a str],
    pub context: &'a str,
    pub is_lowered: bool,
    /// Whether all that is known is shown in each row.
    pub shows_all: bool,
    /// The rows; none where no text can be verified for such maps and such a context.
    pub listing: Option<&'a Listing<'a>>,
}

const BODY: &str =
    r##"<noscript>This page makes its rows by a script of its own. Let it run, or print the listing without --html.</noscript>
<main id="page"></main>
<script type="application/json" id="data">"##;

/// Writes a page.
pub fn write_page<W: Write>(output: &mut W, page: &Page<'_>) -> io::Result<()> {
    let frame = Frame {
        title: "explain",
        style: STYLE,
        script: [MODEL, ACTIONS],
        style_hash: STYLE_HASH,
        script_hash: SCRIPT_HASH,
    };
    write_head(output, &frame)?;
    output.write_all(BODY.as_bytes())?;
    write_data(output, page)?;
    write!(output, "</script>\n")?;
    write_end(output, &frame)
}
