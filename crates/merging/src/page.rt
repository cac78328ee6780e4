//! The page: the picture, and the table of its points, which the script reads too.

use crate::history::History;
use crate::picture::write_picture;
use crate::policy::{SCRIPT_HASH, STYLE_HASH};
use crate::script::SCRIPT;
use crate::style::STYLE;
use crate::table::write_table;
use host_file::HostFile;
use html_page::{Frame, write_end, write_head, write_inert};
use std::alloc::Global;
use std::io;
use std::io::Write;
use terminal_text::quoted;

/// What a page shows.
#[derive(Clone, Copy)]
pub struct Page<'a> {
    /// Where memory comes from.
    pub alloc: Global,
    /// The path of the host file.
    pub path: &'a str,
    pub file: &'a HostFile,
    pub history: &'a History,
}

/// Writes a page.
pub fn write_page<W: Write>(output: &mut W, page: &Page<'_>) -> io::Result<()> {
    let frame = Frame {
        title: "merging",
        style: STYLE,
        script: [SCRIPT, ""],
        style_hash: STYLE_HASH,
        script_hash: SCRIPT_HASH,
    };
    write_head(output, &frame)?;
    write_header(output, page)?;
    write!(output, "<main>\n<figure id=\"figure\">\n")?;
    write_picture(output, page.history)?;
    write!(output, "</figure>\n<section id=\"now\"></section>\n")?;
    let commands = page.file.commands.as_slice();
    let points = page.history.points.as_slice();
    write_table(page.alloc, output, commands, points)?;
    write!(output, "</main>\n")?;
    write_end(output, &frame)
}

/// Writes a path, as what it is.
fn write_path<W: Write>(output: &mut W, alloc: Global, path: &str) -> io::Result<()> {
    let path = quoted(alloc, path)?;
    write_inert(alloc, output, path.as_str())
}

/// Writes what the page is of, and which steps have a row.
fn write_header<W: Write>(output: &mut W, page: &Page<'_>) -> io::Result<()> {
    write!(
        output,
        "<header>\n<h1>Merging over the events of <span class=\"program\" id=\"name\">"
    )?;
    write_path(output, page.alloc, page.path)?;
    let HostFile {
        tenants,
        frames,
        ..
    } = page.file;
    let History {
        events,
        steps,
        stride,
        ..
    } = page.history;
    write!(
        output,
        "</span></h1>\n<p class=\"facts\">Tenants: {tenants} &middot; frames: {frames} &middot; events: {events}"
    )?;
    if *stride > 1 {
        write!(
            output,
            " &middot; of {steps} events and visits one in {stride} has a row, and the last"
        )?;
    }
    write!(output, "</p>\n</header>\n")
}
