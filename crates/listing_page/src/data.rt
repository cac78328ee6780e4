//! The data of a page: one JSON object.

use crate::page::Page;
use crate::row::Rows;
use html_page::{write_comma, write_string};
use listing::Listing;
use std::io;
use std::io::Write;

/// Writes the data of a page.
pub fn write_data<W: Write>(output: &mut W, page: &Page<'_>) -> io::Result<()> {
    let alloc = page.alloc;
    write!(output, "{{\"program\":")?;
    write_string(alloc, output, page.program)?;
    write!(output, ",\"verdict\":")?;
    write_string(alloc, output, page.verdict)?;
    write!(output, ",\"said\":")?;
    write_string(alloc, output, page.said)?;
    write!(output, ",\"note\":")?;
    write_string(alloc, output, page.note)?;
    write!(output, ",\"context\":")?;
    write_string(alloc, output, page.context)?;
    write!(output, ",\"maps\":[")?;
    for (map, shape) in page.shapes.iter().enumerate() {
        write_comma(output, map)?;
        write_string(alloc, output, shape)?;
    }
    write!(
        output,
        "],\"accepted\":{},\"lowered\":{},\"all\":{}",
        page.is_accepted, page.is_lowered, page.shows_all
    )?;
    match page.listing {
        Some(listing) => write_rows(output, listing, !page.note.is_empty())?,
        None => write!(output, ",\"slots\":0,\"rows\":[]")?,
    }
    write!(output, "}}")
}

/// Writes the rows of a listing: those up to a refused slot, and then the slots after it that break a rule too. It is also known whether
/// the lowering of the text was stopped.
fn write_rows<W: Write>(
    output: &mut W,
    listing: &Listing<'_>,
    is_unlowered: bool,
) -> io::Result<()> {
    write!(output, ",\"slots\":{},\"rows\":[", listing.slots())?;
    let mut rows = Rows::new(listing, is_unlowered)?;
    for row in &listing.rows()? {
        rows.write_row(output, *row)?;
    }
    for refused in &listing.further()? {
        rows.write_further(output, *refused)?;
    }
    write!(output, "]")
}
