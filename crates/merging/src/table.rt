//! The counters as a table: a row for each point of the lines.

use crate::history::Point;
use crate::words::Words;
use host_file::Command;
use html_page::write_inert;
use ksm_counters::Counters;
use std::alloc::Global;
use std::io;
use std::io::Write;

const HEAD: &str =
    r##"<div class="box" id="box" tabindex="0" role="region" aria-label="The counters after each event">
<table id="values">
<thead><tr><th>event<th>what it does<th>reply<th>pages_<wbr>shared<th>pages_<wbr>sharing<th>pages_<wbr>unshared<th>pages_<wbr>volatile<th>full_<wbr>scans<th>ksm_zero_<wbr>pages<th>stable_<wbr>node_<wbr>chains<th>stable_<wbr>node_<wbr>dups<th>frames_<wbr>free
<tbody>
"##;

/// Writes the table of the points of a file with these commands.
pub fn write_table<W: Write>(
    alloc: Global,
    output: &mut W,
    commands: &[Command],
    points: &[Point],
) -> io::Result<()> {
    output.write_all(HEAD.as_bytes())?;
    for point in points {
        write_row(alloc, output, commands, point)?;
    }
    write!(output, "</table>\n</div>\n")
}

/// Writes the row of a point.
fn write_row<W: Write>(
    alloc: Global,
    output: &mut W,
    commands: &[Command],
    point: &Point,
) -> io::Result<()> {
    match point.event {
        Some(number) => {
            write!(output, "<tr><td>{number}<td>")?;
            if let Some(command) = commands.get(number) {
                write_command(alloc, output, command)?;
            }
            if let Some((made, count)) = point.visits {
                write!(output, ": {made} of {count}")?;
            }
        }
        None => write!(output, "<tr><td><td>before the first event")?,
    }
    write!(output, "<td>")?;
    let answer = str::from_utf8(point.answer.as_slice()).unwrap_or("");
    for (number, line) in answer.lines().enumerate() {
        if number > 0 {
            write!(output, "<br>")?;
        }
        write_inert(alloc, output, line)?;
    }
    write_counters(output, &point.counters)
}

/// Writes what a command does.
fn write_command<W: Write>(alloc: Global, output: &mut W, command: &Command) -> io::Result<()> {
    let words = format!(in alloc; "{}", Words(command))?;
    write_inert(alloc, output, words.as_str())
}

/// Writes the cells of the counters, in the order of the kernel's manual.
fn write_counters<W: Write>(output: &mut W, counters: &Counters) -> io::Result<()> {
    let Counters {
        pages_shared,
        pages_sharing,
        pages_unshared,
        pages_volatile,
        full_scans,
        ksm_zero_pages,
        stable_node_chains,
        stable_node_dups,
        frames_free,
    } = *counters;
    write!(
        output,
        "<td>{pages_shared}<td>{pages_sharing}<td>{pages_unshared}<td>{pages_volatile}<td>{full_scans}<td>{ksm_zero_pages}"
    )?;
    writeln!(
        output,
        "<td>{stable_node_chains}<td>{stable_node_dups}<td>{frames_free}"
    )
}
