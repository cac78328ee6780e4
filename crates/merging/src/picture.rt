//! The counters as an SVG picture.

use crate::history::{History, Point};
use crate::line::{LINES, Line};
use std::io;
use std::io::Write;

/// Where the lines stand in the picture. The script of the page has the same numbers.
const LEFT: u64 = 60;

const RIGHT: u64 = 940;

const TOP: u64 = 20;

const BOTTOM: u64 = 320;

/// Writes the picture: a line for each counter, with a legend.
pub fn write_picture<W: Write>(output: &mut W, history: &History) -> io::Result<()> {
    let points = history.points.as_slice();
    let most = greatest(points);
    writeln!(
        output,
        "<svg xmlns=\"http://www.w3.org/2000/svg\" viewBox=\"0 0 960 400\" font-family=\"sans-serif\" font-size=\"13\" role=\"img\" \
        aria-label=\"The counters over the events\">"
    )?;
    writeln!(
        output,
        "<rect class=\"ground\" width=\"960\" height=\"400\" fill=\"white\"/>"
    )?;
    write_axes(output, history, most)?;
    for (number, line) in LINES.iter().enumerate() {
        write_line(output, points, *line, most)?;
        write_legend(output, *line, number as u64)?;
    }
    writeln!(output, "</svg>")
}

/// The greatest number of all lines, at least 1.
fn greatest(points: &[Point]) -> u32 {
    let mut most = 1;
    for point in points {
        for line in LINES {
            most = most.max(line.number(&point.counters));
        }
    }
    most
}

/// Writes the axes, with the numbers at their ends.
fn write_axes<W: Write>(output: &mut W, history: &History, most: u32) -> io::Result<()> {
    writeln!(
        output,
        "<path class=\"axis\" d=\"M{LEFT} {TOP}V{BOTTOM}H{RIGHT}\" fill=\"none\" stroke=\"black\"/>"
    )?;
    writeln!(
        output,
        "<text x=\"52\" y=\"25\" text-anchor=\"end\">{most}</text>"
    )?;
    writeln!(
        output,
        "<text x=\"52\" y=\"325\" text-anchor=\"end\">0</text>"
    )?;
    let events = history.events;
    let noun = if events == 1 { "event" } else { "events" };
    writeln!(
        output,
        "<text x=\"{RIGHT}\" y=\"338\" text-anchor=\"end\">{events} {noun}</text>"
    )
}

/// Writes a line: it goes right to each point at which its number changes, and there up or down.
fn write_line<W: Write>(output: &mut W, points: &[Point], line: Line, most: u32) -> io::Result<()> {
    let name = line.name();
    write!(output, "<path class=\"line {name}\" d=\"M{LEFT} ")?;
    let mut last = None;
    for (at, point) in points.iter().enumerate() {
        let number = line.number(&point.counters);
        let y = height(number, most);
        if last.is_none() {
            write!(output, "{y}")?;
        } else if last != Some(number) {
            write!(output, "H{}V{y}", x_of(at, points.len()))?;
        }
        last = Some(number);
    }
    let style = line.style();
    writeln!(
        output,
        "H{RIGHT}\" fill=\"none\" stroke-width=\"2\" {style}/>"
    )
}

/// Writes what a line is.
fn write_legend<W: Write>(output: &mut W, line: Line, number: u64) -> io::Result<()> {
    let style = line.style();
    let name = line.name();
    let x = LEFT.saturating_add(number % 3 * 220);
    let y = (number / 3).saturating_mul(22).saturating_add(360);
    writeln!(
        output,
        "<path class=\"line {name}\" d=\"M{x} {y}h40\" fill=\"none\" stroke-width=\"2\" {style}/>"
    )?;
    writeln!(
        output,
        "<text x=\"{}\" y=\"{}\">{name}</text>",
        x.saturating_add(50),
        y.saturating_add(5)
    )
}

/// How far right the point of a number stands, of so many.
fn x_of(at: usize, points: usize) -> u64 {
    let wide = (at as u64).saturating_mul(RIGHT - LEFT);
    let last = points.saturating_sub(1).max(1) as u64;
    LEFT.saturating_add(wide / last.max(1))
}

/// How far down a number stands.
fn height(number: u32, most: u32) -> u64 {
    let high = u64::from(number).saturating_mul(BOTTOM - TOP);
    BOTTOM.saturating_sub(high / u64::from(most.max(1)))
}
