//! The rows of the input, and what is found of each.

use std::alloc::{AllocError, Global};
use std::io;
use std::io::Input;

/// What a line of names begins with.
const NAMES: &str = "name\t";

/// What is found of a row.
pub enum Finding {
    /// It goes as it says, and so do the texts that its program becomes by a change.
    Agrees,
    /// It is no row, or its program does something else.
    Differs,
    /// Of the texts that its program becomes by a change one doesn't go alike.
    DiffersChanged,
}

/// How a row is compared with what it says.
pub trait Rows {
    /// Compares the row that a line says, with its number from 1 on.
    fn compare(&mut self, alloc: Global, line: &str, number: usize) -> Result<Finding, AllocError>;
}

/// How many rows of a block were compared, and how many of them agree.
#[derive(Clone, Copy)]
struct Count {
    rows: usize,
    agreed: usize,
}

impl Count {
    const NONE: Count = Count { rows: 0, agreed: 0 };
}

/// Compares each row of the standard input, whose blocks of rows begin with a line of names. Each row that differs
/// is a line of the output, and the last line of a block counts the rows that agree.
pub fn compare_rows(
    rt: &(impl AllocGlobal + Input + Print),
    rows: &mut impl Rows,
) -> io::Result<()> {
    let mut count = Count::NONE;
    for line in rt.lines(rt.alloc()).skip(1) {
        compare_line(rt, rows, &mut count, line?.as_str())?;
    }
    print_count(rt, count)
}

/// Compares the row that a line says. A line of names ends the block before it.
fn compare_line(
    rt: &(impl AllocGlobal + Print),
    rows: &mut impl Rows,
    count: &mut Count,
    line: &str,
) -> io::Result<()> {
    if line.starts_with(NAMES) {
        print_count(rt, *count)?;
        *count = Count::NONE;
        return Ok(());
    }
    count.rows = count.rows.saturating_add(1);
    match rows.compare(rt.alloc(), line, count.rows)? {
        Finding::Agrees => count.agreed = count.agreed.saturating_add(1),
        Finding::Differs => println!(rt; "differs: {line}")?,
        Finding::DiffersChanged => println!(rt; "differs when it is changed: {line}")?,
    }
    Ok(())
}

/// Prints the last line of a block.
fn print_count(rt: &impl Print, count: Count) -> io::Result<()> {
    let Count { rows, agreed } = count;
    println!(rt; "{agreed} of {rows} rows agree")
}
