//! Compares the host with results that the Linux kernel computed, and with worked examples, for the program
//! `golden_results`. A row is four texts between tabs: a name, a program in hex, what it returns, and in how many
//! steps (`-` for any number); a fifth is its context in hex, which is empty where there is none. Its program is
//! decoded, verified by `verify` and by both passes of the plain verifier, and run, and it is run on the plain
//! machine too. So are texts that it becomes by a change: each is refused, or it goes as on the plain machine.
//! They are all its beginnings, and, of the texts with one bit flipped, one for each byte; `changes.rt` says which
//! bit, and which of them the plain verifier verifies too. Trying all bits would take eight times as long and more.
#![tactic(auto)]

mod changes;
mod row;
mod rows;
mod runs;
mod shapes;
mod verdicts;

use changes::all_agree;
use row::Row;
pub use row::text_of;
pub use rows::{Finding, Rows, compare_rows};
use runs::{Outcome, on_the_host, on_the_plain_machine};
pub use shapes::shapes_of;
use std::alloc::{AllocError, Global};
use std::io;
use std::io::Input;
pub use verdicts::verdicts_agree;

/// The rows of results that the kernel or a worked example gives.
#[derive(Drop)]
struct Results;

impl Rows for Results {
    /// Compares the host with the row that a line says; which row it is says how its program is changed.
    fn compare(&mut self, alloc: Global, line: &str, number: usize) -> Result<Finding, AllocError> {
        match Row::parse(alloc, line) {
            Some(row) if agrees(alloc, &row) => {
                if all_agree(alloc, &row, number)? {
                    Ok(Finding::Agrees)
                } else {
                    Ok(Finding::DiffersChanged)
                }
            }
            _ => Ok(Finding::Differs),
        }
    }
}

/// Compares the host with each row of the standard input.
pub fn compare_input(rt: &(impl AllocGlobal + Input + Print)) -> io::Result<()> {
    compare_rows(rt, &mut Results)
}

/// Whether a row's program does what the row says, on the host and on the plain machine alike.
fn agrees(alloc: Global, row: &Row) -> bool {
    let text = row.text.as_slice();
    let context = row.context.as_slice();
    let outcome = on_the_host(alloc, text, context, true);
    outcome == on_the_plain_machine(alloc, text, context) && is_as(row, outcome)
}

/// Whether a program went as a row says.
fn is_as(row: &Row, outcome: Outcome) -> bool {
    match outcome {
        Outcome::Returned { number, steps } => {
            number == row.number && row.steps.is_none_or(|wanted| wanted == steps)
        }
        _ => false,
    }
}
