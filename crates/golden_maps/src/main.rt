//! Programs that use maps, by the decoder, the verifier and the interpreter on pages that share frames, and
//! beside them by the plain verifier and the plain machine on flat lists. A row of the standard input says
//! what a program is to answer and to leave in its maps (`row.rt`); it is run on pages of their own, on
//! merged pages and on pages of the zero frame. Where its maps are small, so is each text that its program
//! becomes by a cut at a byte or by the flip of a bit: it is refused, or it goes as on the plain machine.
//! Beside the rows, a byte is loaded at offsets of some maps' first values (`offsets.rt`). With a number as its
//! one argument the program draws so many changed texts of each such row instead, and verifies them by the
//! plain verifier too.
#![tactic(auto)]

mod changes;
mod drawn;
mod fixture;
mod offsets;
mod pages;
mod row;
mod runs;

use changes::{is_small, texts_that_agree};
use drawn::Drawn;
use golden_compared::{Finding, Rows, compare_rows};
use offsets::agreeing_offsets;
use row::Row;
use runs::{Outcome, agrees};
use std::alloc::{AllocError, Global};
use std::io;
use std::io::Input;
use tests_inputs::rounds_of;

/// Texts that a row's program becomes by changes.
trait OtherTexts {
    /// Compares such texts of a row that agrees.
    fn compare_changed(&mut self, alloc: Global, row: &Row) -> Result<Finding, AllocError>;
}

/// Compares the programs of rows, and then texts that they become.
#[derive(Drop)]
struct Comparing<C: Drop> {
    changes: C,
}

impl<C: OtherTexts + Drop> Rows for Comparing<C> {
    /// Compares the programs of a row.
    fn compare(
        &mut self,
        alloc: Global,
        line: &str,
        _number: usize,
    ) -> Result<Finding, AllocError> {
        match Row::parse(alloc, line) {
            Some(row) if agrees(alloc, &row) => self.changes.compare_changed(alloc, &row),
            _ => Ok(Finding::Differs),
        }
    }
}

/// How many changed texts are refused or go alike.
#[derive(Drop)]
struct Changed {
    texts: usize,
}

impl OtherTexts for Changed {
    /// Compares the texts that a row's program becomes, and counts those that go alike.
    fn compare_changed(&mut self, alloc: Global, row: &Row) -> Result<Finding, AllocError> {
        if !is_small(&row.fixture) {
            return Ok(Finding::Agrees);
        }
        match texts_that_agree(alloc, &row.fixture, row.text.as_slice())? {
            Some(texts) => {
                self.texts = self.texts.saturating_add(texts);
                Ok(Finding::Agrees)
            }
            None => Ok(Finding::DiffersChanged),
        }
    }
}

/// So many texts that are drawn of each row's program.
#[derive(Drop)]
struct Drawing {
    texts: u32,
    drawn: Drawn,
}

impl OtherTexts for Drawing {
    /// Draws texts of a row's program, where it is accepted on small maps.
    fn compare_changed(&mut self, alloc: Global, row: &Row) -> Result<Finding, AllocError> {
        if !is_small(&row.fixture) || matches!(row.wanted, Outcome::Refused(_)) {
            return Ok(Finding::Agrees);
        }
        let text = row.text.as_slice();
        if self.drawn.agree(alloc, &row.fixture, text, self.texts)? {
            Ok(Finding::Agrees)
        } else {
            Ok(Finding::DiffersChanged)
        }
    }
}

/// Compares all rows, and texts that their programs become.
fn compared<C: OtherTexts + Drop>(
    rt: &(impl AllocGlobal + Input + Print),
    changes: C,
) -> io::Result<C> {
    let mut comparing = Comparing { changes };
    compare_rows(rt, &mut comparing)?;
    Ok(comparing.changes)
}

fn main(rt: HostRuntime) -> io::Result<()> {
    if let Some(texts) = rounds_of(&rt)? {
        let drawing = Drawing {
            texts,
            drawn: Drawn::new(),
        };
        return compared(&rt, drawing)?.drawn.print(&rt);
    }
    let changed = compared(&rt, Changed { texts: 0 })?;
    println!(rt; "{} changed texts are refused or agree", changed.texts)?;
    let offsets = agreeing_offsets(rt.alloc());
    println!(rt; "{offsets} of 52 offsets in a first value agree")
}
