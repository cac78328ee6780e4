//! A row: what a program finds, and what it is to do.

use crate::fixture::{Fixture, Value};
use crate::runs::Outcome;
use golden_compared::{shapes_of, text_of};
use host_types::Refused;
use std::alloc::Global;

/// A program, what it finds, its answer, and the values that it leaves other than it found them.
#[derive(Drop)]
pub(crate) struct Row {
    pub text: Vec<u8>,
    pub fixture: Fixture,
    pub wanted: Outcome,
    pub after: Vec<Value>,
}

impl Row {
    /// The row of a line of texts between tabs: a name, the program and its context in hex, the shapes
    /// of its maps, values in them, the answer, and values afterwards; what comes then says why. `None`
    /// if the line is no row, or where memory ran out.
    pub(crate) fn parse(alloc: Global, line: &str) -> Option<Row> {
        let (text, mut texts) = text_of(alloc, line)?;
        let context = hex::decode(alloc, texts.next()?).ok()?;
        let shapes = texts.next()?;
        let values = values_of(alloc, texts.next()?)?;
        let wanted = outcome_of(texts.next()?)?;
        let after = values_of(alloc, texts.next()?)?;
        Some(Row {
            text,
            fixture: fixture_of(alloc, shapes, values, context)?,
            wanted,
            after,
        })
    }
}

/// What a run finds, where the shapes of its maps are given between spaces. `None` where memory ran out.
pub(crate) fn fixture_of(
    alloc: Global,
    shapes: &str,
    values: Vec<Value>,
    context: Vec<u8>,
) -> Option<Fixture> {
    match shapes_of(alloc, shapes) {
        Ok(shapes) => Some(Fixture::new(shapes, values, context)),
        Err(_) => None,
    }
}

/// The answer that is written `ret NUMBER steps STEPS` or `refused NUMBER at SLOT`.
fn outcome_of(text: &str) -> Option<Outcome> {
    let mut words = text.split(' ');
    let kind = words.next()?;
    let number: u64 = words.next()?.parse().ok()?;
    let _word = words.next()?;
    let count: u32 = words.next()?.parse().ok()?;
    match kind {
        "ret" => Some(Outcome::Returned {
            number,
            steps: count,
        }),
        "refused" => Some(Outcome::Refused(Refused {
            number: u32::try_from(number).ok()?,
            slot: count,
        })),
        _ => None,
    }
}

/// The values that are written `MAP:KEY:HEX` between spaces.
fn values_of(alloc: Global, given: &str) -> Option<Vec<Value>> {
    let mut values = Vec::new(alloc);
    for text in given.split(' ') {
        if !text.is_empty() {
            values.push(value_of(alloc, text)?).ok()?;
        }
    }
    Some(values)
}

/// A value that is written `MAP:KEY:HEX`.
fn value_of(alloc: Global, text: &str) -> Option<Value> {
    let mut parts = text.split(':');
    let map = parts.next()?.parse().ok()?;
    let key = parts.next()?.parse().ok()?;
    let bytes = hex::decode(alloc, parts.next()?).ok()?;
    Some(Value { map, key, bytes })
}
