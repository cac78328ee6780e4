use std::alloc::Global;
use std::str::Split;

/// A result that the kernel computed: what a program returns, and, where it has no jump, in how many
/// steps. A row of a worked example may give it a context.
#[derive(Drop)]
pub(crate) struct Row {
    pub text: Vec<u8>,
    pub context: Vec<u8>,
    pub number: u64,
    pub steps: Option<u32>,
}

impl Row {
    /// The row that a line says. `None` if the line is no row, or where memory ran out.
    pub(crate) fn parse(alloc: Global, line: &str) -> Option<Row> {
        let (text, mut texts) = text_of(alloc, line)?;
        let number = texts.next()?.parse().ok()?;
        let steps = match texts.next()? {
            "-" => None,
            steps => Some(steps.parse().ok()?),
        };
        let context = match texts.next() {
            Some(context) => hex::decode(alloc, context).ok()?,
            None => Vec::new(alloc),
        };
        Some(Row {
            text,
            context,
            number,
            steps,
        })
    }
}

/// The program in hex that stands between tabs after a line's name, and the texts after it. `None` if there is none,
/// or where memory ran out.
pub fn text_of<'a>(alloc: Global, line: &'a str) -> Option<(Vec<u8>, Split<'a, char>)> {
    let mut texts = line.split('\t');
    let _name = texts.next()?;
    let text = hex::decode(alloc, texts.next()?).ok()?;
    Some((text, texts))
}
