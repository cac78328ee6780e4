use std::io;
use std::io::Write;

/// Whether parts of a line have colours, as on a terminal.
#[derive(Clone, Copy, PartialEq, Eq)]
pub enum Paint {
    Plain,
    Colours,
}

/// What a part of a line is.
#[derive(Clone, Copy, PartialEq, Eq)]
pub enum Part {
    /// A slot's number and bytes, or that it isn't reached.
    Beside,
    Instruction,
    /// A line of a source.
    Source,
    /// What is known.
    Known,
    /// What was known on edges that join, and isn't the same on each.
    Differs,
    /// What is refused.
    Refused,
}

impl Part {
    /// Its colour, as a terminal takes it: none for an instruction.
    fn colour(self) -> Option<u8> {
        match self {
            Part::Beside => Some(2),
            Part::Instruction => None,
            Part::Source => Some(32),
            Part::Known => Some(36),
            Part::Differs => Some(33),
            Part::Refused => Some(31),
        }
    }
}

impl Paint {
    /// Writes a part of a line.
    pub fn write<W: Write>(self, output: &mut W, part: Part, text: &str) -> io::Result<()> {
        match (self, part.colour()) {
            (Paint::Colours, Some(colour)) => write!(output, "\u{1b}[{colour}m{text}\u{1b}[0m"),
            _ => output.write_all(text.as_bytes()),
        }
    }
}
