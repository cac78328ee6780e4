//! Files that are no program.

use std::fmt;

/// The most bytes of a file that is no object.
const MOST: usize = 1 << 20;

/// What a file is that is neither hex text nor the bytes of a program that may be accepted.
#[derive(Clone, Copy, PartialEq, Eq)]
pub enum Other {
    /// It has more bytes than hex text of the longest program, with spaces between its digits.
    Long,
    /// An object file.
    Elf,
    /// Text that begins with a byte order mark.
    Marked,
    /// Hex digits after `0x`.
    Prefixed,
    /// Text with a character that is no hex digit, at a byte of the file.
    Text { character: u8, offset: usize },
}

impl Other {
    /// What the bytes of a file are, if it is one of these. A text that begins with the bytes of the first ones isn't well
    /// formed: no instruction has their opcode, or RSH has an offset.
    pub fn of(bytes: &[u8]) -> Option<Other> {
        match bytes {
            [0x7f, b'E', b'L', b'F', ..] => Some(Other::Elf),
            _ if bytes.len() > MOST => Some(Other::Long),
            [0xef, 0xbb, 0xbf, ..] | [0xff, 0xfe, ..] | [0xfe, 0xff, ..] => Some(Other::Marked),
            _ => Other::of_text(bytes),
        }
    }

    /// The same of text alone: of printed characters and white space. The bytes of an accepted program aren't: its last
    /// instruction is EXIT or a jump, whose opcodes 95, 05 and 06 are no such characters.
    fn of_text(bytes: &[u8]) -> Option<Other> {
        if !bytes.iter().all(is_of_text) {
            return None;
        }
        let offset = bytes.iter().position(is_wrong)?;
        let character = *bytes.get(offset)?;
        let digits = bytes.trim_ascii_start();
        match digits {
            [b'0', b'x' | b'X', ..] if bytes.len() - digits.len() + 1 == offset => {
                Some(Other::Prefixed)
            }
            _ => Some(Other::Text { character, offset }),
        }
    }
}

/// Whether a byte is a character of text.
fn is_of_text(byte: &u8) -> bool {
    byte.is_ascii_graphic() || byte.is_ascii_whitespace()
}

/// Whether a byte of text is no part of hex text.
fn is_wrong(byte: &u8) -> bool {
    !byte.is_ascii_hexdigit() && !byte.is_ascii_whitespace()
}

impl fmt::Display for Other {
    fn fmt<W: fmt::Write>(&self, f: &mut fmt::Formatter<W>) -> fmt::Result {
        match *self {
            Other::Long => write!(f, "it has more than {MOST} bytes"),
            Other::Elf => write!(f, "it is an ELF object; lower its program by `bpf_object`"),
            Other::Marked => write!(
                f,
                "it begins with a byte order mark; write hex digits as plain ASCII"
            ),
            Other::Prefixed => write!(f, "its hex digits begin with `0x`; leave that out"),
            Other::Text { character, offset } => {
                let character = char::from(character);
                write!(
                    f,
                    "it is text, and `{character}` at byte {offset}, counted from 0, is no hex digit"
                )
            }
        }
    }
}
