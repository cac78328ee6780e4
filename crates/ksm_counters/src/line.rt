ghost use Rattle.std.specs.Prelude.{◌≡◌, [], OnErr, OnOk};
ghost use Rattle.std.specs.Io.KnownBytes.{Appends, WriteAppends};
ghost use Rattle.std.specs.Io.{WritesAtMost};
ghost use Rattle.ksm_counters.specs.Counters.{line_before};
ghost use Rattle.ksm_counters.specs.Lines.{AppendsBeginning, lines_text};

use itoa::Buffer;
use std::io;
use std::io::{ErrorKind, Write};

/// A counter with its name.
#[derive(Clone, Copy)]
pub(crate) struct Line {
    pub name: &'static str,
    pub value: u64,
}

impl Line {
    /// The line of a counter of 32 bits.
    pub(crate) fn of(name: &'static str, value: u32) -> Line
        ensures name { result.name.now ≡ name.now }
        ensures value { result.value ≡ value }
    {
        Line {
            name,
            value: u64::from(value),
        }
    }

    /// Writes the line.
    pub(crate) fn write<W: Write>(&self, writer: &mut W) -> io::Result<()>
        ensures line { OnOk result (Appends (W.contents writer.old) (W.contents writer.new) (line_before self.now.name.now self.now.value [])) }
        ensures beginning { OnErr result (AppendsBeginning (W.contents writer.old) (W.contents writer.new) (line_before self.now.name.now self.now.value [])) }
    {
        let mut digits = Buffer::new();
        write_whole(writer, self.name.as_bytes())?;
        write_whole(writer, b" ")?;
        write_whole(writer, digits.format(self.value).as_bytes())?;
        write_whole(writer, b"\n")
    }
}

/// Writes some lines.
pub(crate) fn write_lines<W: Write>(lines: &[Line], writer: &mut W) -> io::Result<()>
    ensures lines { OnOk result (Appends (W.contents writer.old) (W.contents writer.new) (lines_text lines.now)) }
    ensures beginning { OnErr result (AppendsBeginning (W.contents writer.old) (W.contents writer.new) (lines_text lines.now)) }
{
    for line in lines {
        line.write(writer)?;
    }
    Ok(())
}

/// Writes all the bytes, by as many writes as the writer needs.
fn write_whole<W: Write>(writer: &mut W, bytes: &[u8]) -> io::Result<()>
    ensures whole { OnOk result (Appends (W.contents writer.old) (W.contents writer.new) bytes.now) }
    ensures beginning { OnErr result (AppendsBeginning (W.contents writer.old) (W.contents writer.new) bytes.now) }
{
    let mut written = 0;
    while written < bytes.len() {
        match write_uninterrupted(writer, &bytes[written..])? {
            0 => return Err(io::Error::from(ErrorKind::WriteZero)),
            taken => written += taken,
        }
    }
    Ok(())
}

/// One write, made again while a signal interrupts it. The last answer is handed on as it is.
fn write_uninterrupted<W: Write>(writer: &mut W, bytes: &[u8]) -> io::Result<usize>
    ensures bound { WritesAtMost result bytes.now }
    ensures bytes { WriteAppends (W.contents writer.old) (W.contents writer.new) result bytes.now }
{
    for _again in 0..u64::MAX {
        match writer.write(bytes) {
            Err(fault) if fault.kind() == ErrorKind::Interrupted => {}
            answer => return answer,
        }
    }
    writer.write(bytes)
}
