ghost use Rattle.std.specs.Prelude.{◌≡◌, IfErr, IsOk, OnOk};
ghost use Rattle.host_file.specs.Faults.{IsBad, IsOfWords};
ghost use Rattle.engines.specs.Status.{status_of};

use host_file::FileFault;
use std::alloc::{AllocError, Global};
use std::io;
use std::io::Write;
use terminal_text::is_plain;

/// The exit status: the one that was answered, or 2 for a fault.
pub fn status_of(outcome: &Result<u8, FileFault>) -> u8
    ensures { result ≡ status_of outcome.now }
{
    match outcome {
        Ok(status) => *status,
        Err(_) => 2,
    }
}

/// Writes the words of a fault as whole lines, in which no character steers a terminal. Of an output that nobody reads any
/// more, as after `| head`, the status alone speaks.
pub fn write_fault<W: Write>(
    alloc: Global,
    diagnostics: &mut W,
    fault: &FileFault,
) -> io::Result<()> {
    if is_unread(fault) {
        return Ok(());
    }
    match fault.to_string(alloc) {
        Ok(said) => write_plain(diagnostics, said.as_str().trim_end())?,
        Err(AllocError) => write!(diagnostics, "out of memory")?,
    }
    writeln!(diagnostics)
}

/// Whether a write failed since the reader of a pipe is gone.
fn is_unread(fault: &FileFault) -> bool {
    match fault {
        FileFault::Write(error) => error.kind() == io::ErrorKind::BrokenPipe,
        _ => false,
    }
}

/// Writes a line of the input after a mark. A character of it that steers a terminal is written by its number.
pub fn write_line<W: Write>(output: &mut W, mark: &str, line: &str) -> io::Result<()> {
    output.write_all(mark.as_bytes())?;
    write_plain(output, line)?;
    writeln!(output)
}

/// Writes a text in which a character that steers a terminal is written by its number.
fn write_plain<W: Write>(diagnostics: &mut W, text: &str) -> io::Result<()> {
    for c in text.chars() {
        if is_plain(c) || c == '\n' {
            write!(diagnostics, "{c}")?;
        } else {
            write!(diagnostics, "{}", c.escape_unicode())?;
        }
    }
    Ok(())
}

/// The fault of usage with these words, where there is memory for them.
pub fn usage(said: Result<String, AllocError>) -> FileFault
    ensures { IsOfWords result }
{
    match said {
        Ok(said) => FileFault::Usage(said),
        Err(error) => FileFault::OutOfMemory(error),
    }
}

/// The fault of a write that failed.
pub fn written(outcome: io::Result<()>) -> Result<(), FileFault>
    ensures ok { OnOk result (IsOk outcome) }
    ensures bad { IfErr result (λ fault. ¬ IsBad fault) }
    ensures diagnostics { IfErr result (λ fault. ¬ IsOfWords fault) }
{
    match outcome {
        Ok(()) => Ok(()),
        Err(error) => Err(FileFault::Write(error)),
    }
}
