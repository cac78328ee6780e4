//! Words that are lost.

use engines::check::check;
use host_file::FileFault;
use std::alloc::{AllocError, Global};
use std::io;
use std::io::Write;
use std::test::Fail;

/// Takes nothing.
#[derive(Drop)]
struct Full;

impl Write for Full {
    fn write(&mut self, _buf: &[u8]) -> io::Result<usize> {
        Err(io::Error::from(io::ErrorKind::StorageFull))
    }

    fn flush(&mut self) -> io::Result<()> {
        Ok(())
    }
}

/// The status of a check of EXIT without a number in R0.
fn checked<W: Write, E: Write>(
    alloc: Global,
    output: &mut W,
    words: &mut E,
) -> Result<u8, FileFault> {
    check(alloc, "9500000000000000", &[], "0", output, words)
}

/// The output of a check whose words are lost.
fn without_words(alloc: Global) -> Result<Vec<u8>, FileFault> {
    let mut output = Vec::new(alloc);
    match checked(alloc, &mut output, &mut Full)? {
        1 => Ok(output),
        _ => Err(FileFault::OutOfMemory(AllocError)),
    }
}

#[test]
fn words_that_are_lost_change_nothing(rt: HostRuntime) -> Result<(), Fail> {
    let output = without_words(rt.alloc())?;
    assert!(rt; output.as_slice() == b"refused 14 UnsetRegister at 0\n".as_slice());
    Ok(())
}
