//! The words of a request.

use command_line::WrongWords;
use host_file::FileFault;
use std::alloc::{AllocError, Global};

/// The words of a line, which single spaces set apart, after the name of a program.
pub fn words_of(alloc: Global, name: &str, line: &str) -> Result<Vec<String>, AllocError> {
    let mut words = Vec::new(alloc);
    words.push(String::from_str(alloc, name)?)?;
    for word in line.split(' ') {
        words.push(String::from_str(alloc, word)?)?;
    }
    Ok(words)
}

/// The fault of words that ask for nothing.
pub fn words_fault(wrong: WrongWords) -> FileFault {
    match wrong {
        WrongWords::Usage(said) => FileFault::Usage(said),
        WrongWords::OutOfMemory(error) => FileFault::OutOfMemory(error),
    }
}
