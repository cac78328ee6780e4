//! The words that a program was called with.

use host_file::FileFault;
use std::alloc::AllocError;
use std::rt::Env;
use std::{env, io};

/// The words of the command line, the program's name being the first of them.
pub fn words_from<R: AllocGlobal + Env>(rt: &R) -> Result<Vec<String>, FileFault> {
    let alloc = rt.alloc();
    match env::args(rt) {
        Ok(words) => Ok(words.collect(alloc)?),
        Err(error) if error.kind() == io::ErrorKind::OutOfMemory => {
            Err(FileFault::OutOfMemory(AllocError))
        }
        Err(_) => Err(FileFault::Usage(String::from_str(alloc, "the words can't be read")?)),
    }
}
