//! The bytes of an object file.

use crate::fault::Fault;
use std::alloc::AllocError;
use std::fs;
use std::io::{self, Read};
use std::rt::Files;
use terminal_text::quoted;

/// One byte more than an object file may have.
const MOST: u64 = (1 << 24) + 1;

/// The bytes of the file at a path, at most one more than it may have.
pub fn bytes_at<R: AllocGlobal + Files>(rt: &R, path: &str) -> Result<Vec<u8>, Fault> {
    match read(rt, path) {
        Ok(bytes) => Ok(bytes),
        Err(error) if error.kind() == io::ErrorKind::OutOfMemory => {
            Err(Fault::OutOfMemory(AllocError))
        }
        Err(error) => {
            let alloc = rt.alloc();
            let path = quoted(alloc, path)?;
            Err(Fault::Usage(format!(in alloc; "cannot read {path}: {error}")?))
        }
    }
}

fn read<R: AllocGlobal + Files>(rt: &R, path: &str) -> io::Result<Vec<u8>> {
    let mut file = fs::open(rt, path)?;
    let mut bytes = Vec::new(rt.alloc());
    let mut front = file.take(MOST);
    front.read_to_end(&mut bytes)?;
    Ok(bytes)
}
