//! What is printed where a request is answered.

use crate::asked::Asked;
use host_file::FileFault;
use std::alloc::Global;
use std::io::Read;
use std::sync::Wait;
use std::thread::Threads;

/// What goes to the standard output and to standard error.
#[derive(Drop)]
pub(crate) struct Printed {
    pub(crate) output: Vec<u8>,
    pub(crate) words: Vec<u8>,
}

impl Printed {
    /// Nothing yet.
    pub(crate) fn new(alloc: Global) -> Printed {
        Printed {
            output: Vec::new(alloc),
            words: Vec::new(alloc),
        }
    }

    /// Takes what a request is answered.
    pub(crate) fn take<T, R>(
        &mut self,
        rt: &T,
        asked: Asked,
        reader: &mut R,
    ) -> Result<u8, FileFault>
    where
        T: AllocGlobal + Threads + Wait + Sync,
        R: Read,
    {
        asked.answer(rt, reader, &mut self.output, &mut self.words)
    }
}
