//! The lowering of a program as the words of `check` name it.

use crate::asked::lowered;
use crate::stop::{write_refused, write_stop};
use engines::check::{CheckRequest, answer_request, check_request_of};
use engines::written;
use host_file::FileFault;
use lowering::{Lowered, NotLowered, Stop};
use std::alloc::{AllocError, Global};
use std::io::Write;

/// A program as the words of `check` name it: its hex text, the shapes of its maps, and the size of its context.
#[derive(Clone, Copy)]
pub struct ProgramWords<'a> {
    pub hex: &'a str,
    pub shapes: &'a [&'a str],
    pub context: &'a str,
}

/// What words asked for, and what the lowering made of it.
#[derive(Drop)]
pub struct LoweredProgram {
    pub request: CheckRequest,
    pub lowered: Lowered,
}

impl ProgramWords<'_> {
    /// Lowers the program. Of one that isn't lowered `errors` gets the line of `check`, what that means, and what stopped
    /// the lowering.
    pub fn lower<E: Write>(
        &self,
        alloc: Global,
        errors: &mut E,
    ) -> Result<Option<LoweredProgram>, FileFault> {
        let request = check_request_of(alloc, self.hex, self.shapes, self.context)?;
        match lowered(alloc, &request) {
            Some(Ok(lowered)) => Ok(Some(LoweredProgram { request, lowered })),
            Some(Err(stopped)) => {
                if stopped.stop == Stop::OutOfMemory {
                    return Err(FileFault::OutOfMemory(AllocError));
                }
                refuse(alloc, &request, Some(&stopped), errors)?;
                written(write_stop(request.text.as_slice(), &stopped, errors))?;
                Ok(None)
            }
            None => {
                refuse(alloc, &request, None, errors)?;
                Ok(None)
            }
        }
    }
}

/// Writes the line of `check`, and what a refusal means, also where it isn't known what stopped the lowering.
fn refuse<E: Write>(
    alloc: Global,
    request: &CheckRequest,
    stopped: Option<&NotLowered>,
    errors: &mut E,
) -> Result<(), FileFault> {
    let mut line = Vec::new(alloc);
    let mut meant = Vec::new(alloc);
    match stopped {
        Some(stopped) => write_refused(alloc, request, stopped, &mut line, &mut meant)?,
        None => {
            let _status = answer_request(alloc, request, &mut line, &mut meant)?;
        }
    }
    written(errors.write_all(line.as_slice()))?;
    written(errors.write_all(meant.as_slice()))
}
