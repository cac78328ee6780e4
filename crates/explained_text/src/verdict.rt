//! What `check` says of a text.

use engines::check::{CheckRequest, answer_request};
use host_file::FileFault;
use std::alloc::Global;

/// What `check` writes of a text.
#[derive(Drop)]
pub struct VerdictWords {
    /// The line of its verdict.
    pub line: Vec<u8>,
    /// What a refusal means.
    pub meant: Vec<u8>,
    /// The status of `check`.
    pub status: u8,
}

impl VerdictWords {
    /// Verifies a text that is asked for.
    pub fn of(alloc: Global, asked: &CheckRequest) -> Result<VerdictWords, FileFault> {
        let mut line = Vec::new(alloc);
        let mut meant = Vec::new(alloc);
        let status = answer_request(alloc, asked, &mut line, &mut meant)?;
        Ok(VerdictWords {
            line,
            meant,
            status,
        })
    }
}
