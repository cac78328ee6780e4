//! The program `lower` (docs/LOWER.md): a text with the same runs as a given one that the verifier accepts, by blocks in
//! another order and copies of loops. With no words it answers each line of the standard input, whose words spaces set
//! apart.
#![tactic(auto)]

mod lowered;
mod stats;

use engines::{status_of, write_fault};
use lowered::Lower;
use program_source::run;
use std::io;
use std::process::ExitCode;

fn main(rt: HostRuntime) -> ExitCode {
    let stderr = rt.stderr();
    let mut errors = io::writer(&stderr);
    let outcome = run::<Lower, _, _>(&rt, &mut errors);
    if let Err(fault) = &outcome {
        // The status says it too: the words may be lost.
        let _ = write_fault(rt.alloc(), &mut errors, fault);
    }
    ExitCode::from(status_of(&outcome))
}
