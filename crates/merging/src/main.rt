//! The program `merging` (docs/MERGING.md): the counters of merging over the events of a host file, as an HTML page or as an SVG
//! picture. With no words it answers each line of the standard input, whose words spaces set apart.
#![tactic(auto)]

mod answer;
mod history;
mod line;
mod page;
mod picture;
mod policy;
mod script;
mod style;
mod table;
mod thinned;
mod words;

use answer::Merging;
use engines::{status_of, write_fault};
use program_source::run;
use std::io;
use std::process::ExitCode;

fn main(rt: HostRuntime) -> ExitCode {
    let stderr = rt.stderr();
    let mut errors = io::writer(&stderr);
    let outcome = run::<Merging, _, _>(&rt, &mut errors);
    if let Err(fault) = &outcome {
        // The status says it too: the words may be lost.
        let _ = write_fault(rt.alloc(), &mut errors, fault);
    }
    ExitCode::from(status_of(&outcome))
}
