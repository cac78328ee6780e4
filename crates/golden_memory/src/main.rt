//! Memories of pages that share frames. First the rows of the standard input are answered (`rows.rt`); then operations
//! that are drawn are done to a memory and to the plain program (`drawn.rt`), 1,000 contents are paired, and each is
//! found again (`contents.rt`); at last the plain program counts passes (`passes.rt`). The file `stdout` says what is
//! wanted.
#![tactic(auto)]

mod both;
mod contents;
mod drawn;
mod pages;
mod passes;
mod rows;
mod there;

use contents::print_contents;
use drawn::print_frames;
use passes::print_passes;
use rows::answer_rows;
use std::io;

fn main(rt: HostRuntime) -> io::Result<()> {
    answer_rows(&rt, &mut rt.stdout())?;
    for frames in [3, 4, 16, 256] {
        print_frames(&rt, frames)?;
    }
    print_contents(&rt)?;
    print_passes(&rt)
}
