//! Compares the host with results that the Linux kernel computed, of programs without jumps, with jumps, and
//! random ones, and then with worked examples. Each block of standard input has a line of names and then the rows.
#![tactic(auto)]

use golden_compared::compare_input;
use std::io;

fn main(rt: HostRuntime) -> io::Result<()> {
    compare_input(&rt)
}
