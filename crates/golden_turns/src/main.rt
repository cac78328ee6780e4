//! Rows of turns, seats and threads: what no contract of `turn` and `tenant_workers` says, as that a call succeeds
//! where memory is there, that visits act, and that others have their turns between the instructions of a run. A
//! line has the name of a row and what was answered; the file `stdout` says what is wanted.
#![tactic(auto)]

mod calls;
mod copy;
mod drops;
mod ends;
mod gates;
mod numbers;
mod refused;
mod serve;
mod tenants;
mod turns;
mod wakes;

use host_types::Fault;
use std::fmt::Debug;
use std::io;

/// Writes the name of a row and its answer, or why there was none.
fn print<T: Debug + Drop>(rt: &impl Print, name: &str, answer: Result<T, Fault>) -> io::Result<()> {
    match answer {
        Ok(answer) => println!(rt; "{name}: {answer:?}"),
        Err(fault) => println!(rt; "{name}: {fault}"),
    }
}

fn main(rt: HostRuntime) -> io::Result<()> {
    if !wakes::print_rows(rt)? {
        return Ok(());
    }
    turns::print_rows(&rt)?;
    ends::print_rows(&rt)?;
    calls::print_rows(&rt)?;
    refused::print_rows(&rt)?;
    gates::print_rows(&rt)?;
    copy::print_row(&rt)?;
    drops::print_row(&rt)?;
    serve::print_rows(&rt)
}
