//! Prints the tables of refusals, to which docs/GUIDE.md refers. The gate compares what is printed with
//! the file `stdout` of this crate, which is the document.
#![tactic(auto)]

ghost use Rattle.std.specs.Prelude.{◌≡◌, ◌↔◌, IfSome, IsSome, IsTrue};
ghost use Rattle.advice.specs.Answered.{is_answered};
ghost use Rattle.host_types.specs.Refusals.{fault_number};

mod text;

use advice::advice_on;
use host_types::{Fault, Refused};
use std::io;
use text::print_instructions;

/// What stands above the rows.
const HEAD: &str = "# Refusals\n\n\
    What is wrong where the host or `check` refuses something, and how to fix it. docs/HOST.md says when\n\
    they do.\n\n\
    | number | name | what is wrong | how to fix it |\n\
    |---|---|---|---|";

/// The largest number of a refusal.
const LAST: u32 = 45;

/// The refusal by a number that can be answered.
fn fault_of(number: u32) -> Option<Fault>
    ensures answered { IsSome result ↔ IsTrue (is_answered number) }
    ensures number { IfSome result (λ fault. fault_number fault ≡ number) }
{
    match number {
        1..=5 | 11..=25 => Some(Fault::Program(Refused { number, slot: 0 })),
        31 => Some(Fault::NoFrames { need: 0, have: 0 }),
        32 => Some(Fault::TooManyMaps),
        33 => Some(Fault::BadShape),
        34 => Some(Fault::NoMap),
        35 => Some(Fault::NoElement),
        36 => Some(Fault::Busy),
        37 => Some(Fault::NoRun),
        38 => Some(Fault::NoProgram),
        39 => Some(Fault::BadContext),
        40 => Some(Fault::BadOption),
        41 => Some(Fault::OutOfMemory),
        42 => Some(Fault::BadTenant),
        43 => Some(Fault::InUse),
        44 => Some(Fault::PagesShared),
        45 => Some(Fault::TooManyPrograms),
        _ => None,
    }
}

fn main(rt: HostRuntime) -> io::Result<()> {
    println!(rt; "{HEAD}")?;
    for number in 1..=LAST {
        if let (Some(fault), Some(advice)) = (fault_of(number), advice_on(number)) {
            let name = fault.name();
            let wrong = advice.wrong;
            let fix = advice.fix;
            println!(rt; "| {number} | {name} | {wrong} | {fix} |")?;
        }
    }
    print_instructions(&rt)
}
