//! The arena beside the plain list of pages, over calls that a fixed generator draws. Each call's answer
//! and the page that it writes have to be the same on both, and at the end all pages. The file `stdout` has
//! the sum of all answers, as another program reckons it from the same draws.
#![tactic(auto)]

ghost use Rattle.std.specs.Prelude.{◌≡◌, ◌<◌, length};

mod both;
mod draws;
mod plain;

use both::Both;
use std::alloc::{AllocError, Global};
use std::io;

/// How many calls are drawn for each number of frames.
const CALLS: u32 = 10_000;

/// What the calls reported.
enum Verdict {
    /// The same on both: the sum of all answers.
    Same(u64),
    /// The number of the first call after which both differ.
    Differs(u32),
}

/// Both forms of the same pages. Where memory is refused, nothing stays of what was made till then, and they
/// are made at a second try (README.md).
fn made(alloc: Global, frames: u32) -> Result<Both, AllocError>
    requires { 0 < frames }
{
    match Both::new(alloc, frames) {
        Ok(both) => Ok(both),
        Err(AllocError) => Both::new(alloc, frames),
    }
}

/// Draws the calls, and makes each on both.
fn compared(alloc: Global, frames: u32) -> Result<Verdict, AllocError>
    requires { 0 < frames }
{
    let mut both = made(alloc, frames)?;
    let mut sum = 0u64;
    for number in 0..CALLS {
        match both.call() {
            Some(answer) => sum = sum.wrapping_mul(31).wrapping_add(answer),
            None => return Ok(Verdict::Differs(number)),
        }
    }
    if both.agree() {
        Ok(Verdict::Same(sum))
    } else {
        Ok(Verdict::Differs(CALLS))
    }
}

fn main(rt: HostRuntime) -> io::Result<()> {
    for frames in [2, 3, 64] {
        match compared(rt.alloc(), frames) {
            Ok(Verdict::Same(sum)) => {
                println!(rt; "{frames} frames: {CALLS} calls agree, their answers sum up to {sum}")?
            }
            Ok(Verdict::Differs(number)) => println!(rt; "{frames} frames: call {number} differs")?,
            Err(AllocError) => println!(rt; "{frames} frames: no memory")?,
        }
    }
    Ok(())
}
