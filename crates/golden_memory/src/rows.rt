//! The rows of the standard input. Each is a line that says what is done to the memory at hand, in words between
//! spaces; it is printed, and after it what was answered:
//!
//!     memory FRAMES TENANTS                 a new memory, with the standard options
//!     map TENANT VALUE_SIZE ENTRIES         a map whose pages may be merged
//!     fixed TENANT VALUE_SIZE ENTRIES       a map whose pages may not
//!     drop TENANT MAP                       a map is taken away
//!     begin TENANT FRAMES                   a run of the tenant begins, for which frames are reserved
//!     end TENANT                            its run ends
//!     unpinned TENANT                       how many pages of the tenant's first map aren't pinned
//!     store TENANT VALUE                    eight bytes at the beginning of the tenant's first map
//!     fill TENANT AT LEN BYTE               bytes of the tenant's first map
//!     look TENANT AT                        the number in eight bytes of the tenant's first map
//!     needs TENANT AT LEN                   how many frames a store there takes, of those that are there
//!     pair TENANT PAGE TENANT PAGE          two pages of first maps on one frame
//!     zero TENANT PAGE                      a page of a first map on the frame of zeros
//!     visit COUNT                           what each visit did
//!     unmerge, counters                     everything unmerged; the nine counters
//!     OPTION VALUE                          an option, by its name

use crate::pages::{begin, cost, end, fill, number_at, page, pair, zero};
use host_types::{Fault, Opt, Options};
use ksm_counters::{counters, text};
use page_table::Memory;
use scanner::{set, unmerge_all, visit};
use std::alloc::Global;
use std::io;
use std::io::{Input, Write};
use write_break::{needs, store};

/// The numbers after the first word of a line; one that isn't there is 0.
#[derive(Clone, Copy)]
struct Numbers {
    first: u32,
    second: u32,
    third: u32,
    fourth: u32,
}

/// The number that a word is, else 0.
fn number(word: Option<&str>) -> u32 {
    match word.unwrap_or("").parse() {
        Ok(number) => number,
        Err(_) => 0,
    }
}

/// Stores a value into the first eight bytes of a tenant's first map, where they and the frames are there.
fn store_first(memory: &mut Memory, tenant: u32, value: u32) {
    if memory.byte_len(tenant, 0) < 8 {
        return;
    }
    if needs(memory, tenant, 0, 0, 8) > memory.have() {
        return;
    }
    store(memory, tenant, 0, 0, 8, u64::from(value));
}

/// Puts a new memory in place of another one.
fn renew(alloc: Global, memory: &mut Memory, frames: u32, tenants: u32) -> Result<(), Fault> {
    *memory = Memory::new(alloc, frames, tenants, Options::standard())?;
    Ok(())
}

/// Makes a map.
fn add_map(memory: &mut Memory, numbers: &Numbers, mergeable: bool) -> Result<(), Fault> {
    memory.create_map(numbers.first, numbers.second, numbers.third, mergeable)?;
    Ok(())
}

/// Writes what each of some visits did.
fn visits<W: Write>(writer: &mut W, memory: &mut Memory, count: u32) -> io::Result<()> {
    for _visit in 0..count {
        let visited = visit(memory);
        writeln!(writer, "{visited:?}")?;
    }
    Ok(())
}

/// Writes a refusal.
fn print<W: Write>(writer: &mut W, outcome: Result<(), Fault>) -> io::Result<()> {
    match outcome {
        Ok(()) => Ok(()),
        Err(fault) => writeln!(writer, "{fault}"),
    }
}

/// Writes whether something was done that may not be.
fn print_done<W: Write>(writer: &mut W, done: bool) -> io::Result<()> {
    if done {
        return Ok(());
    }
    writeln!(writer, "not done")
}

/// Writes the number in eight bytes, where they are there.
fn look<W: Write>(writer: &mut W, memory: &Memory, numbers: &Numbers) -> io::Result<()> {
    match number_at(memory, numbers.first, numbers.second) {
        Some(number) => writeln!(writer, "{number:#x}"),
        None => writeln!(writer, "not there"),
    }
}

/// Writes how many frames a store takes, of those that are free and not reserved.
fn print_cost<W: Write>(writer: &mut W, memory: &Memory, numbers: &Numbers) -> io::Result<()> {
    match cost(memory, numbers.first, numbers.second, numbers.third) {
        Some(cost) => writeln!(writer, "{cost} of {}", memory.have()),
        None => writeln!(writer, "not there"),
    }
}

/// Does to single pages what a line says, and writes what is answered; another verb sets an option.
fn obey_on_pages<W: Write>(
    writer: &mut W,
    alloc: Global,
    memory: &mut Memory,
    verb: &str,
    numbers: &Numbers,
) -> io::Result<()> {
    let Numbers {
        first,
        second,
        third,
        fourth,
    } = *numbers;
    match verb {
        "look" => look(writer, memory, numbers),
        "needs" => print_cost(writer, memory, numbers),
        "pair" => print_done(
            writer,
            pair(memory, page(first, second), page(third, fourth)),
        ),
        "zero" => print_done(writer, zero(memory, page(first, second))),
        "begin" => print_done(writer, begin(memory, first, second)),
        "end" => print_done(writer, end(memory, first)),
        "unpinned" => writeln!(writer, "{}", memory.unpinned(first, 0)),
        "fill" => match fill(alloc, memory, first, second, third, (fourth % 256) as u8) {
            Ok(done) => print_done(writer, done),
            Err(fault) => print(writer, Err(fault)),
        },
        name => print(writer, set_named(memory, name, first)),
    }
}

/// Sets the option with a name; another name sets none.
fn set_named(memory: &mut Memory, name: &str, value: u32) -> Result<(), Fault> {
    match Opt::named(name) {
        Some(option) => set(memory, option, value),
        None => Ok(()),
    }
}

/// Does what a line says, and writes what is answered.
fn obey<W: Write>(
    writer: &mut W,
    alloc: Global,
    memory: &mut Memory,
    line: &str,
) -> io::Result<()> {
    let mut words = line.split(' ');
    let verb = words.next().unwrap_or("");
    let numbers = Numbers {
        first: number(words.next()),
        second: number(words.next()),
        third: number(words.next()),
        fourth: number(words.next()),
    };
    let outcome = match verb {
        "memory" => renew(alloc, memory, numbers.first, numbers.second),
        "map" => add_map(memory, &numbers, true),
        "fixed" => add_map(memory, &numbers, false),
        "drop" => memory.drop_map(numbers.first, numbers.second),
        "visit" => return visits(writer, memory, numbers.first),
        "counters" => return text(&counters(memory), writer),
        "unmerge" => unmerge_all(memory),
        "store" => {
            store_first(memory, numbers.first, numbers.second);
            Ok(())
        }
        verb => return obey_on_pages(writer, alloc, memory, verb, &numbers),
    };
    print(writer, outcome)
}

/// Does what each line of the input says.
fn obey_all<W: Write>(
    rt: &(impl AllocGlobal + Input),
    writer: &mut W,
    memory: &mut Memory,
) -> io::Result<()> {
    for line in rt.lines(rt.alloc()) {
        let line = line?;
        writeln!(writer, "> {line}")?;
        obey(writer, rt.alloc(), memory, line.as_str())?;
    }
    Ok(())
}

/// Does what each line of the input says, and writes what is answered. The first memory has two frames.
pub(crate) fn answer_rows<W: Write>(
    rt: &(impl AllocGlobal + Input),
    writer: &mut W,
) -> io::Result<()> {
    match Memory::new(rt.alloc(), 2, 1, Options::standard()) {
        Ok(mut memory) => obey_all(rt, writer, &mut memory),
        Err(fault) => writeln!(writer, "{fault}"),
    }
}
