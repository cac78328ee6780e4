//! What a refusal means to an author: of a program, or of a host file.

ghost use Rattle.std.specs.Prelude.{◌≡◌, ◌<◌, ◌%◌, length};
ghost use Rattle.bpf_decode.specs.Text.{slots_of};

use crate::check::request::CheckRequest;
use advice::{
    Advice, advice_on, on_context_length, on_context_size, on_frames_for_map, on_frames_for_run,
    on_frames_for_unmerging, on_frames_for_update, on_host_size, on_map_count, on_option, on_shape,
    on_shape_count, on_value_size,
};
use bpf_decode::Insn;
use disassembly::Assembly;
use findings::{CheckedText, advice_at, write_findings};
use host_core::Event;
use host_file::HostFile;
use host_types::rule::{BAD_LENGTH, CUT_WIDE};
use host_types::{Fault, Opt, Options, Refused, Shape};
use listing::write_differing;
use std::alloc::Global;
use std::io;
use std::io::Write;

/// Writes what the refusal of a program means that was to be checked, and what was known where it is refused.
pub fn explain_check<W: Write>(
    alloc: Global,
    diagnostics: &mut W,
    asked: &CheckRequest,
    fault: Fault,
) -> io::Result<()> {
    let advice = match fault {
        Fault::Program(refused) => return explain_checked(alloc, diagnostics, asked, refused),
        Fault::TooManyMaps => Some(on_shape_count()),
        Fault::BadShape => Some(on_shape()),
        Fault::BadContext => Some(on_context_size()),
        _ => advice_on(fault.number()),
    };
    write_advice(diagnostics, fault, advice)?;
    if fault == Fault::BadContext {
        write!(diagnostics, "; the size is {}", asked.context_size)?;
    }
    writeln!(diagnostics)
}

/// Writes the refusal of a text that was to be checked.
fn explain_checked<W: Write>(
    alloc: Global,
    diagnostics: &mut W,
    asked: &CheckRequest,
    refused: Refused,
) -> io::Result<()> {
    let checked = CheckedText {
        text: asked.text.as_slice(),
        shapes: asked.shapes.as_slice(),
        context_size: asked.context_size,
    };
    explain_refused_text(alloc, diagnostics, &checked, refused)?;
    writeln!(diagnostics)
}

/// Writes the refusal of a text, and what was known there.
fn explain_refused_text<W: Write>(
    alloc: Global,
    diagnostics: &mut W,
    checked: &CheckedText<'_>,
    refused: Refused,
) -> io::Result<()> {
    explain_program(alloc, diagnostics, checked, refused)?;
    write_findings(alloc, diagnostics, checked, refused)?;
    write_differing(alloc, diagnostics, checked, refused)
}

/// What a refused event is verified by.
#[derive(Clone, Copy)]
pub struct Known<'a> {
    /// The shapes by number of the maps that a program may use which the event loads.
    pub shapes: &'a [Option<Shape>],
    /// The size of contexts that the program of the event's run was loaded with.
    pub context_size: Option<u32>,
}

/// Writes what the refusal of an event means.
pub fn explain_event<W: Write>(
    alloc: Global,
    diagnostics: &mut W,
    event: &Event,
    fault: Fault,
    known: &Known<'_>,
) -> io::Result<()> {
    match (event, fault) {
        (
            Event::Load {
                text,
                context_size,
                ..
            },
            Fault::Program(refused),
        ) => {
            let checked = CheckedText {
                text: text.as_slice(),
                shapes: known.shapes,
                context_size: *context_size,
            };
            explain_refused_text(alloc, diagnostics, &checked, refused)?;
        }
        (Event::Load { context_size, .. }, Fault::BadContext) => {
            write_advice(diagnostics, fault, Some(on_context_size()))?;
            write!(diagnostics, "; the size is {context_size}")?;
        }
        (Event::Begin { context, .. }, _) => {
            let length = context.as_slice().len();
            return explain_beginning(diagnostics, length, known.context_size, fault);
        }
        _ => write_advice(diagnostics, fault, advice_on_event(event, fault))?,
    }
    writeln!(diagnostics)
}

/// Writes what it means that a run on a context of a length wasn't opened, whose program was loaded for contexts of
/// a size, where it is known.
pub fn explain_beginning<W: Write>(
    diagnostics: &mut W,
    length: usize,
    loaded: Option<u32>,
    fault: Fault,
) -> io::Result<()> {
    match fault {
        Fault::BadContext => {
            write_advice(diagnostics, fault, Some(on_context_length()))?;
            write!(diagnostics, "; the size is {length}")?;
            if let Some(size) = loaded {
                write!(diagnostics, ", and the program takes {size}")?;
            }
        }
        Fault::NoFrames { .. } => write_advice(diagnostics, fault, Some(on_frames_for_run()))?,
        _ => write_advice(diagnostics, fault, advice_on(fault.number()))?,
    }
    writeln!(diagnostics)
}

/// The advice on the refusal of an event by its number and by what was to be done.
fn advice_on_event(event: &Event, fault: Fault) -> Option<Advice> {
    match (event, fault) {
        (Event::CreateMap { .. }, Fault::TooManyMaps) => Some(on_map_count()),
        (Event::CreateMap { .. }, Fault::BadShape) => Some(on_shape()),
        (Event::CreateMap { .. }, Fault::NoFrames { .. }) => Some(on_frames_for_map()),
        (Event::HostUpdate { .. }, Fault::BadShape) => Some(on_value_size()),
        (Event::HostUpdate { .. }, Fault::NoFrames { .. }) => Some(on_frames_for_update()),
        (Event::Set { option, .. }, Fault::BadOption) => Some(on_option(*option)),
        (Event::Unmerge, Fault::NoFrames { .. }) => Some(on_frames_for_unmerging()),
        _ => advice_on(fault.number()),
    }
}

/// Writes what the refusal of the host of a file means.
pub(crate) fn explain_host<W: Write>(
    diagnostics: &mut W,
    file: &HostFile,
    fault: Fault,
) -> io::Result<()> {
    match (fault, wrong_option(&file.options)) {
        (Fault::BadShape, _) => {
            let advice = on_host_size(file.frames, file.tenants);
            write_advice(diagnostics, fault, Some(advice))?;
        }
        (Fault::BadOption, Some(option)) => write_advice(
            diagnostics,
            fault,
            Some(on_option(option)),
        )?,
        _ => write_advice(diagnostics, fault, advice_on(fault.number()))?,
    }
    writeln!(diagnostics)
}

/// The first option that can't have its value.
fn wrong_option(options: &Options) -> Option<Opt> {
    let values = [
        (Opt::PagesToScan, options.pages_to_scan),
        (Opt::Run, options.run),
        (Opt::UseZeroPages, options.use_zero_pages),
        (Opt::MaxPageSharing, options.max_page_sharing),
    ];
    for (option, value) in values {
        if !option.allows(value) {
            return Some(option);
        }
    }
    None
}

/// Writes the refusal of a text: the slot that it names and what stands there, the rule, and how to fix
/// it.
fn explain_program<W: Write>(
    alloc: Global,
    diagnostics: &mut W,
    checked: &CheckedText<'_>,
    refused: Refused,
) -> io::Result<()> {
    write!(diagnostics, "slot {}: ", refused.slot)?;
    write_what_stands(diagnostics, checked.text, refused)?;
    let advice = advice_at(alloc, checked, refused);
    write_advice(diagnostics, Fault::Program(refused), advice)
}

fn write_advice<W: Write>(
    diagnostics: &mut W,
    fault: Fault,
    advice: Option<Advice>,
) -> io::Result<()> {
    match advice {
        Some(advice) => write!(diagnostics, "{}; {}", advice.wrong, advice.fix),
        None => write!(diagnostics, "{}", fault.name()),
    }
}

/// Writes what stands at a refused slot: its instruction, or its bytes where they make none.
fn write_what_stands<W: Write>(
    diagnostics: &mut W,
    text: &[u8],
    refused: Refused,
) -> io::Result<()> {
    let slot = refused.slot as usize;
    let Some(insn) = Insn::at(text, slot) else {
        return Ok(());
    };
    match refused.number {
        // It is said at slot 0, and speaks of no instruction.
        BAD_LENGTH => Ok(()),
        // The rules after it speak of well-formed texts.
        number if number <= CUT_WIDE => write_bytes(diagnostics, text, slot),
        _ => {
            let insn = Assembly(insn);
            write!(diagnostics, "{insn}: ")
        }
    }
}

/// Writes the eight bytes of a slot.
fn write_bytes<W: Write>(diagnostics: &mut W, text: &[u8], slot: usize) -> io::Result<()>
    requires whole { length text.now % 8 ≡ 0 }
    requires within { slot < slots_of text.now }
{
    for byte in &text[8 * slot..8 * slot + 8] {
        write!(diagnostics, "{byte:02x}")?;
    }
    write!(diagnostics, ": ")
}
