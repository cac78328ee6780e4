//! What is written of a served file's events.

ghost use Rattle.std.specs.Prelude.{◌≡◌, ◌||◌, IfErr, IfOk, OnOk};
ghost use Rattle.host_core.specs.declared.reply.Reply.TheVariants.{Refused};
ghost use Rattle.std.specs.Io.KnownBytes.{Appends};
ghost use Rattle.host_file.specs.Faults.{IsBad};
ghost use Rattle.engines.specs.Beginnings.{begin_event};
ghost use Rattle.engines.specs.Lines.{reply_lines};
ghost use Rattle.engines.specs.Replay.{is_refusal};

use crate::setup::Stop;
use engines::{
    Beginning, Known, explain_at, explain_beginning_at, write_beginning_reply, write_reply,
};
use host_core::{Event, Reply};
use host_file::{Command, FileFault};
use host_types::Shape;
use std::alloc::{AllocError, Global};
use std::io::Write;

/// Where memory comes from for words, and whether a refusal was written.
#[derive(Clone, Copy)]
pub(crate) struct Report {
    pub(crate) alloc: Global,
    pub(crate) has_refused: bool,
}

impl Report {
    /// Writes the line of what the file's event of this number was answered, and what a refusal means.
    pub(crate) fn print<W: Write, E: Write>(
        &mut self,
        writer: &mut W,
        diagnostics: &mut E,
        number: usize,
        event: &Event,
        reply: &Reply,
    ) -> Result<(), FileFault>
        ensures refused { OnOk result (self.new.has_refused ≡ (self.old.has_refused || is_refusal reply.now)) }
        ensures written { OnOk result (Appends (W.contents writer.old) (W.contents writer.new) (reply_lines event.now 0 reply.now)) }
        ensures bad { IfErr result (λ fault. ¬ IsBad fault) }
    {
        write_reply(writer, event, 0, reply)?;
        if let Reply::Refused(fault) = reply {
            explain_at(
                self.alloc,
                diagnostics,
                number,
                event,
                *fault,
                &with_shapes(&[]),
            );
            self.has_refused = true;
        }
        Ok(())
    }

    /// Writes the line of what the run was answered that the file's event of this number asks for, and what a refusal means.
    /// The run has a number among those that its tenant began. `loaded` is the size of contexts that its program was loaded with.
    pub(crate) fn print_run<W: Write, E: Write>(
        &mut self,
        writer: &mut W,
        diagnostics: &mut E,
        number: usize,
        beginning: &Beginning<'_>,
        run: u64,
        reply: &Reply,
        loaded: Option<u32>,
    ) -> Result<(), FileFault>
        ensures refused { OnOk result (self.new.has_refused ≡ (self.old.has_refused || is_refusal reply.now)) }
        ensures written { OnOk result (Appends (W.contents writer.old) (W.contents writer.new) (reply_lines (begin_event beginning.now) run reply.now)) }
        ensures bad { IfErr result (λ fault. ¬ IsBad fault) }
    {
        write_beginning_reply(writer, beginning, run, reply)?;
        if let Reply::Refused(fault) = reply {
            explain_beginning_at(diagnostics, number, beginning, *fault, loaded);
            self.has_refused = true;
        }
        Ok(())
    }
}

/// Writes the refusal at which the opening of a file stopped. Answers the status.
pub(crate) fn print_stop<W: Write, E: Write>(
    alloc: Global,
    stop: &Stop<'_>,
    commands: &[Command],
    writer: &mut W,
    diagnostics: &mut E,
) -> Result<u8, FileFault>
    ensures status { IfOk result (λ status. status ≡ 1) }
    ensures written { OnOk result (Appends (W.contents writer.old) (W.contents writer.new) (reply_lines stop.now.event.now 0 (Refused stop.now.fault))) }
    ensures bad { IfErr result (λ fault. ¬ IsBad fault) }
{
    write_reply(writer, stop.event, 0, &Reply::Refused(stop.fault))?;
    let before = commands.get(..stop.number).unwrap_or(commands);
    match shapes_for(alloc, stop.event, before) {
        Ok(shapes) => explain_at(
            alloc,
            diagnostics,
            stop.number,
            stop.event,
            stop.fault,
            &with_shapes(shapes.as_slice()),
        ),
        Err(AllocError) => explain_at(
            alloc,
            diagnostics,
            stop.number,
            stop.event,
            stop.fault,
            &with_shapes(&[]),
        ),
    }
    Ok(1)
}

/// What is known beside an event where a tenant's maps have these shapes.
fn with_shapes(shapes: &[Option<Shape>]) -> Known<'_> {
    Known {
        shapes,
        context_size: None,
    }
}

/// The shapes of the maps by number that an event's tenant has after these commands, of which none was refused.
fn shapes_for(
    alloc: Global,
    event: &Event,
    commands: &[Command],
) -> Result<Vec<Option<Shape>>, AllocError> {
    let mut shapes = Vec::new(alloc);
    for command in commands {
        if let Command::Apply(
            Event::CreateMap {
                tenant,
                value_size,
                entries,
                ..
            },
        ) = command
        {
            if event.tenant() == Some(*tenant) {
                shapes.push(Some(Shape {
                    value_size: *value_size,
                    entries: *entries,
                }))?;
            }
        }
    }
    Ok(shapes)
}
