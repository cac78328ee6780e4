//! The answer to a request.

use crate::accepted::accepted_text;
use crate::events::{hex_of, write_events, write_shapes};
use crate::fault::{Fault, Printed, written};
use crate::file::bytes_at;
use crate::fronts::fronts_of;
use crate::runs::{Accepted, print_runs};
use command_line::{Form, ToLoad, loaded_of};
use host_types::Bytes;
use object_text::{ObjectText, text_of};
use std::alloc::{AllocError, Global};
use std::io::Write;
use std::rt::Files;
use terminal_text::quoted;

/// Does what words ask for: prints what an object file has, or what runs of it return. Each value that is dropped at the end has a
/// function of its own, since the drop at each `?` is proved.
pub fn answer<R, W>(rt: &R, words: &[String], output: &mut W) -> Result<Printed, Fault>
where
    R: AllocGlobal + Files,
    W: Write,
{
    let asked = loaded_of(rt.alloc(), words)?;
    answer_asked(rt, &asked, output)
}

/// Does what is asked for. What is wrong with words is said before the file is opened.
fn answer_asked<R, W>(rt: &R, asked: &ToLoad<'_>, output: &mut W) -> Result<Printed, Fault>
where
    R: AllocGlobal + Files,
    W: Write,
{
    let fronts = fronts_of(rt.alloc(), asked)?;
    answer_fronts(rt, asked, fronts.as_slice(), output)
}

/// Does what is asked for of a file, whose runs are on contexts that begin with these bytes.
fn answer_fronts<R, W>(
    rt: &R,
    asked: &ToLoad<'_>,
    fronts: &[Bytes],
    output: &mut W,
) -> Result<Printed, Fault>
where
    R: AllocGlobal + Files,
    W: Write,
{
    let bytes = bytes_at(rt, asked.path)?;
    let file = ReadFile {
        alloc: rt.alloc(),
        asked,
        fronts,
        bytes: bytes.as_slice(),
    };
    file.answer(output)
}

/// A file that is read, and what is asked for of it.
#[derive(Clone, Copy)]
struct ReadFile<'a> {
    alloc: Global,
    asked: &'a ToLoad<'a>,
    fronts: &'a [Bytes],
    bytes: &'a [u8],
}

impl<'a> ReadFile<'a> {
    fn answer<W: Write>(self, output: &mut W) -> Result<Printed, Fault> {
        let object = object_of(self.alloc, self.asked, self.bytes)?;
        self.answer_object(&object, output)
    }

    fn answer_object<W: Write>(
        self,
        object: &ObjectText,
        output: &mut W,
    ) -> Result<Printed, Fault> {
        match &self.asked.form {
            Form::Events => self.print_events(object, output)?,
            Form::Runs(_) => self.print_runs(object, output)?,
            Form::Hex => {
                let hex = self.hex_text(object)?;
                written(writeln!(output, "{hex}"))?;
                return Ok(printed_without_events(object));
            }
            Form::Maps => {
                written(write_shapes(object, output))?;
                return Ok(printed_without_events(object));
            }
        }
        Ok(Printed::Whole)
    }

    fn print_events<W: Write>(self, object: &ObjectText, output: &mut W) -> Result<(), Fault> {
        let hex = self.hex_text(object)?;
        written(write_events(
            self.alloc,
            object,
            hex.as_str(),
            self.asked.tenant,
            self.asked.context,
            output,
        ))
    }

    fn print_runs<W: Write>(self, object: &ObjectText, output: &mut W) -> Result<(), Fault> {
        let text = accepted_text(self.alloc, self.asked, self.bytes, object)?;
        let accepted = Accepted {
            text: text.as_slice(),
            maps: object.maps.as_slice(),
            context_size: self.asked.context,
        };
        print_runs(self.alloc, &accepted, self.fronts, output)
    }

    /// The hex text of an object's program, as the verifier accepts it if it isn't asked for as it is.
    fn hex_text(self, object: &ObjectText) -> Result<String, Fault> {
        if self.asked.as_is {
            return Ok(hex_of(self.alloc, object.text.as_slice())?);
        }
        let text = accepted_text(self.alloc, self.asked, self.bytes, object)?;
        Ok(hex_of(self.alloc, text.as_slice())?)
    }
}

/// What is printed of a program without its events.
fn printed_without_events(object: &ObjectText) -> Printed {
    for map in &object.maps {
        if !map.first.is_empty() {
            return Printed::WithoutFirstBytes;
        }
    }
    Printed::Whole
}

/// The program of an object file.
fn object_of(alloc: Global, asked: &ToLoad<'_>, bytes: &[u8]) -> Result<ObjectText, Fault> {
    match text_of(alloc, bytes, asked.section) {
        Ok(object) => Ok(object),
        Err(error) if error.is_out_of_memory() => Err(Fault::OutOfMemory(AllocError)),
        Err(error) => Err(Fault::Refused(quoted(alloc, asked.path)?, error)),
    }
}
