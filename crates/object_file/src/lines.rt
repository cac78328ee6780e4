//! Lines of sources of which instructions were made: the line information of a section .BTF.ext (the kernel's docs/bpf/btf.rst).

ghost use Rattle.std.specs.Prelude.{◌≡◌, ◌≤◌, IfOk, IfSome};

use crate::btf::names_of;
use crate::field::{part_at, u16_at, u32_at};
use crate::object::{MOST_SECTIONS, Object, Section, front_at, name_at};
use crate::source_line::SourceLine;
use crate::text::Text;
use object_error::{Cause, Location, ObjectError, ShownLine};
use std::alloc::{AllocError, Global};

/// The most records of a file.
const MOST_RECORDS: usize = 65536;

/// The least bytes of a record.
const RECORD: usize = 16;

/// Of each slot of a text the number of its line, where one is known.
#[derive(Drop)]
pub struct TextLines {
    pub slots: Vec<Option<u32>>,
}

/// Lines of sources, and those of which the slots of texts were made.
#[derive(Drop)]
pub struct SourceLines<'a> {
    pub lines: Vec<SourceLine<'a>>,
    pub texts: Vec<TextLines>,
}

/// Of each slot of the texts of a program the line of which it was made: that of the last record at it or before it. None is known
/// where the file has no such records.
pub fn lines_of<'a>(
    alloc: Global,
    bytes: &'a [u8],
    texts: &[Text],
) -> Result<SourceLines<'a>, ObjectError> {
    let mut found = SourceLines {
        lines: Vec::new(alloc),
        texts: no_lines(alloc, texts)?,
    };
    let Some(source) = Records::of(Object::read(bytes)?)? else {
        return Ok(found);
    };
    add_sections(&source, texts, &mut found)?;
    for of_text in &mut found.texts {
        spread(of_text.slots.as_mut_slice());
    }
    Ok(found)
}

/// The same refusal; that of an instruction has the line of which this was made, where the file says it.
pub(crate) fn with_line(
    error: ObjectError,
    alloc: Global,
    bytes: &[u8],
) -> Result<ObjectError, AllocError>
    ensures location { IfOk result (λ same. same.location ≡ error.location) }
    ensures cause { IfOk result (λ same. same.cause ≡ error.cause) }
{
    if !error.cause.is_of_instruction() {
        return Ok(error);
    }
    match line_at(bytes, error.location) {
        Ok(Some(line)) => {
            let words = line.in_words(alloc)?;
            Ok(ObjectError {
                line: ShownLine(Some(words)),
                ..error
            })
        }
        // Lines that can't be read are no reason for another refusal.
        Ok(None) | Err(_) => Ok(error),
    }
}

/// The line of which the instruction at a byte of a section was made, if the file says it: that of the last record of the section at
/// the byte or before it. It isn't known where another section has the same name.
fn line_at<'a>(bytes: &'a [u8], location: Location) -> Result<Option<SourceLine<'a>>, ObjectError> {
    if location.section == 0 {
        return Ok(None);
    }
    let object = Object::read(bytes)?;
    let name = object.name(&object.section(location.section)?)?;
    if object.named_once(name)?.is_none() {
        return Ok(None);
    }
    let Some(source) = Records::of(object)? else {
        return Ok(None);
    };
    let found = source.last_at(name, location.offset);
    match found.and_then(|record| line_in(&source, record)) {
        Some((_, line)) => Ok(Some(line)),
        None => Ok(None),
    }
}

/// No line of any slot of texts.
fn no_lines(alloc: Global, texts: &[Text]) -> Result<Vec<TextLines>, AllocError> {
    let mut lines = Vec::new(alloc);
    for text in texts {
        let mut slots = Vec::new(alloc);
        for _slot in 0..text.bytes.len() / 8 {
            slots.push(None)?;
        }
        lines.push(TextLines { slots })?;
    }
    Ok(lines)
}

/// The line information of a section .BTF.ext.
fn line_info(contents: &[u8]) -> Option<&[u8]> {
    let header = u32_at(contents, 4)? as usize;
    if u16_at(contents, 0)? != 0xeb9f || contents.get(2) != Some(&1) {
        return None;
    }
    part_at(
        contents.get(header..)?,
        u32_at(contents, 16)? as usize,
        u32_at(contents, 20)? as usize,
    )
}

/// Records of lines: the file, the number of their section, the line information of it, and the names of the file's BTF.
#[derive(Clone, Copy)]
struct Records<'a> {
    object: Object<'a>,
    number: usize,
    info: &'a [u8],
    names: &'a [u8],
}

impl<'a> Records<'a> {
    /// The records of an object, if it has any.
    fn of(object: Object<'a>) -> Result<Option<Self>, ObjectError> {
        let Some(section) = object.named(b".BTF.ext")? else {
            return Ok(None);
        };
        let Some(types) = object.named(b".BTF")? else {
            return Ok(None);
        };
        let Some(names) = names_of(object.contents(&types)?) else {
            return Err(ObjectError::at(types.number, 0, Cause::BadBtf));
        };
        let Some(info) = line_info(object.contents(&section)?) else {
            return Err(ObjectError::at(section.number, 0, Cause::BadBtf));
        };
        Ok(Some(Records {
            object,
            number: section.number,
            info,
            names,
        }))
    }

    fn bad(&self) -> ObjectError {
        ObjectError::at(self.number, 0, Cause::BadBtf)
    }

    /// The last record of a section with a name at an offset or before it, of those that name a line.
    fn last_at(&self, section: &[u8], offset: usize) -> Option<&'a [u8]> {
        let size = record_size(self.info)?;
        let mut found = None;
        let mut at: usize = 4;
        for _section in 0..MOST_SECTIONS {
            let Some((name, records)) = section_at(self.info, at, size) else {
                break;
            };
            if name_at(self.names, name) == Some(section) {
                found = last_among(records, size, offset).or(found);
            }
            at = at.saturating_add(8).saturating_add(records.len());
        }
        found
    }
}

/// The bytes of a record, with which line information begins.
fn record_size(info: &[u8]) -> Option<usize>
    ensures { IfSome result (λ size. 16 ≤ size) }
{
    let size = u32_at(info, 0)? as usize;
    if size < RECORD {
        return None;
    }
    Some(size)
}

/// The last of some records at an offset or before it, of those that name a line.
fn last_among(records: &[u8], size: usize, offset: usize) -> Option<&[u8]>
    requires { 1 ≤ size }
{
    let mut found = None;
    let mut begin = 0;
    for record in records.chunks_exact(size) {
        let at = u32_at(record, 0)? as usize;
        if begin <= at && at <= offset && number_in(record)? > 0 {
            found = Some(record);
            begin = at;
        }
    }
    found
}

/// The number of the line of a record. Line 0 is none.
fn number_in(record: &[u8]) -> Option<u32> {
    Some(u32_at(record, 12)? >> 10)
}

/// Adds the lines of all sections: after the size of a record, each has its name, how many records it has, and these.
fn add_sections<'a>(
    source: &Records<'a>,
    texts: &[Text],
    found: &mut SourceLines<'a>,
) -> Result<(), ObjectError> {
    let info = source.info;
    if info.is_empty() {
        return Ok(());
    }
    let Some(size) = record_size(info) else {
        return Err(source.bad());
    };
    let mut left = MOST_RECORDS;
    let mut at: usize = 4;
    for _section in 0..MOST_SECTIONS {
        if at >= info.len() {
            return Ok(());
        }
        let Some((name, records)) = section_at(info, at, size) else {
            return Err(source.bad());
        };
        let count = records.len() / size;
        if count > left {
            return Err(ObjectError::at(source.number, 0, Cause::TooManyLines));
        }
        left -= count;
        if let Some(name) = front_at(source.names, name) {
            // Records name their section: where several have its name, whose lines these are isn't known.
            if let Some(section) = source.object.named_once(name)? {
                add_records(source, &section, records, size, texts, found)?;
            }
        }
        at = at.saturating_add(8).saturating_add(records.len());
    }
    if at < info.len() {
        return Err(ObjectError::at(source.number, 0, Cause::TooManyLines));
    }
    Ok(())
}

/// The name of the section whose records stand at an offset, and these.
fn section_at(info: &[u8], at: usize, size: usize) -> Option<(usize, &[u8])> {
    let name = u32_at(info, at)? as usize;
    let count = u32_at(info, at.checked_add(4)?)? as usize;
    let records = part_at(info, at.checked_add(8)?, count.checked_mul(size)?)?;
    Some((name, records))
}

/// Adds the lines of a section. A record of line 0 names none: its slots go on with the line before.
fn add_records<'a>(
    source: &Records<'a>,
    section: &Section,
    records: &[u8],
    size: usize,
    texts: &[Text],
    found: &mut SourceLines<'a>,
) -> Result<(), ObjectError>
    requires { 1 ≤ size }
{
    for record in records.chunks_exact(size) {
        let Some((offset, line)) = line_in(source, record) else {
            return Err(source.bad());
        };
        let (Some(at), Ok(number)) = (
            section.start.checked_add(offset),
            u32::try_from(found.lines.len()),
        ) else {
            continue;
        };
        if line.number > 0 {
            found.lines.push(line)?;
            add_line(at, number, texts, found.texts.as_mut_slice());
        }
    }
    Ok(())
}

/// The offset in its section and the line of a record.
fn line_in<'a>(source: &Records<'a>, record: &[u8]) -> Option<(usize, SourceLine<'a>)> {
    let line = SourceLine {
        file: front_at(source.names, u32_at(record, 4)? as usize)?,
        text: front_at(source.names, u32_at(record, 8)? as usize)?,
        number: number_in(record)?,
    };
    Some((u32_at(record, 0)? as usize, line))
}

/// Adds a line, by its number, at a byte of the file, where a slot of a text begins there.
fn add_line(at: usize, number: u32, texts: &[Text], lines: &mut [TextLines]) {
    for (text, of_text) in texts.iter().zip(lines.iter_mut()) {
        let Some(offset) = at.checked_sub(text.begin) else {
            continue;
        };
        if offset % 8 != 0 {
            continue;
        }
        if let Some(slot) = of_text.slots.get_mut(offset / 8) {
            *slot = Some(number);
        }
    }
}

/// Gives each slot without a line that of the slot before it.
fn spread(slots: &mut [Option<u32>]) {
    let mut before = None;
    for slot in slots {
        if slot.is_some() {
            before = *slot;
        } else {
            *slot = before;
        }
    }
}
