//! The text of a program from an object file: one of its function and of those that it calls, its maps, and the line of a source of
//! which each slot was made.
#![tactic(auto)]

ghost use Rattle.std.specs.Prelude.{IfOk};
ghost use Rattle.inlining.specs.Whole.{IsWholeText};
ghost use Rattle.object_file.specs.Maps.{AreShapedMaps};

mod not_taken;

use inlining::{Function, Inlined, NotInlined, Stop, inlined};
pub use not_taken::NotTaken;
use object_file::{Map, ShownLine, SourceLine, Text, TextLines, lines_of, program_of};
use std::alloc::{AllocError, Global};

/// The text of a program, without calls of functions, and its maps.
#[derive(Drop)]
pub struct ObjectText {
    pub text: Vec<u8>,
    pub maps: Vec<Map>,
}

/// The text of an object's program, lines of sources, and of each slot the number of that of which it was made, where that is known.
#[derive(Drop)]
pub struct ObjectLines<'a> {
    pub object: ObjectText,
    pub lines: Vec<SourceLine<'a>>,
    pub of_slots: Vec<Option<u32>>,
}

impl ObjectText {
    /// The shape of each map, as a word V:E.
    pub fn shape_words(&self, alloc: Global) -> Result<Vec<String>, AllocError> {
        let mut words = Vec::new(alloc);
        for map in &self.maps {
            let (value_size, entries) = (map.shape.value_size, map.shape.entries);
            words.push(format!(in alloc; "{value_size}:{entries}")?)?;
        }
        Ok(words)
    }
}

impl ObjectLines<'_> {
    /// The line of a slot, as it is shown after a refusal.
    pub fn shown_at(&self, alloc: Global, slot: usize) -> Result<ShownLine, AllocError> {
        let number = self.of_slots.get(slot).copied().flatten();
        shown_line(alloc, self.lines.as_slice(), number)
    }
}

/// The line of a number, as it is shown after a refusal.
fn shown_line(
    alloc: Global,
    lines: &[SourceLine<'_>],
    number: Option<u32>,
) -> Result<ShownLine, AllocError> {
    match number.and_then(|number| lines.get(number as usize)) {
        Some(line) => Ok(ShownLine(Some(line.in_words(alloc)?))),
        None => Ok(ShownLine(None)),
    }
}

/// The text of the program of an object file: of the function that a name chooses, its own or its section's, where there are
/// several.
pub fn text_of(alloc: Global, bytes: &[u8], name: Option<&str>) -> Result<ObjectText, NotTaken>
    ensures text { IfOk result (λ object. IsWholeText object.text.items) }
    ensures maps { IfOk result (λ object. AreShapedMaps object.maps.items) }
{
    let program = program_of(alloc, bytes, name)?;
    let whole = whole_of(alloc, bytes, program.texts.as_slice())?;
    Ok(ObjectText {
        text: whole.text,
        maps: program.maps,
    })
}

/// The text of the program of an object file, as `text_of` answers it, with lines of sources.
pub fn text_with_lines<'a>(
    alloc: Global,
    bytes: &'a [u8],
    name: Option<&str>,
) -> Result<ObjectLines<'a>, NotTaken> {
    let program = program_of(alloc, bytes, name)?;
    let whole = whole_of(alloc, bytes, program.texts.as_slice())?;
    let found = lines_of(alloc, bytes, program.texts.as_slice())?;
    let mut of_slots = Vec::new(alloc);
    for origin in &whole.origins {
        of_slots.push(line_at(found.texts.as_slice(), origin.function, origin.slot))?;
    }
    let object = ObjectText {
        text: whole.text,
        maps: program.maps,
    };
    Ok(ObjectLines {
        object,
        lines: found.lines,
        of_slots,
    })
}

/// The number of the line of a slot of a function.
fn line_at(lines: &[TextLines], function: usize, slot: usize) -> Option<u32> {
    *lines.get(function)?.slots.get(slot)?
}

/// One text of a function and of those that it calls, the first of these.
fn whole_of(alloc: Global, bytes: &[u8], texts: &[Text]) -> Result<Inlined, NotTaken>
    ensures { IfOk result (λ whole. IsWholeText whole.text.items) }
{
    let mut all = Vec::new(alloc);
    for text in texts {
        let mut calls = Vec::new(alloc);
        for call in &text.calls {
            let (slot, function) = (call.slot, call.function);
            calls.push(inlining::Call { slot, function })?;
        }
        all.push(calls)?;
    }
    let mut functions = Vec::new(alloc);
    for (text, calls) in texts.iter().zip(all.iter()) {
        functions.push(Function {
            text: text.bytes.as_slice(),
            calls: calls.as_slice(),
        })?;
    }
    match inlined(alloc, functions.as_slice()) {
        Ok(whole) => Ok(whole),
        Err(error) => Err(not_inlined(alloc, bytes, texts, error)?),
    }
}

/// A refusal of the inlining, at its byte of the file, with its line where the file says it.
fn not_inlined(
    alloc: Global,
    bytes: &[u8],
    texts: &[Text],
    error: NotInlined,
) -> Result<NotTaken, AllocError> {
    if let Stop::OutOfMemory(error) = error.stop {
        return Err(error);
    }
    let begin = texts.get(error.function).map_or(0, |text| text.begin);
    let at = error.slot.saturating_mul(8).saturating_add(begin);
    let line = match lines_of(alloc, bytes, texts) {
        Ok(found) => {
            let number = line_at(found.texts.as_slice(), error.function, error.slot);
            shown_line(alloc, found.lines.as_slice(), number)?
        }
        // Lines that can't be read are no reason for another refusal.
        Err(_) => ShownLine(None),
    };
    Ok(NotTaken::Inlining(at, error, line))
}
