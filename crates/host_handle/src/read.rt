//! A program of an object file, read at run time.
ghost use Rattle.std.specs.Prelude.{◌≡◌, IfErr, IfOk, map};
ghost use Rattle.inlining.specs.Whole.{IsWholeText};
ghost use Rattle.object_file.specs.Maps.{AreShapedMaps};
ghost use Rattle.host_handle.specs.Objects.{IsOfFile, IsOfText, IsProgramRead, IsReason};
ghost use Rattle.host_handle.specs.Written.{shape_for_c};

use crate::not_read::NotRead;
use crate::object::shape_for_c;
use crate::structs::BpfHostShape;
use crate::texts::{NotMade, made};
use host_file::FileFault;
use lowering::NotLowered;
use object_file::Map;
use object_program::{Chosen, refusal_words, request_of};
use object_text::{ObjectText, text_of};
use std::alloc::{AllocError, Global};
use verifier::is_context_size;

/// A program of an object file: its text as the verifier accepts it for its maps.
#[derive(Drop)]
pub struct ReadProgram {
    pub text: Vec<u8>,
    pub maps: Vec<Map>,
}

/// The program of the function that a name chooses, with those that it calls, lowered for contexts of a size in bytes. No bytes name the only function.
pub fn program_of(
    alloc: Global,
    file: &[u8],
    name: &[u8],
    context_size: u32,
) -> Result<ReadProgram, NotRead>
    ensures read { IfOk result (λ program. IsProgramRead context_size program.text.items program.maps.items) }
    ensures refused { IfErr result (IsReason context_size) }
{
    if !is_context_size(context_size) {
        return Err(NotRead::BadContext);
    }
    let chosen = Chosen {
        file,
        name: name_in(alloc, name)?,
    };
    let object = object_of(alloc, &chosen)?;
    let Ok(shapes) = shapes_of(alloc, object.maps.as_slice()) else {
        return Err(NotRead::OutOfMemory);
    };
    match made(
        alloc,
        object.text.as_slice(),
        shapes.as_slice(),
        context_size,
    ) {
        Ok(lowered) => Ok(ReadProgram {
            text: lowered.text,
            maps: object.maps,
        }),
        Err(not_made) => Err(explained(alloc, &chosen, &object, context_size, not_made)),
    }
}

/// The name that bytes give, if there are any.
fn name_in(alloc: Global, name: &[u8]) -> Result<Option<&str>, NotRead>
    ensures { IfErr result IsOfFile }
{
    if name.is_empty() {
        return Ok(None);
    }
    match str::from_utf8(name) {
        Ok(name) => Ok(Some(name)),
        Err(_) => Err(NotRead::file(String::from_str(alloc, "the name is no UTF-8 text"))),
    }
}

/// The text of an object's program, and its maps.
fn object_of(alloc: Global, chosen: &Chosen<'_>) -> Result<ObjectText, NotRead>
    ensures text { IfOk result (λ object. IsWholeText object.text.items) }
    ensures maps { IfOk result (λ object. AreShapedMaps object.maps.items) }
    ensures refused { IfErr result IsOfFile }
{
    match text_of(alloc, chosen.file, chosen.name) {
        Ok(object) => Ok(object),
        Err(error) if error.is_out_of_memory() => Err(NotRead::OutOfMemory),
        Err(error) => Err(NotRead::file(format!(in alloc; "{error}"))),
    }
}

/// The shapes of maps, as C has them.
fn shapes_of(alloc: Global, maps: &[Map]) -> Result<Vec<BpfHostShape>, AllocError>
    ensures { IfOk result (λ shapes. shapes.items ≡ map shape_for_c maps.now) }
{
    maps.iter().map(|map| shape_for_c(map)).collect(alloc)
}

/// The refusal of a text, with what `bpf_object` says of it.
fn explained(
    alloc: Global,
    chosen: &Chosen<'_>,
    object: &ObjectText,
    context_size: u32,
    not_made: NotMade,
) -> NotRead
    ensures { IsOfText not_made.fault result }
{
    match words_of(alloc, chosen, object, context_size, not_made.stopped) {
        Ok(words) => NotRead::Text(not_made.fault, words),
        Err(_) => NotRead::OutOfMemory,
    }
}

/// What `bpf_object` says of a text that the verifier doesn't accept.
fn words_of(
    alloc: Global,
    chosen: &Chosen<'_>,
    object: &ObjectText,
    context_size: u32,
    stopped: Option<NotLowered>,
) -> Result<String, FileFault> {
    let request = request_of(alloc, object, context_size)?;
    refusal_words(alloc, chosen, &request, stopped)
}
