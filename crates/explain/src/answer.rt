//! The answer to a request.

use crate::folds::folded;
use crate::sources::SourceWords;
use crate::view::{Shown, write_view};
use command_line::{Asked, ToExplain, explained_of};
use engines::check::{CheckRequest, check_request_of};
use engines::written;
use explained_text::VerdictWords;
use findings::CheckedText;
use hex::encode;
use host_file::FileFault;
use host_types::Bytes;
use listing::{Beside, Listing, Paint, Sources};
use lowered_text::{Copies, lowered, write_refused, write_stop};
use lowering::{Lowered, NotLowered};
use object_text::{ObjectLines, text_with_lines};
use program_source::{Source, path_in, source_of, unreadable, words_fault};
use std::alloc::{AllocError, Global};
use std::io::Write;
use std::rt::Files;

/// The status of `check` for a text that is refused.
const REFUSED: u8 = 1;

/// Does what words ask for: explains the program that they name, or writes the help or the version.
pub fn answer<R: AllocGlobal + Files, W: Write>(
    rt: &R,
    words: &[String],
    paint: Paint,
    output: &mut W,
) -> Result<u8, FileFault> {
    let alloc = rt.alloc();
    let asked = match explained_of(alloc, words).map_err(words_fault)? {
        Asked::Program(asked) => asked,
        Asked::Text(text) => {
            written(writeln!(output, "{}", text.as_str().trim_end()))?;
            written(output.flush())?;
            return Ok(0);
        }
    };
    match source_of(rt, asked.hex)? {
        Source::Hex(hex) => {
            if asked.section.is_some() {
                let said =
                    "--section chooses among the functions of an object file, and HEX is none";
                return Err(FileFault::Usage(String::from_str(alloc, said)?));
            }
            explain(alloc, &asked, hex.as_str(), None, paint, output)
        }
        Source::Object(bytes) => explain_object(alloc, asked, bytes.as_slice(), paint, output),
    }
}

/// Explains the program of an object file. Its maps have the shapes that the file says, where no words give shapes.
fn explain_object<W: Write>(
    alloc: Global,
    asked: ToExplain<'_>,
    bytes: &[u8],
    paint: Paint,
    output: &mut W,
) -> Result<u8, FileFault> {
    let ObjectLines {
        object,
        lines,
        of_slots,
    } = match text_with_lines(alloc, bytes, asked.section) {
        Ok(found) => found,
        Err(error) => return Err(unreadable(alloc, path_in(asked.hex), error)),
    };
    let words = object.shape_words(alloc)?;
    let asked = ToExplain {
        shapes: shapes_of(alloc, &asked, words.as_slice())?,
        ..asked
    };
    let hex = encode(alloc, object.text.as_slice())?;
    let sources = SourceWords::of(alloc, lines.as_slice(), of_slots.as_slice())?;
    explain(alloc, &asked, hex.as_str(), Some(sources), paint, output)
}

/// The shapes that words give, or else those of an object's maps.
fn shapes_of<'a>(
    alloc: Global,
    asked: &ToExplain<'a>,
    of_maps: &'a [String],
) -> Result<Vec<&'a str>, AllocError> {
    if !asked.shapes.is_empty() {
        return asked.shapes.clone();
    }
    let mut shapes = Vec::new(alloc);
    for shape in of_maps {
        shapes.push(shape.as_str())?;
    }
    Ok(shapes)
}

/// Explains the program of a hex text, or what the lowering makes of it if that is asked for, with the lines of sources of
/// which it was made, where they are known. Where it isn't lowered, what stopped that stands last. Answers the status of
/// `check`.
fn explain<W: Write>(
    alloc: Global,
    asked: &ToExplain<'_>,
    hex: &str,
    sources: Option<SourceWords>,
    paint: Paint,
    output: &mut W,
) -> Result<u8, FileFault> {
    let request = check_request_of(alloc, hex, asked.shapes.as_slice(), asked.context)?;
    let outcome = if asked.lower {
        lowered(alloc, &request)
    } else {
        None
    };
    let stopped = match outcome {
        Some(Ok(lowered)) => return explain_lowered(
            alloc, asked, &request, &lowered, sources, paint, output,
        ),
        Some(Err(stopped)) => Some(stopped),
        None => None,
    };
    let lines = match &sources {
        Some(words) => Some(words.sources()),
        None => None,
    };
    explain_given(
        alloc,
        asked,
        &request,
        lines,
        stopped.as_ref(),
        paint,
        output,
    )
}

/// Explains a text as it is, and what stopped its lowering, where that was asked for.
fn explain_given<'a, W: Write>(
    alloc: Global,
    asked: &ToExplain<'_>,
    request: &'a CheckRequest,
    sources: Option<Sources<'a>>,
    stopped: Option<&NotLowered>,
    paint: Paint,
    output: &mut W,
) -> Result<u8, FileFault> {
    let checked = checked_of(request);
    let listing = Listing::of(alloc, &checked, None, sources);
    let shown = Shown {
        paint,
        is_lowered: false,
    };
    let mut note = Vec::new(alloc);
    let verdict = match stopped {
        Some(stopped) => {
            written(write_stop(request.text.as_slice(), stopped, &mut note))?;
            verdict_after(alloc, request, stopped)?
        }
        None => VerdictWords::of(alloc, request)?,
    };
    let note = note.as_slice();
    written(write_view(
        alloc,
        output,
        asked,
        shown,
        listing.as_ref(),
        &verdict,
        note,
    ))?;
    Ok(verdict.status)
}

/// What `check` says of a text whose lowering was stopped: nobody is advised to lower it again.
fn verdict_after(
    alloc: Global,
    request: &CheckRequest,
    stopped: &NotLowered,
) -> Result<VerdictWords, FileFault> {
    let mut line = Vec::new(alloc);
    let mut meant = Vec::new(alloc);
    write_refused(alloc, request, stopped, &mut line, &mut meant)?;
    Ok(VerdictWords {
        line,
        meant,
        status: REFUSED,
    })
}

/// Explains a lowered text in the same way, with the slots of the original beside its own, and the lines of these. Of the
/// copies of a loop the first, the second and the last are shown.
fn explain_lowered<W: Write>(
    alloc: Global,
    asked: &ToExplain<'_>,
    original: &CheckRequest,
    lowered: &Lowered,
    sources: Option<SourceWords>,
    paint: Paint,
    output: &mut W,
) -> Result<u8, FileFault> {
    let copies = Copies {
        text: original.text.as_slice(),
        lowered,
    };
    let folded = folded(alloc, &copies)?;
    let beside = Beside {
        origins: lowered.origins.as_slice(),
        folded: folded.as_slice(),
    };
    let words = match sources {
        Some(words) => Some(words.moved(alloc, lowered.origins.as_slice())?),
        None => None,
    };
    let lines = match &words {
        Some(words) => Some(words.sources()),
        None => None,
    };
    let request = CheckRequest {
        text: Bytes::from(lowered.text.clone()?),
        shapes: original.shapes.clone()?,
        context_size: original.context_size,
    };
    let checked = checked_of(&request);
    let listing = Listing::of(alloc, &checked, Some(beside), lines);
    let shown = Shown {
        paint,
        is_lowered: true,
    };
    let verdict = VerdictWords::of(alloc, &request)?;
    written(write_view(alloc, output, asked, shown, listing.as_ref(), &verdict, &[]))?;
    Ok(verdict.status)
}

/// The text of a request, with its maps and its context.
fn checked_of(request: &CheckRequest) -> CheckedText<'_> {
    CheckedText {
        text: request.text.as_slice(),
        shapes: request.shapes.as_slice(),
        context_size: request.context_size,
    }
}
