//! The words of `bpf_object`.

use crate::{WrongWords, context, flag, option, printed_of, required, said_of, usage};
use clap::{Arg, ArgAction, ArgMatches, Command};
use std::alloc::{AllocError, Global};
use terminal_text::quoted;

/// The program's name.
const NAME: &str = "bpf_object";

/// An object file whose program is to be loaded, by a tenant and with a context of a size.
#[derive(Debug, Drop)]
pub struct ToLoad<'a> {
    pub path: &'a str,
    /// The section or the function, where there are several.
    pub section: Option<&'a str>,
    pub tenant: u32,
    pub context: u32,
    /// Whether the text is to be printed as it is, without being lowered.
    pub as_is: bool,
    pub form: Form<'a>,
}

/// What is printed of a program.
#[derive(Debug, Drop)]
pub enum Form<'a> {
    /// Events of a host file.
    Events,
    /// The text, as hex.
    Hex,
    /// The shapes of its maps.
    Maps,
    /// What it returns when it is run on contexts, of each of which the first bytes are given, in hex. The words are as
    /// they were given.
    Runs(Vec<&'a str>),
}

/// What the words of `bpf_object` ask for, the program's name being the first of them. All that isn't a request, help
/// among it, is usage.
pub fn loaded_of<'a>(alloc: Global, words: &'a [String]) -> Result<ToLoad<'a>, WrongWords> {
    let object = command(alloc).map_err(WrongWords::OutOfMemory)?;
    let Ok(matches) = object.try_get_matches_from(words) else {
        let answered = printed_of(alloc, NAME, words).map_err(WrongWords::OutOfMemory)?;
        return Err(usage(said_of(alloc, command(alloc), answered.as_slice())));
    };
    let Some(path) = matches.get_str("FILE") else {
        return Err(usage(String::from_str(alloc, "no FILE is given")));
    };
    // A wrong context is named before a wrong tenant, and that before forms that exclude each other.
    let context = number_of(alloc, &matches, "context")?;
    Ok(ToLoad {
        path,
        section: matches.get_str("section"),
        tenant: number_of(alloc, &matches, "tenant")?,
        context,
        as_is: matches.get_flag("as-is"),
        form: form_of(alloc, &matches)?,
    })
}

/// The form that words ask for.
fn form_of<'a>(alloc: Global, matches: &ArgMatches<'a>) -> Result<Form<'a>, WrongWords> {
    if let Some(words) = matches.get_strs("run") {
        let words = words.to_vec(alloc).map_err(WrongWords::OutOfMemory)?;
        return Ok(Form::Runs(words));
    }
    match (matches.get_flag("hex"), matches.get_flag("maps")) {
        (false, false) => Ok(Form::Events),
        (true, false) => Ok(Form::Hex),
        (false, true) => Ok(Form::Maps),
        (true, true) => {
            let said = String::from_str(alloc, "--hex and --maps can't both be given");
            Err(usage(said))
        }
    }
}

/// The number that an option has, or 0 where it isn't given.
fn number_of(alloc: Global, matches: &ArgMatches<'_>, option: &str) -> Result<u32, WrongWords> {
    let word = matches.get_str(option).unwrap_or("0");
    let is_decimal = word.bytes().all(|byte| byte.is_ascii_digit());
    match word.parse::<u32>() {
        Ok(number) if is_decimal => Ok(number),
        _ => {
            let word = quoted(alloc, word).map_err(WrongWords::OutOfMemory)?;
            Err(usage(format!(in alloc;
                "--{option} `{word}` is no decimal number from 0 to 4294967295"
            )))
        }
    }
}

fn command<'a>(alloc: Global) -> Result<Command<'a>, AllocError> {
    let about =
        "prints the events of a host file that load a program from an object file, or runs it";
    let file = "the object file, as clang -target bpf -c makes it";
    let section = "the section or the function, where there are several";
    let as_is = "prints the text without lowering it for the verifier";
    let args = [
        required(alloc, "FILE", file),
        option(alloc, "section", "NAME", section),
        option(alloc, "tenant", "N", "the tenant, 0 if it isn't given"),
        context(alloc),
        flag(alloc, "as-is", as_is),
        flag(alloc, "hex", "prints the text alone, as hex"),
        flag(
            alloc,
            "maps",
            "prints the name and the shape V:E of each map",
        ),
    ];
    let args = Vec::from_array(alloc, args)?;
    with_run(
        Command::new(alloc, NAME).about(about).args(args),
        run(alloc),
    )
}

/// The command with the contexts of runs, if there is memory for that.
fn with_run<'a>(
    object: Result<Command<'a>, AllocError>,
    run: Result<Arg<'a>, AllocError>,
) -> Result<Command<'a>, AllocError> {
    object?.arg(run?)
}

/// The contexts on which the program is run. Options that say how it is printed are of no use then.
fn run<'a>(alloc: Global) -> Result<Arg<'a>, AllocError> {
    option(
        alloc,
        "run",
        "HEX",
        "runs the program on a context that begins with these bytes, once for each --run",
    )
    .action(ArgAction::Append)
    .conflicts_with("tenant")?
    .conflicts_with("as-is")?
    .conflicts_with("hex")?
    .conflicts_with("maps")
}
