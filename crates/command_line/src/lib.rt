//! The words of the command lines of `bpf_host` (docs/HOST.md), of `explain` (docs/EXPLAIN.md), of `lower` (docs/LOWER.md), of
//! `merging` (docs/MERGING.md) and of `bpf_object` (man/bpf_object.1): what they ask for.
#![tactic(auto)]

mod explain;
mod lower;
mod merging;
mod object;

use clap::{Arg, ArgAction, ArgMatches, Command, Error};
pub use explain::{ToExplain, explained_of};
pub use lower::{ToLower, lowered_of};
pub use merging::{ToDraw, drawn_of};
pub use object::{Form, ToLoad, loaded_of};
use std::alloc::{AllocError, Global};
use terminal_text::quoted;

/// The program's name.
const NAME: &str = "bpf_host";

/// What the words of the command line ask for.
#[derive(Debug, Drop)]
pub enum Request<'a> {
    /// To replay the host file at a path.
    Replay {
        path: &'a str,
    },
    /// To serve the host file at a path.
    Serve {
        path: &'a str,
    },
    /// To verify the program of a hex text, with maps of these shapes and a context of a size. The
    /// words are as they were given.
    Check {
        hex: &'a str,
        shapes: Vec<&'a str>,
        context: &'a str,
    },
}

/// What the words of `explain`, `lower` or `merging` ask for.
#[derive(Debug, Drop)]
pub enum Asked<T> {
    /// To do what the program is for.
    Program(T),
    /// To print the help or the version, which is this text.
    Text(String),
}

/// The version of `explain`, `lower` and `merging`.
const VERSION: &str = "0.1.0";

/// Why words ask for nothing.
#[derive(Debug, Drop)]
pub enum WrongWords {
    /// They make no request. What is printed repeats at most 40 characters of a word.
    Usage(String),
    OutOfMemory(AllocError),
}

/// What words ask for, the program's name being the first of them. All that isn't a request, help
/// among it, is usage.
pub fn request_of<'a>(alloc: Global, words: &'a [String]) -> Result<Request<'a>, WrongWords> {
    let host = command(alloc).map_err(WrongWords::OutOfMemory)?;
    let Ok(matches) = host.try_get_matches_from(words) else {
        let answered = printed_of(alloc, NAME, words).map_err(WrongWords::OutOfMemory)?;
        return Err(usage(said_of(alloc, command(alloc), answered.as_slice())));
    };
    if let Some(check) = matches.subcommand_matches("check") {
        return check_of(alloc, check);
    }
    if let Some(path) = path_of(&matches, "replay") {
        return Ok(Request::Replay { path });
    }
    match path_of(&matches, "serve") {
        Some(path) => Ok(Request::Serve { path }),
        None => Err(usage(String::from_str(alloc, "no FILE is given"))),
    }
}

/// The path of the host file for what the words ask for, where they ask for this.
fn path_of<'a>(matches: &ArgMatches<'a>, name: &str) -> Option<&'a str> {
    matches.subcommand_matches(name)?.get_str("FILE")
}

/// Words as they are printed: cut as words from outside are. The first of them is the program's own path, of which just
/// the name is printed.
fn printed_of(alloc: Global, name: &str, words: &[String]) -> Result<Vec<String>, AllocError> {
    let mut answered = Vec::new(alloc);
    answered.push(String::from_str(alloc, name)?)?;
    for word in words.iter().skip(1) {
        answered.push(quoted(alloc, word.as_str())?)?;
    }
    Ok(answered)
}

/// What clap makes of words.
#[derive(Drop)]
enum Parsed<'a> {
    Matches(ArgMatches<'a>),
    /// The help or the version, for which they ask.
    Text(String),
    /// They make no request.
    Wrong,
}

/// The words of a command, the program's name being the first of them.
fn parse<'a>(
    alloc: Global,
    command: Result<Command<'a>, AllocError>,
    words: &'a [String],
) -> Result<Parsed<'a>, WrongWords> {
    let command = command.map_err(WrongWords::OutOfMemory)?;
    match command.try_get_matches_from(words) {
        Ok(matches) => Ok(Parsed::Matches(matches)),
        Err(error) => match text_asked(alloc, &error)? {
            Some(text) => Ok(Parsed::Text(text)),
            None => Ok(Parsed::Wrong),
        },
    }
}

/// What a command says of words that make no request, as they are printed: these make none either.
fn said_of<'a>(
    alloc: Global,
    command: Result<Command<'a>, AllocError>,
    answered: &'a [String],
) -> Result<String, AllocError> {
    match command?.try_get_matches_from(answered) {
        Ok(_) => String::from_str(alloc, "the words make no request"),
        Err(error) => error.to_string(alloc),
    }
}

/// The text of help or of a version, where an error says that it was asked for.
fn text_asked(alloc: Global, error: &Error) -> Result<Option<String>, WrongWords> {
    if error.use_stderr() {
        return Ok(None);
    }
    match error.to_string(alloc) {
        Ok(text) => Ok(Some(text)),
        Err(error) => Err(WrongWords::OutOfMemory(error)),
    }
}

/// The fault of words of which this is said, where there is memory for it.
fn usage(said: Result<String, AllocError>) -> WrongWords {
    match said {
        Ok(said) => WrongWords::Usage(said),
        Err(error) => WrongWords::OutOfMemory(error),
    }
}

/// What the words after `check` ask for.
fn check_of<'a>(alloc: Global, check: &ArgMatches<'a>) -> Result<Request<'a>, WrongWords> {
    let Some(hex) = check.get_str("HEX") else {
        return Err(usage(String::from_str(alloc, "no HEX is given")));
    };
    let shapes = check.get_strs("V:E").unwrap_or(&[]);
    Ok(Request::Check {
        hex,
        shapes: shapes.to_vec(alloc).map_err(WrongWords::OutOfMemory)?,
        context: check.get_str("context").unwrap_or("0"),
    })
}

fn command<'a>(alloc: Global) -> Result<Command<'a>, AllocError> {
    let host = Command::new(alloc, NAME)
        .about("runs eBPF programs of several tenants")
        .subcommand_required(true);
    let replay = "applies the events of a host file in their order";
    let serve = "runs the tenants of a host file on threads";
    let host = with(host, of_file(alloc, "replay", replay))?;
    let host = with(host, of_file(alloc, "serve", serve))?;
    with(host, check(alloc))
}

/// A command with one more subcommand, if there is memory for that.
fn with<'a>(
    command: Command<'a>,
    subcommand: Result<Command<'a>, AllocError>,
) -> Result<Command<'a>, AllocError> {
    command.subcommand(subcommand?)
}

/// What is done with a host file.
fn of_file<'a>(
    alloc: Global,
    name: &'static str,
    about: &'static str,
) -> Result<Command<'a>, AllocError> {
    Command::new(alloc, name)
        .about(about)
        .arg(required(alloc, "FILE", "the host file"))
}

fn check<'a>(alloc: Global) -> Result<Command<'a>, AllocError> {
    Command::new(alloc, "check")
        .about("verifies a program without running it")
        .arg(required(alloc, "HEX", "the program, as hex text"))?
        .arg(shapes(alloc))?
        .arg(context(alloc))
}

/// A word that must be given.
fn required<'a>(alloc: Global, name: &'static str, help: &'static str) -> Arg<'a> {
    Arg::new(alloc, name)
        .help(help)
        .required(true)
        .action(ArgAction::Set)
}

/// The maps that a program may use.
fn shapes<'a>(alloc: Global) -> Arg<'a> {
    Arg::new(alloc, "V:E")
        .help("the value size and the entries of each map")
        .num_args(0..)
        .action(ArgAction::Append)
}

/// The context of a program.
fn context<'a>(alloc: Global) -> Arg<'a> {
    option(
        alloc,
        "context",
        "N",
        "the bytes of the context, 0 if it isn't given",
    )
}

/// An option that has a value.
fn option<'a>(
    alloc: Global,
    name: &'static str,
    value: &'static str,
    help: &'static str,
) -> Arg<'a> {
    Arg::new(alloc, name)
        .long(name)
        .value_name(value)
        .help(help)
        .action(ArgAction::Set)
}

/// An option that has none.
fn flag<'a>(alloc: Global, name: &'static str, help: &'static str) -> Arg<'a> {
    Arg::new(alloc, name)
        .long(name)
        .help(help)
        .action(ArgAction::SetTrue)
}
