ghost use Rattle.std.specs.Prelude.{IfErr, IfOk};
ghost use Rattle.toml.specs.View.{array_view};
ghost use Rattle.host_file.specs.Faults.{MeansNone};
ghost use Rattle.host_file.specs.HostFile.{AreEvents, HasEvents, HasOptions, IsFileText, IsHostFile, IsOptionTable};
ghost use Rattle.host_file.specs.Section.{members_of};

use crate::command::Commands;
use crate::event::command_of;
use crate::fault::{BadFile, Cause, FileFault, Location};
use crate::key::Key;
use crate::section::Section;
use crate::size::require_small;
use host_types::Options;
use std::alloc::{AllocError, Global};
use toml::Value;
use toml::value::Array;

/// What a host file says.
#[derive(Drop)]
pub struct HostFile {
    pub tenants: u32,
    pub frames: u32,
    pub options: Options,
    pub commands: Commands,
}

/// Reads a host file. Its top keys are `tenants` and `frames`, both required, `options`, a table of
/// the options that aren't as by default, and `event`, an array of tables that each have `do` and
/// the keys of what they do.
pub fn read_file(alloc: Global, text: &str) -> Result<HostFile, FileFault>
    ensures read { IfOk result (IsFileText text.now) }
    ensures bad { IfErr result (MeansNone (IsFileText text.now)) }
{
    require_small(text)?;
    let table = match toml::table_from_str(alloc, text) {
        Ok(table) => table,
        Err(error) if error.is_memory() => return Err(FileFault::OutOfMemory(AllocError)),
        Err(error) => return Err(FileFault::Bad(BadFile {
            location: Location::Document,
            cause: Cause::NotToml(error),
        })),
    };
    host_file(alloc, &Section::new(&table, Location::Document))
}

fn host_file(alloc: Global, document: &Section<'_>) -> Result<HostFile, FileFault>
    ensures read { IfOk result (IsHostFile (members_of document.now)) }
    ensures bad { IfErr result (MeansNone (IsHostFile (members_of document.now))) }
{
    document.require_only(
        alloc,
        &[Key::Tenants, Key::Frames, Key::Options, Key::Event],
    )?;
    Ok(HostFile {
        tenants: document.number(Key::Tenants)?,
        frames: document.number(Key::Frames)?,
        options: options(alloc, document)?,
        commands: commands(alloc, document)?,
    })
}

/// The options that a document sets, and the others by default.
fn options(alloc: Global, document: &Section<'_>) -> Result<Options, FileFault>
    ensures read { IfOk result (HasOptions (members_of document.now)) }
    ensures bad { IfErr result (MeansNone (HasOptions (members_of document.now))) }
{
    match document.table(Key::Options)? {
        None => Ok(Options::standard()),
        Some(table) => table_options(alloc, &Section::new(table, Location::Options)),
    }
}

fn table_options(alloc: Global, table: &Section<'_>) -> Result<Options, FileFault>
    ensures read { IfOk result (IsOptionTable (members_of table.now)) }
    ensures bad { IfErr result (MeansNone (IsOptionTable (members_of table.now))) }
{
    let keys = [
        Key::PagesToScan,
        Key::Run,
        Key::UseZeroPages,
        Key::MaxPageSharing,
    ];
    table.require_only(alloc, &keys)?;
    let standard = Options::standard();
    Ok(Options {
        pages_to_scan: table.number_or(Key::PagesToScan, standard.pages_to_scan)?,
        run: table.number_or(Key::Run, standard.run)?,
        use_zero_pages: table.number_or(Key::UseZeroPages, standard.use_zero_pages)?,
        max_page_sharing: table.number_or(Key::MaxPageSharing, standard.max_page_sharing)?,
    })
}

/// The commands of a document's events.
fn commands(alloc: Global, document: &Section<'_>) -> Result<Commands, FileFault>
    ensures read { IfOk result (HasEvents (members_of document.now)) }
    ensures bad { IfErr result (MeansNone (HasEvents (members_of document.now))) }
{
    match document.array(Key::Event)? {
        None => Ok(Commands::from(Vec::new(alloc))),
        Some(values) => array_commands(alloc, document, values),
    }
}

fn array_commands(
    alloc: Global,
    document: &Section<'_>,
    values: &Array,
) -> Result<Commands, FileFault>
    ensures read { IfOk result (AreEvents (array_view values.now)) }
    ensures bad { IfErr result (MeansNone (AreEvents (array_view values.now))) }
{
    let mut commands = Vec::new(alloc);
    for (number, value) in values.iter().enumerate() {
        let Value::Table(table) = value else {
            return Err(document.bad(Cause::NotTables(Key::Event)));
        };
        let event = Section::new(table, Location::Event(number));
        commands.push(command_of(alloc, &event)?)?;
    }
    Ok(Commands::from(commands))
}
