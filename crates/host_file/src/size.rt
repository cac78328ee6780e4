ghost use Rattle.std.specs.Prelude.{◌≡◌, count_by, IfErr, OnOk};
ghost use Rattle.host_file.specs.Faults.{Refutes};
ghost use Rattle.host_file.specs.declared.fault.FileFault.TheVariants.{Bad};
ghost use Rattle.host_file.specs.declared.fault.Location.TheVariants.{Document};
ghost use Rattle.host_file.specs.HostFile.{IsSmall, is_equals, opens};

use crate::fault::{BadFile, Cause, FileFault, Location};

/// The most bytes that a host file may have. A longer one is bad.
pub const MAX_BYTES: usize = 16 << 20;

/// The most of the characters `.`, `[` and `{` that a host file may have. Each may make a table.
const MAX_OPENINGS: usize = 300_000;

/// The most of the character `=` that a host file may have. Each makes a member of a table.
const MAX_EQUALS: usize = 1_000_000;

/// Refuses a text that may take too much memory once it is read: what a table and its members take is many
/// times what they take in the text.
pub(crate) fn require_small(text: &str) -> Result<(), FileFault>
    ensures small { OnOk result (IsSmall text.now) }
    ensures bad { IfErr result (Refutes (IsSmall text.now)) }
{
    if text.len() > MAX_BYTES {
        Err(too_much(Cause::TooLong))
    } else if count_openings(text) > MAX_OPENINGS {
        Err(too_much(Cause::TooManyOpenings))
    } else if count_equals(text) > MAX_EQUALS {
        Err(too_much(Cause::TooManyEquals))
    } else {
        Ok(())
    }
}

fn too_much(cause: Cause) -> FileFault
    ensures { result ≡ Bad (record { location = Document; cause = cause }) }
{
    FileFault::Bad(BadFile {
        location: Location::Document,
        cause,
    })
}

/// How many characters of a text open an array, a table or a header of one, or part a key.
fn count_openings(text: &str) -> usize
    ensures { result ≡ count_by opens text.now }
{
    let mut count = 0;
    for byte in text.as_bytes() {
        if matches!(byte, b'.' | b'[' | b'{') {
            count += 1;
        }
    }
    count
}

/// How many characters of a text are `=`.
fn count_equals(text: &str) -> usize
    ensures { result ≡ count_by is_equals text.now }
{
    let mut count = 0;
    for byte in text.as_bytes() {
        if *byte == b'=' {
            count += 1;
        }
    }
    count
}
