//! The engine of `replay`: a host file's events in their order, on one thread.

ghost use Rattle.std.specs.Prelude.{◌≡◌, ◌<◌, ◌≤◌, length, IfErr, IfOk, IfSome, OnOk};
ghost use Rattle.std.specs.Io.KnownBytes.{Appends};
ghost use Rattle.host_types.specs.OptionTable.{AreOptions};
ghost use Rattle.host_types.specs.Refusals.{refusal_text};
ghost use Rattle.page_table.specs.Limits.{AreLimits};
ghost use Rattle.host_core.specs.World.{new_system};
ghost use Rattle.host_core.specs.HostView.{StandsForSystem};
ghost use Rattle.host_file.specs.Faults.{IsBad};
ghost use Rattle.host_file.specs.HostFile.{IsFileText, max_bytes};
ghost use Rattle.host_file.specs.declared.file.HostFile.{HostFile};
ghost use Rattle.engines.specs.Input.{AreNoFile};
ghost use Rattle.engines.specs.Lines.{line_of};
ghost use Rattle.engines.specs.Replay.{IsReplayed};

use crate::explanation::explain_host;
use crate::fault::written;
use crate::lines::write_refusal;
use crate::session::Session;
use crate::watch::Watch;
use host_core::Host;
use host_file::{BadFile, Cause, FileFault, HostFile, Location, MAX_BYTES, read_file};
use host_types::Fault;
use std::alloc::{AllocError, Global};
use std::io;
use std::io::{Read, Write};

/// Applies the events of the host file that the reader gives, in their order, to a new host. Each run that
/// ends, each value that is looked up and each refusal is one line of the output, each counter that is
/// asked for too, and nothing else is written there; which event was refused, and what that means, goes
/// to `words`, and how far it is to the watch (`Unwatched`: to nobody). Answers the status: 0, or 1 if a
/// refusal was written. A bad file applies nothing; after a write that fails no further event is applied.
pub fn replay<R: Read, W: Write, E: Write, V: Watch>(
    alloc: Global,
    reader: &mut R,
    writer: &mut W,
    diagnostics: &mut E,
    watch: &mut V,
) -> Result<u8, FileFault>
    ensures status { IfOk result (λ status. status ≤ 1) }
    ensures replayed { IfOk result (λ status. IfSome (R.remaining reader.old) (λ bytes.
        (length bytes ≤ max_bytes) × ((file : HostFile) × IsFileText bytes file
        × IsReplayed file (W.contents writer.old) (W.contents writer.new) status))) }
    ensures bad { IfErr result (λ fault. IsBad fault → (writer.new ≡ writer.old) × (diagnostics.new ≡ diagnostics.old)) }
    ensures no_file { IfErr result (λ fault. IsBad fault → IfSome (R.remaining reader.old) AreNoFile) }
{
    let file = file_from(alloc, reader)?;
    let status = replay_file(alloc, &file, writer, diagnostics, watch);
    let flushed = writer.flush();
    let status = status?;
    written(flushed)?;
    Ok(status)
}

/// The host file that a reader gives. It is called bad only where its bytes are none.
pub fn file_from<R: Read>(alloc: Global, reader: &mut R) -> Result<HostFile, FileFault>
    ensures read { IfOk result (λ file. IfSome (R.remaining reader.old) (λ bytes. (length bytes ≤ max_bytes) × IsFileText bytes file)) }
    ensures bad { IfErr result (λ fault. IsBad fault → IfSome (R.remaining reader.old) AreNoFile) }
{
    let bytes = bytes_from(alloc, reader)?;
    match str::from_utf8(bytes.as_slice()) {
        Ok(text) => read_file(alloc, text),
        Err(_) => Err(bad_document(Cause::NotText)),
    }
}

/// The bytes that a reader gives, where they aren't more than a host file may have.
fn bytes_from<R: Read>(alloc: Global, reader: &mut R) -> Result<Vec<u8>, FileFault>
    ensures read { IfOk result (λ read. IfSome (R.remaining reader.old) (λ bytes. (length bytes ≤ max_bytes) × (read.items ≡ bytes))) }
    ensures bad { IfErr result (λ fault. IsBad fault → IfSome (R.remaining reader.old) (λ bytes. max_bytes < length bytes)) }
{
    let mut bytes = Vec::new(alloc);
    // One byte more says that there are more.
    let mut front = reader.take(MAX_BYTES as u64 + 1);
    if let Err(error) = front.read_to_end(&mut bytes) {
        return Err(read_fault(error));
    }
    if bytes.len() > MAX_BYTES {
        return Err(bad_document(Cause::TooLong));
    }
    Ok(bytes)
}

fn bad_document(cause: Cause) -> FileFault {
    FileFault::Bad(BadFile {
        location: Location::Document,
        cause,
    })
}

fn read_fault(error: io::Error) -> FileFault
    ensures { ¬ IsBad result }
{
    if error.kind() == io::ErrorKind::OutOfMemory {
        FileFault::OutOfMemory(AllocError)
    } else {
        FileFault::Read(error)
    }
}

/// Applies the events of a host file to a new host.
fn replay_file<W: Write, E: Write, V: Watch>(
    alloc: Global,
    file: &HostFile,
    writer: &mut W,
    diagnostics: &mut E,
    watch: &mut V,
) -> Result<u8, FileFault>
    ensures replayed { IfOk result (IsReplayed file.now (W.contents writer.old) (W.contents writer.new)) }
    ensures fault { IfErr result (λ fault. ¬ IsBad fault) }
{
    match Host::new(alloc, file.frames, file.tenants, file.options) {
        Ok(host) => replay_commands(alloc, host, file, writer, diagnostics, watch),
        Err(fault) => {
            refuse(file, fault, writer, diagnostics)?;
            Ok(1)
        }
    }
}

/// Writes why there is no host of a file.
pub fn refuse<W: Write, E: Write>(
    file: &HostFile,
    fault: Fault,
    writer: &mut W,
    diagnostics: &mut E,
) -> Result<(), FileFault>
    ensures line { OnOk result (Appends (W.contents writer.old) (W.contents writer.new) (line_of (refusal_text fault))) }
    ensures bad { IfErr result (λ fault. ¬ IsBad fault) }
{
    write_refusal(writer, fault)?;
    // The line is written: what it means may be lost.
    let _ = explain_host(diagnostics, file, fault);
    Ok(())
}

/// Performs the commands of a host file on its new host.
fn replay_commands<W: Write, E: Write, V: Watch>(
    alloc: Global,
    host: Host,
    file: &HostFile,
    writer: &mut W,
    diagnostics: &mut E,
    watch: &mut V,
) -> Result<u8, FileFault>
    requires host { StandsForSystem host (new_system file.now.frames file.now.tenants file.now.options) }
    requires limits { AreLimits file.now.frames file.now.tenants × AreOptions file.now.options }
    ensures replayed { IfOk result (IsReplayed file.now (W.contents writer.old) (W.contents writer.new)) }
    ensures fault { IfErr result (λ fault. ¬ IsBad fault) }
{
    let mut session = Session::new(alloc, host, file)?;
    session.perform_all(file.commands.as_slice(), writer, diagnostics, watch)?;
    Ok(u8::from(session.has_refused()))
}
