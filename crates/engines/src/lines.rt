//! The lines of the output (docs/HOST.md).

ghost use Rattle.std.specs.Prelude.{[], ◌∷◌, ◌++◌, Some, IfErr, OnOk};
ghost use Rattle.std.specs.Io.KnownBytes.{Appends};
ghost use Rattle.host_types.specs.Refusals.{refusal_text};
ghost use Rattle.hex.specs.Hex.{encode_lower};
ghost use Rattle.host_file.specs.Faults.{IsBad, IsOfWords};
ghost use Rattle.engines.specs.Beginnings.{begin_event};
ghost use Rattle.engines.specs.Lines.{line_of, location_text, reply_lines, tenant_front, value_line};

use crate::beginning::Beginning;
use crate::fault::written;
use hex::encode_to_slice;
use host_core::{Event, Reply};
use host_file::FileFault;
use host_types::{Fault, MapNo};
use ksm_counters::text;
use std::fmt;
use std::io::Write;

/// The front of a line that speaks of a tenant, where one is named.
#[derive(Clone, Copy)]
struct Front(Option<u32>);

impl fmt::Display for Front {
    ghost output = { λ front. Some (tenant_front front.0) };

    fn fmt<W: fmt::Write>(&self, f: &mut fmt::Formatter<W>) -> fmt::Result {
        match self.0 {
            Some(tenant) => write!(f, "tenant {tenant} "),
            None => Ok(()),
        }
    }
}

/// Writes the line of a refusal of the host itself, and passes it on: what it means stands after it.
pub(crate) fn write_refusal<W: Write>(writer: &mut W, fault: Fault) -> Result<(), FileFault>
    ensures line { OnOk result (Appends (W.contents writer.old) (W.contents writer.new) (line_of (refusal_text fault))) }
    ensures bad { IfErr result (λ fault. ¬ IsBad fault) }
    ensures words { IfErr result (λ fault. ¬ IsOfWords fault) }
{
    written(writeln!(writer, "{fault}"))?;
    written(writer.flush())
}

/// Writes the lines of a reply to an event, where it has any, and passes on that of a refusal: what it means
/// stands after it. `run` is the number of the latest run of the event's tenant.
pub fn write_reply<W: Write>(
    writer: &mut W,
    event: &Event,
    run: u64,
    reply: &Reply,
) -> Result<(), FileFault>
    ensures lines { OnOk result (Appends (W.contents writer.old) (W.contents writer.new) (reply_lines event.now run reply.now)) }
    ensures bad { IfErr result (λ fault. ¬ IsBad fault) }
{
    let front = Front(event.tenant());
    match reply {
        Reply::Ended { ret, steps } => {
            written(writeln!(writer, "{front}run {run} ret {ret} steps {steps}"))
        }
        Reply::Refused(fault) => write_refused(writer, event.tenant(), *fault),
        Reply::Value(value) => write_value(writer, event, value.as_slice()),
        Reply::Counters(counters) => written(text(counters, writer)),
        Reply::Map(_)
        | Reply::Program(_)
        | Reply::Begun
        | Reply::Stepped
        | Reply::Visited(_)
        | Reply::Done => Ok(()),
    }
}

/// Writes the lines of a reply to what opens a run, where it has any. `run` is the number of the latest run of the tenant.
pub fn write_beginning_reply<W: Write>(
    writer: &mut W,
    beginning: &Beginning<'_>,
    run: u64,
    reply: &Reply,
) -> Result<(), FileFault>
    ensures lines { OnOk result (Appends (W.contents writer.old) (W.contents writer.new) (reply_lines (begin_event beginning.now) run reply.now)) }
    ensures bad { IfErr result (λ fault. ¬ IsBad fault) }
{
    // Of its event such a line names the tenant alone, as that of a reply to a step does.
    let step = Event::Step {
        tenant: beginning.tenant,
    };
    write_reply(writer, &step, run, reply)
}

/// Writes the line of a refusal, and passes it on: what it means stands after it.
fn write_refused<W: Write>(
    writer: &mut W,
    tenant: Option<u32>,
    fault: Fault,
) -> Result<(), FileFault>
    ensures line { OnOk result (Appends (W.contents writer.old) (W.contents writer.new) (line_of (tenant_front tenant ++ refusal_text fault))) }
    ensures bad { IfErr result (λ fault. ¬ IsBad fault) }
{
    let front = Front(tenant);
    written(writeln!(writer, "{front}{fault}"))?;
    written(writer.flush())
}

/// Writes the line of the value that an event looked up.
fn write_value<W: Write>(writer: &mut W, event: &Event, value: &[u8]) -> Result<(), FileFault>
    ensures line { OnOk result (Appends (W.contents writer.old) (W.contents writer.new) (value_line event.now value.now)) }
    ensures bad { IfErr result (λ fault. ¬ IsBad fault) }
{
    let Event::HostLookup { tenant, map, key } = event else {
        return Ok(());
    };
    write_location(writer, *tenant, *map, *key)?;
    write_hex(writer, value)?;
    end_line(writer)
}

/// Writes where a value stands.
fn write_location<W: Write>(
    writer: &mut W,
    tenant: u32,
    map: MapNo,
    key: u32,
) -> Result<(), FileFault>
    ensures location { OnOk result (Appends (W.contents writer.old) (W.contents writer.new) (location_text tenant map key)) }
    ensures bad { IfErr result (λ fault. ¬ IsBad fault) }
{
    written(write!(writer, "tenant {tenant} map {map} key {key} "))
}

/// Ends a line.
fn end_line<W: Write>(writer: &mut W) -> Result<(), FileFault>
    ensures newline { OnOk result (Appends (W.contents writer.old) (W.contents writer.new) (10 ∷ [])) }
    ensures bad { IfErr result (λ fault. ¬ IsBad fault) }
{
    written(writeln!(writer))
}

/// Writes bytes as hex text in lower case.
fn write_hex<W: Write>(writer: &mut W, bytes: &[u8]) -> Result<(), FileFault>
    ensures digits { OnOk result (Appends (W.contents writer.old) (W.contents writer.new) (encode_lower bytes.now)) }
    ensures bad { IfErr result (λ fault. ¬ IsBad fault) }
{
    for byte in bytes {
        write_byte(writer, *byte)?;
    }
    Ok(())
}

/// Writes a byte as two hex digits.
fn write_byte<W: Write>(writer: &mut W, byte: u8) -> Result<(), FileFault>
    ensures digits { OnOk result (Appends (W.contents writer.old) (W.contents writer.new) (encode_lower (byte ∷ []))) }
    ensures bad { IfErr result (λ fault. ¬ IsBad fault) }
{
    let mut digits = [0; 2];
    match encode_to_slice([byte], &mut digits) {
        Ok(()) => written(writer.write_all(&digits)),
        Err(_) => unreachable!(),
    }
}
