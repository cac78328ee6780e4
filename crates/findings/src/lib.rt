//! What the verifier knew where it refuses a text: of the registers that the refused instruction reads, and which
//! bytes a helper would read that weren't stored. For words alone: no answer depends on it.
#![tactic(auto)]

mod access;
mod advised;
mod checked;
mod cut;
mod known;
mod limit;
mod operands;
mod site;
mod unset;

pub use access::Access;
pub use advised::{advice_at, advice_by_kinds};
use bpf_decode::{FRAME_POINTER, Insn};
pub use checked::{CheckedText, is_within_limits};
pub use cut::{CLEAR, Cut};
use host_types::Refused;
use host_types::rule::{NULL_NOT_CHECKED, POINTER_LEAKS, UNSET_REGISTER};
use knowledge::Knowledge;
use known::Known;
pub use known::{Moved, Multiple};
use limit::Limit;
pub use limit::{greatest, least};
pub use operands::registers_read;
pub use site::Kinds;
use site::Site;
use std::alloc::Global;
use std::io;
use std::io::Write;
use unset::write_unset_bytes;

/// Writes what was known at the slot of a refusal, each finding after a `; `. Of a refusal that goes by no
/// register, and where there is no memory, nothing is written.
pub fn write_findings<W: Write>(
    alloc: Global,
    output: &mut W,
    checked: &CheckedText<'_>,
    refused: Refused,
) -> io::Result<()> {
    match Insn::at(checked.text, refused.slot as usize) {
        Some(insn) if is_of_values(refused) => match checked.knowledge(alloc) {
            Some(knowledge) => write_known_at(output, checked, refused, insn, &knowledge),
            None => Ok(()),
        },
        _ => Ok(()),
    }
}

/// Writes what was known at the slot of an instruction that is refused.
fn write_known_at<W: Write>(
    output: &mut W,
    checked: &CheckedText<'_>,
    refused: Refused,
    insn: Insn,
    knowledge: &Knowledge,
) -> io::Result<()> {
    let site = Site {
        checked: *checked,
        refused,
        insn,
        kinds: Kinds::at(knowledge, refused.slot),
    };
    write_registers(output, &site)?;
    write_unset_bytes(output, knowledge, &site)
}

/// Writes what is known of the registers that an instruction reads, and what may stand there, each after a `; `,
/// where the instruction breaks this rule. Of a rule that goes by no register nothing is written.
pub fn write_limits<W: Write>(
    output: &mut W,
    checked: &CheckedText<'_>,
    refused: Refused,
    kinds: &Kinds,
) -> io::Result<()> {
    match Insn::at(checked.text, refused.slot as usize) {
        Some(insn) if is_of_values(refused) => {
            let site = Site {
                checked: *checked,
                refused,
                insn,
                kinds: *kinds,
            };
            write_registers(output, &site)
        }
        _ => Ok(()),
    }
}

/// Whether a rule goes by what is known of registers.
fn is_of_values(refused: Refused) -> bool {
    let is_of_values = UNSET_REGISTER <= refused.number && refused.number <= NULL_NOT_CHECKED;
    is_of_values || refused.number == POINTER_LEAKS
}

/// Writes what is known of the registers that are read.
fn write_registers<W: Write>(output: &mut W, site: &Site<'_>) -> io::Result<()> {
    for register in registers_read(&site.insn) {
        // R10 is what it always is, and numbers above are no register's.
        if register < FRAME_POINTER {
            write_known(output, site, register)?;
        }
    }
    Ok(())
}

/// Writes what was known of a register, and what may stand there.
fn write_known<W: Write>(output: &mut W, site: &Site<'_>, register: u8) -> io::Result<()> {
    let kind = site.kind(register);
    write!(output, "; {}", Known { register, kind })?;
    match kind.and_then(|kind| Limit::of(site, register, kind)) {
        Some(limit) => write!(output, "{limit}"),
        None => Ok(()),
    }
}
