use crate::access::Access;
use crate::site::Site;
use bpf_decode::{AluCode, Operation, Source, Width};
use host_types::layout::STACK_SIZE;
use host_types::rule::{MISALIGNED, OUTSIDE_CONTEXT, OUTSIDE_MAP, OUTSIDE_STACK};
use std::fmt;
use verifier_kinds::{Kind, OFFSET_BIAS, Offsets, Range};

/// The bytes of the stack, below R10.
const STACK: i64 = STACK_SIZE as i64;

/// What may stand in a register of the refused instruction.
#[derive(Clone, Copy)]
pub enum Limit {
    /// The access begins at these offsets from the beginning of its memory, or from R10, and may begin up to `most`. The
    /// least is named where the access may begin below it.
    Reach {
        low: i64,
        high: i64,
        least: Option<i64>,
        most: i64,
    },
    /// None at which the access is whole, since the memory has no more bytes than these.
    Nowhere(u32),
    /// An address of memory of so many bytes.
    Memory(u32),
    /// An address so far after a multiple of a number.
    Multiple {
        of: u32,
        following: u32,
    },
    /// A number up to this one, if the sum is to be in a value.
    Index(i64),
    /// One number alone.
    Constant,
}

impl Limit {
    /// The limit of a register of which a kind was known, where that may be why the instruction is refused.
    pub fn of(site: &Site<'_>, register: u8, kind: Kind) -> Option<Limit> {
        let number = site.refused.number;
        match kind {
            Kind::Scalar(range) => Limit::of_summand(site, register, range),
            _ if number == MISALIGNED => Limit::of_alignment(Access::by(site, register)?),
            Kind::Context(at) if number == OUTSIDE_CONTEXT => {
                let size = site.checked.context_size;
                let at = i64::from(at);
                Some(Limit::of_memory(site, register, (at, at), size))
            }
            Kind::MapValue { map, offsets } if number == OUTSIDE_MAP => {
                let size = site.value_size(map)?;
                let reach = (least(offsets), greatest(offsets));
                Some(Limit::of_memory(site, register, reach, size))
            }
            Kind::Stack(at) if number == OUTSIDE_STACK => {
                let access = Access::by(site, register)?;
                let at = i64::from(at);
                Some(Limit::of_access(access, (at, at), -STACK, 0))
            }
            _ => None,
        }
    }

    /// That of an address in memory of so many bytes, whose least and greatest offset from its beginning are known.
    fn of_memory(site: &Site<'_>, register: u8, reach: (i64, i64), size: u32) -> Limit {
        match Access::by(site, register) {
            Some(access) if access.bytes > size => Limit::Nowhere(size),
            Some(access) => Limit::of_access(access, reach, 0, i64::from(size)),
            None => Limit::Memory(size),
        }
    }

    /// That of an access by way of an address with a least and a greatest offset, in memory between two offsets.
    fn of_access(access: Access, reach: (i64, i64), begin: i64, end: i64) -> Limit {
        let offset = i64::from(access.offset);
        let (low, high) = reach;
        let low = low.saturating_add(offset);
        Limit::Reach {
            low,
            high: high.saturating_add(offset),
            least: if low < begin { Some(begin) } else { None },
            most: end.saturating_sub(i64::from(access.bytes)),
        }
    }

    /// That of an access whose location has to be a multiple of more than 1.
    fn of_alignment(access: Access) -> Option<Limit> {
        if access.align <= 1 {
            return None;
        }
        let align = i64::from(access.align);
        let offset = i64::from(access.offset);
        let following = offset.checked_neg()?.checked_rem_euclid(align)?;
        Some(Limit::Multiple {
            of: access.align,
            following: u32::try_from(following).ok()?,
        })
    }

    /// That of a number that is added to an address or taken from it.
    fn of_summand(site: &Site<'_>, register: u8, range: Range) -> Option<Limit> {
        let insn = site.insn;
        let Operation::Alu {
            code,
            width: Width::Bits64,
            source: Source::Register,
        } = Operation::of(insn.opcode)?
        else {
            return None;
        };
        if register != insn.src || range.is_constant() {
            return None;
        }
        match (code, site.kind(insn.dst)?) {
            (AluCode::Add, Kind::MapValue { map, offsets }) => {
                let last = i64::from(site.value_size(map)?).saturating_sub(1);
                let most = last.saturating_sub(greatest(offsets));
                if most < 0 {
                    None
                } else {
                    Some(Limit::Index(most))
                }
            }
            (AluCode::Add | AluCode::Sub, Kind::Context(_) | Kind::Stack(_))
            | (AluCode::Sub, Kind::MapValue { .. }) => Some(Limit::Constant),
            _ => None,
        }
    }
}

/// The least of offsets, which are kept `OFFSET_BIAS` more than they are.
pub fn least(offsets: Offsets) -> i64 {
    i64::from(offsets.low) - i64::from(OFFSET_BIAS)
}

/// The greatest of them.
pub fn greatest(offsets: Offsets) -> i64 {
    i64::from(offsets.high) - i64::from(OFFSET_BIAS)
}

impl fmt::Display for Limit {
    fn fmt<W: fmt::Write>(&self, f: &mut fmt::Formatter<W>) -> fmt::Result {
        match *self {
            Limit::Reach {
                low,
                high,
                least,
                most,
            } => {
                write_offsets(f, low, high)?;
                match least {
                    None => write!(f, "; at most {most}"),
                    Some(least) => write!(f, "; {least} to {most}"),
                }
            }
            Limit::Nowhere(size) => write!(f, ", of {size} bytes: none may stand here"),
            Limit::Memory(size) => write!(f, ", of {size} bytes"),
            Limit::Multiple { of, following: 0 } => {
                write!(f, "; only multiples of {of} may stand here")
            }
            Limit::Multiple { of, following } => {
                write!(
                    f,
                    "; only {following} more than multiples of {of} may stand here"
                )
            }
            Limit::Index(most) => {
                write!(f, "; for a byte of the value at most {most} may stand here")
            }
            Limit::Constant => write!(f, "; one number alone may stand here"),
        }
    }
}

/// Writes at which offsets an access begins.
fn write_offsets<W: fmt::Write>(f: &mut fmt::Formatter<W>, low: i64, high: i64) -> fmt::Result {
    if low == high {
        write!(f, "; offset {low}")
    } else {
        write!(f, "; offsets {low} to {high}")
    }
}
