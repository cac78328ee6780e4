use crate::limit::{greatest, least};
use std::fmt;
use verifier_kinds::{Align, Kind, Offsets, Range};

/// What is known of a register.
#[derive(Clone, Copy)]
pub struct Known {
    pub register: u8,
    pub kind: Option<Kind>,
}

impl fmt::Display for Known {
    fn fmt<W: fmt::Write>(&self, f: &mut fmt::Formatter<W>) -> fmt::Result {
        let register = self.register;
        match self.kind {
            None => write!(f, "of r{register} nothing is known"),
            Some(Kind::Scalar(range)) => write!(f, "r{register} is {}", Numbers(range)),
            Some(Kind::Context(offset)) => {
                write!(
                    f,
                    "r{register} is the context's address{}",
                    Moved(i64::from(offset))
                )
            }
            Some(Kind::Stack(offset)) => {
                write!(f, "r{register} is r10{}", Moved(i64::from(offset)))
            }
            Some(Kind::MapValue { map, offsets }) => {
                write!(
                    f,
                    "r{register} is the address of a value of map {map}{}",
                    Reach(offsets)
                )
            }
            Some(Kind::MaybeValue { map, .. }) => {
                write!(f, "r{register} is 0 or the address of a value of map {map}")
            }
            Some(Kind::MapName(map)) => write!(f, "r{register} is the name of map {map}"),
        }
    }
}

/// Numbers of a range.
#[derive(Clone, Copy)]
struct Numbers(Range);

impl fmt::Display for Numbers {
    fn fmt<W: fmt::Write>(&self, f: &mut fmt::Formatter<W>) -> fmt::Result {
        let range = self.0;
        if range.low == range.high {
            return write!(f, "{}", range.low);
        }
        let multiple = Multiple("by ", range.align);
        let left = range.high.wrapping_neg();
        if 1 <= left && left <= 8 {
            return write!(f, "{} to 2^64 - {left}{multiple}", range.low);
        }
        write!(f, "{} to {}{multiple}", range.low, range.high)
    }
}

/// Which numbers alone are meant, after a word for that; nothing where all are.
#[derive(Clone, Copy)]
pub struct Multiple(pub &'static str, pub Align);

impl fmt::Display for Multiple {
    fn fmt<W: fmt::Write>(&self, f: &mut fmt::Formatter<W>) -> fmt::Result {
        let Multiple(word, align) = *self;
        match align {
            Align::One => Ok(()),
            _ => write!(f, " {word}{}", align.factor()),
        }
    }
}

/// How far an address moved: ` + 8`, ` - 4`, or nothing.
#[derive(Clone, Copy)]
pub struct Moved(pub i64);

impl fmt::Display for Moved {
    fn fmt<W: fmt::Write>(&self, f: &mut fmt::Formatter<W>) -> fmt::Result {
        match self.0 {
            0 => Ok(()),
            ..0 => write!(f, " - {}", self.0.unsigned_abs()),
            _ => write!(f, " + {}", self.0),
        }
    }
}

/// The offsets of an address, which are kept `OFFSET_BIAS` more than they are.
#[derive(Clone, Copy)]
struct Reach(Offsets);

impl fmt::Display for Reach {
    fn fmt<W: fmt::Write>(&self, f: &mut fmt::Formatter<W>) -> fmt::Result {
        let low = least(self.0);
        let high = greatest(self.0);
        match (low, high) {
            (0, 0) => Ok(()),
            _ if low == high => write!(f, " and {low} bytes"),
            _ => write!(
                f,
                " and {low} to {high} bytes{}",
                Multiple("by ", self.0.align)
            ),
        }
    }
}
