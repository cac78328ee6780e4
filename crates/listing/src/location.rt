//! Locations of which something is known, and what.

use crate::edges::Edge;
use crate::words::{Few, StackFew};
use bpf_decode::FRAME_POINTER;
use knowledge::Knowledge;
use std::fmt;
use verifier_kinds::{Description, Kind, StackSlot};

/// How many slots of eight bytes the stack has.
pub const STACK_SLOTS: u32 = 64;

/// A register, or eight bytes of the stack, the lowest address first.
#[derive(Clone, Copy, PartialEq, Eq)]
pub enum Location {
    Register(u8),
    Stack(u32),
}

impl fmt::Display for Location {
    fn fmt<W: fmt::Write>(&self, f: &mut fmt::Formatter<W>) -> fmt::Result {
        match *self {
            Location::Register(register) => write!(f, "r{register}"),
            Location::Stack(slot) => write!(f, "fp-{}", 8 * STACK_SLOTS.saturating_sub(slot)),
        }
    }
}

/// What is known of a location.
#[derive(Clone, Copy, PartialEq, Eq)]
pub enum Fact {
    Register(Option<Kind>),
    Stack(StackSlot),
}

impl Fact {
    /// What is known at a slot.
    pub fn at(knowledge: &Knowledge, slot: u32, location: Location) -> Fact {
        match location {
            Location::Register(register) if register <= FRAME_POINTER => {
                Fact::Register(knowledge.kind(slot, register))
            }
            Location::Stack(eight) if eight < STACK_SLOTS => {
                Fact::Stack(knowledge.stack(slot, eight as usize))
            }
            Location::Register(_) | Location::Stack(_) => Fact::Register(None),
        }
    }

    /// What a description says.
    fn in_description(known: &Description, location: Location) -> Fact {
        match location {
            Location::Register(register) if register <= FRAME_POINTER => {
                Fact::Register(known.register(register))
            }
            Location::Stack(eight) if eight < STACK_SLOTS => Fact::Stack(known.slot(
                eight as usize,
            )),
            Location::Register(_) | Location::Stack(_) => Fact::Register(None),
        }
    }

    /// Whether anything is known.
    pub fn is_some(self) -> bool {
        match self {
            Fact::Register(kind) => kind.is_some(),
            Fact::Stack(known) => known != StackSlot::Bytes(0),
        }
    }
}

impl fmt::Display for Fact {
    fn fmt<W: fmt::Write>(&self, f: &mut fmt::Formatter<W>) -> fmt::Result {
        match *self {
            Fact::Register(None) => write!(f, "unset"),
            Fact::Register(Some(kind)) => write!(f, "{}", Few(kind)),
            Fact::Stack(known) => write!(f, "{}", StackFew(known)),
        }
    }
}

/// A location of which edges that join say two things, the first two, and how many further edges say others.
#[derive(Clone, Copy)]
pub struct Differing {
    pub location: Location,
    /// What the first path says, and from which slot it comes.
    pub first: (Fact, u32),
    pub other: (Fact, u32),
    pub more: usize,
}

impl Differing {
    /// What edges say of a location, if it isn't the same.
    pub fn of(location: Location, edges: &[Edge]) -> Option<Differing> {
        let mut edges = edges.iter();
        let begin = edges.next()?;
        let first = Fact::in_description(&begin.known, location);
        let mut other: Option<(Fact, u32)> = None;
        let mut more: usize = 0;
        for edge in edges {
            let fact = Fact::in_description(&edge.known, location);
            match other {
                _ if fact == first => {}
                None => other = Some((fact, edge.from)),
                Some((known, _)) => {
                    if fact != known {
                        more = more.saturating_add(1);
                    }
                }
            }
        }
        Some(Differing {
            location,
            first: (first, begin.from),
            other: other?,
            more,
        })
    }
}

impl fmt::Display for Differing {
    fn fmt<W: fmt::Write>(&self, f: &mut fmt::Formatter<W>) -> fmt::Result {
        let (first, begin) = self.first;
        let (other, from) = self.other;
        write!(
            f,
            "{}: {first} from {begin}, {other} from {from}",
            self.location
        )?;
        match self.more {
            0 => Ok(()),
            more => write!(f, ", {more} more"),
        }
    }
}
