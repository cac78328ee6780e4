//! What is known of a value.

use crate::range::{DOUBLE_WORD, Range};

/// What is known of a value. All but `Unset` and `Scalar` are pointers.
#[derive(Clone, Copy, PartialEq, Eq)]
pub(crate) enum Kind {
    /// Anything, also nothing that was ever written.
    Unset,
    Scalar(Range),
    /// So many bytes above the context's beginning.
    Context(i128),
    /// So many bytes above the stack's end.
    Stack(i128),
    /// At one of these offsets from the beginning of some element.
    MapValue { map: u32, offsets: Range },
    /// 0 or the beginning of an element, as the call at a slot answered.
    MaybeValue { map: u32, call: u32 },
    MapName(u32),
}

impl Kind {
    /// One number.
    pub(crate) fn constant(number: i128) -> Kind {
        Kind::Scalar(Range::constant(number))
    }

    /// Any number of 64 bits.
    pub(crate) fn any_number() -> Kind {
        Kind::Scalar(Range::full(DOUBLE_WORD, 1))
    }

    /// Whether it is an address, or may be one.
    pub(crate) fn is_pointer(self) -> bool {
        !matches!(self, Kind::Unset | Kind::Scalar(_))
    }

    /// The least kind above two.
    pub(crate) fn join(self, other: Kind) -> Kind {
        match (self, other) {
            (Kind::Scalar(a), Kind::Scalar(b)) => Kind::Scalar(a.join(b)),
            (
                Kind::MapValue { map, offsets },
                Kind::MapValue {
                    map: other_map,
                    offsets: others,
                },
            ) if map == other_map => Kind::MapValue {
                map,
                offsets: offsets.join(others),
            },
            _ if self == other => self,
            _ => Kind::Unset,
        }
    }

    /// Whether the kind is below another.
    pub(crate) fn is_below(self, other: Kind) -> bool {
        match (self, other) {
            (_, Kind::Unset) => true,
            (Kind::Scalar(a), Kind::Scalar(b)) => a.is_below(b),
            (
                Kind::MapValue { map, offsets },
                Kind::MapValue {
                    map: other_map,
                    offsets: others,
                },
            ) => map == other_map && offsets.is_below(others),
            _ => self == other,
        }
    }

    /// The kind once it is known what the call at a slot answered.
    pub(crate) fn with_answer(self, slot: u32, answer: Kind) -> Kind {
        match self {
            Kind::MaybeValue { call, .. } if call == slot => answer,
            _ => self,
        }
    }
}
