/// A power of 2 that is known to divide a number.
#[derive(Clone, Copy, PartialEq, Eq)]
pub enum Align {
    One,
    Two,
    Four,
    Eight,
}

impl Align {
    ghost use Rattle.std.specs.Prelude.{◌≡◌, ◌<◌, ◌≤◌};
    ghost use Rattle.verifier_kinds.specs.Kinds.{factor, rank, of_rank, times_power, least_align, greatest_align, align_of};

    /// The power of 2 itself.
    pub const fn factor(self) -> u64
        ensures { result ≡ factor self }
    {
        match self {
            Align::One => 1,
            Align::Two => 2,
            Align::Four => 4,
            Align::Eight => 8,
        }
    }

    /// The exponent of the power.
    pub(crate) const fn rank(self) -> u32
        ensures rank { result ≡ rank self }
        ensures small { result ≤ 3 }
    {
        match self {
            Align::One => 0,
            Align::Two => 1,
            Align::Four => 2,
            Align::Eight => 3,
        }
    }

    /// The power of 2 with an exponent, at most 8.
    fn of_rank(exponent: u32) -> Align
        ensures { result ≡ of_rank exponent }
    {
        match exponent {
            0 => Align::One,
            1 => Align::Two,
            2 => Align::Four,
            _ => Align::Eight,
        }
    }

    /// The alignment of a number's products with a power of 2.
    pub(crate) fn raised(self, exponent: u32) -> Align
        requires { exponent < 64 }
        ensures { result ≡ times_power self exponent }
    {
        Align::of_rank(self.rank() + exponent)
    }

    /// The least of two alignments.
    pub(crate) fn least(self, other: Align) -> Align
        ensures { result ≡ least_align self other }
    {
        if self.rank() <= other.rank() {
            self
        } else {
            other
        }
    }

    /// The greatest of two alignments.
    pub(crate) fn greatest(self, other: Align) -> Align
        ensures { result ≡ greatest_align self other }
    {
        if self.rank() <= other.rank() {
            other
        } else {
            self
        }
    }

    /// The greatest alignment that divides a number.
    pub(crate) fn of(n: u64) -> Align
        ensures { result ≡ align_of n }
    {
        if n % 8 == 0 {
            Align::Eight
        } else if n % 4 == 0 {
            Align::Four
        } else if n % 2 == 0 {
            Align::Two
        } else {
            Align::One
        }
    }
}

/// The numbers from `low` to `high` that `align` divides.
#[derive(Clone, Copy, PartialEq, Eq)]
pub struct Range {
    pub low: u64,
    pub high: u64,
    pub align: Align,
}

impl Range {
    ghost use Rattle.std.specs.Prelude.{◌≡◌, ◌+◌, ◌-◌, ◌^◌, ◌<◌, ◌↔◌, IsTrue};
    ghost use Rattle.verifier_kinds.specs.Kinds.{IsNormal, IsWithin, constant, factor, full, is_constant, join_of_ranges, normal};
    ghost use Rattle.verifier_kinds.specs.Arithmetic.{normal_of};

    /// The range of one number.
    #[tactic(auto, using(crate::proofs::Ranges::constant_is_normal))]
    pub fn constant(n: u64) -> Range
        ensures range { result ≡ constant n }
        ensures normal { IsNormal result }
    {
        Range {
            low: n,
            high: n,
            align: Align::of(n),
        }
    }

    /// All numbers of 64 bits that the alignment divides.
    #[tactic(auto, using(crate::proofs::Ranges::full_is_normal))]
    pub fn full(align: Align) -> Range
        ensures range { result ≡ full align }
        ensures normal { IsNormal result }
    {
        Range::normal(0, u64::MAX, align)
    }

    /// The range with its ends moved inward to multiples of the alignment.
    fn normal(low: u64, high: u64, align: Align) -> Range
        requires { low + (factor align - 1) < 2 ^ 64 }
        ensures { result ≡ normal low high align }
    {
        let factor = align.factor();
        let first = (low + (factor - 1)) / factor * factor;
        let last = high / factor * factor;
        let align = if first == last {
            Align::of(first)
        } else {
            align
        };
        Range {
            low: first,
            high: last,
            align,
        }
    }

    /// The range with its ends moved inward to multiples of its alignment.
    pub(crate) fn normalized(self) -> Range
        requires { self.low + (factor self.align - 1) < 2 ^ 64 }
        ensures { result ≡ normal_of self }
    {
        Range::normal(self.low, self.high, self.align)
    }

    /// Whether the range has one number.
    pub fn is_constant(&self) -> bool
        ensures { result ≡ is_constant self.now }
    {
        self.low == self.high
    }

    /// The least range above two.
    fn join(self, other: Range) -> Range
        ensures { result ≡ join_of_ranges self other }
    {
        Range {
            low: self.low.min(other.low),
            high: self.high.max(other.high),
            align: self.align.least(other.align),
        }
    }

    /// Whether the range lies within another.
    fn is_within(self, outer: Range) -> bool
        ensures { IsTrue result ↔ IsWithin self outer }
    {
        outer.low <= self.low && self.high <= outer.high && outer.align.rank() <= self.align.rank()
    }
}

/// How many bytes a pointer may point at most before or after the beginning of a map's element. Offsets are
/// kept this much more than they are, so that none is negative.
pub const OFFSET_BIAS: u32 = 65536;

/// The greatest offset as it is kept.
pub const GREATEST_OFFSET: u32 = 131072;

/// The offsets from `low` to `high`, from the beginning of a map's element, that `align` divides. Each
/// is `OFFSET_BIAS` more than it is.
#[derive(Clone, Copy, PartialEq, Eq)]
pub struct Offsets {
    pub low: u32,
    pub high: u32,
    pub align: Align,
}

impl Offsets {
    ghost use Rattle.std.specs.Prelude.{◌≡◌, ◌≤◌, ◌↔◌, IsTrue};
    ghost use Rattle.verifier_kinds.specs.Kinds.{AreOffsets, IsNormal, IsWithin, greatest_offset, join_of_ranges, offsets_in, range_in};

    /// The beginning of an element alone.
    pub const BEGINNING: Offsets = Offsets {
        low: OFFSET_BIAS,
        high: OFFSET_BIAS,
        align: Align::Eight,
    };

    /// The offsets as a range of numbers, each `OFFSET_BIAS` more than the offset is.
    pub fn range(self) -> Range
        ensures { result ≡ range_in self }
    {
        Range {
            low: u64::from(self.low),
            high: u64::from(self.high),
            align: self.align,
        }
    }

    /// The offsets of a range of numbers that are each `OFFSET_BIAS` more.
    pub(crate) fn of(range: Range) -> Offsets
        requires low { range.low ≤ greatest_offset }
        requires high { range.high ≤ greatest_offset }
        ensures { result ≡ offsets_in range }
    {
        Offsets {
            low: range.low as u32,
            high: range.high as u32,
            align: range.align,
        }
    }

    /// The least offsets above two.
    fn join(self, other: Offsets) -> Offsets
        ensures { result ≡ offsets_in (join_of_ranges (range_in self) (range_in other)) }
    {
        Offsets {
            low: self.low.min(other.low),
            high: self.high.max(other.high),
            align: self.align.least(other.align),
        }
    }

    /// Whether the offsets lie within others.
    fn are_within(self, outer: Offsets) -> bool
        ensures { IsTrue result ↔ IsWithin (range_in self) (range_in outer) }
    {
        self.range().is_within(outer.range())
    }
}

/// What is known of a value that is set. Of a value of which nothing is known there is no kind:
/// the verifier writes `None`.
#[derive(Clone, Copy, PartialEq, Eq)]
pub enum Kind {
    /// A number within a range.
    Scalar(Range),
    /// The address that lies this many bytes above the context's.
    Context(i32),
    /// The address that lies this many bytes above the stack's end.
    Stack(i32),
    /// An address at one of the offsets from the beginning of some element of a map.
    MapValue { map: u32, offsets: Offsets },
    /// What a lookup in a map answered at the slot `call`: 0, or where an element begins. All of one
    /// call are one number.
    MaybeValue { map: u32, call: u32 },
    /// The name of a map: the number that stands for it.
    MapName(u32),
}

impl Kind {
    ghost use Rattle.std.specs.Prelude.{◌≡◌, ◌↔◌, IsTrue};
    ghost use Rattle.verifier_kinds.specs.Kinds.{IsKindBelow, join_of_kinds};

    /// The least kind above two, if there is one.
    pub fn join(self, other: Kind) -> Option<Kind>
        ensures { result ≡ join_of_kinds self other }
    {
        match (self, other) {
            (Kind::Scalar(a), Kind::Scalar(b)) => Some(Kind::Scalar(a.join(b))),
            (Kind::Context(a), Kind::Context(b)) => (a == b).then_some(self),
            (Kind::Stack(a), Kind::Stack(b)) => (a == b).then_some(self),
            (Kind::MapValue { map, offsets: a }, Kind::MapValue { map: m, offsets: b }) => {
                (map == m).then_some(Kind::MapValue {
                    map,
                    offsets: a.join(b),
                })
            }
            (Kind::MaybeValue { map, call }, Kind::MaybeValue { map: m, call: c }) => {
                (map == m && call == c).then_some(self)
            }
            (Kind::MapName(a), Kind::MapName(b)) => (a == b).then_some(self),
            _ => None,
        }
    }

    /// Whether the kind says at least as much as another.
    pub fn is_below(self, other: Kind) -> bool
        ensures { IsTrue result ↔ IsKindBelow self other }
    {
        match (self, other) {
            (Kind::Scalar(inner), Kind::Scalar(outer)) => inner.is_within(outer),
            (Kind::Context(a), Kind::Context(b)) => a == b,
            (Kind::Stack(a), Kind::Stack(b)) => a == b,
            (Kind::MapValue { map, offsets: a }, Kind::MapValue { map: m, offsets: b }) => {
                map == m && a.are_within(b)
            }
            (Kind::MaybeValue { map, call }, Kind::MaybeValue { map: m, call: c }) => {
                map == m && call == c
            }
            (Kind::MapName(a), Kind::MapName(b)) => a == b,
            _ => false,
        }
    }
}
