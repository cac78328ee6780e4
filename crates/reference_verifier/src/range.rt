//! Ranges of numbers. All sums and products are of 128 bits: none of those that are asked for is too large, since
//! the numbers of a program have 64 bits; a product that is would stay above all of them.

/// `2^32`.
pub(crate) const WORD: i128 = 4_294_967_296;

/// `2^63`.
pub(crate) const HALF: i128 = 9_223_372_036_854_775_808;

/// `2^64`.
pub(crate) const DOUBLE_WORD: i128 = 18_446_744_073_709_551_616;

/// The numbers from `low` to `high` that `factor` divides, which is 1, 2, 4 or 8.
#[derive(Clone, Copy, PartialEq, Eq)]
pub(crate) struct Range {
    pub(crate) low: i128,
    pub(crate) high: i128,
    pub(crate) factor: i128,
}

/// What is left over when a number is divided by 1, 2, 4 or 8.
pub(crate) fn remainder(number: i128, factor: i128) -> i128 {
    match factor {
        8 => number.rem_euclid(8),
        4 => number.rem_euclid(4),
        2 => number.rem_euclid(2),
        _ => 0,
    }
}

/// The greatest of 8, 4, 2 and 1 that divides a number.
fn greatest_factor(number: i128) -> i128 {
    if remainder(number, 8) == 0 {
        8
    } else if remainder(number, 4) == 0 {
        4
    } else if remainder(number, 2) == 0 {
        2
    } else {
        1
    }
}

/// The least multiple at or above a number.
fn multiple_above(number: i128, factor: i128) -> i128 {
    match remainder(number, factor) {
        0 => number,
        over => number.saturating_add(factor).saturating_sub(over),
    }
}

/// The greatest multiple at or below a number.
fn multiple_below(number: i128, factor: i128) -> i128 {
    number.saturating_sub(remainder(number, factor))
}

impl Range {
    /// One number.
    pub(crate) fn constant(number: i128) -> Range {
        Range {
            low: number,
            high: number,
            factor: greatest_factor(number),
        }
    }

    /// The range in the one form that stands for its numbers; `None` if it has none.
    pub(crate) fn normal(low: i128, high: i128, factor: i128) -> Option<Range> {
        let low = multiple_above(low, factor);
        let high = multiple_below(high, factor);
        if low > high {
            None
        } else if low == high {
            Some(Range::constant(low))
        } else {
            Some(Range { low, high, factor })
        }
    }

    /// The numbers below `2^64` or `2^32` that a factor divides.
    pub(crate) fn full(modulus: i128, factor: i128) -> Range {
        Range {
            low: 0,
            high: multiple_below(modulus.saturating_sub(1), factor),
            factor,
        }
    }

    /// The one number that the range has, if it has one.
    pub(crate) fn only(self) -> Option<i128> {
        (self.low == self.high).then_some(self.low)
    }

    /// The least range above two.
    pub(crate) fn join(self, other: Range) -> Range {
        Range {
            low: self.low.min(other.low),
            high: self.high.max(other.high),
            factor: self.factor.min(other.factor),
        }
    }

    /// Whether the range is below another.
    pub(crate) fn is_below(self, other: Range) -> bool {
        other.low <= self.low
            && self.high <= other.high
            && remainder(self.factor, other.factor) == 0
    }
}
