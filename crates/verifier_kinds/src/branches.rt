//! What a conditional jump says of dst on each of its two branches (this project's own profile).

ghost use Rattle.std.specs.Prelude.{◌≡◌, ◌+◌, ◌-◌, ◌^◌, ◌<◌, min, max, IfSome};
ghost use Rattle.insn_alu.specs.Comparisons.{IsBranch};
ghost use Rattle.verifier_kinds.specs.Arithmetic.{between};
ghost use Rattle.verifier_kinds.specs.Kinds.{IsKind, IsNormal, factor, greatest_align};
ghost use Rattle.verifier_kinds.specs.Refinement.{is_informative, kept_by, negated, refine_of, refined, some_of, without_end};

use crate::kind::{Align, Kind, Range};
use bpf_decode::{Comparison, Insn, Operation, Width};

/// The kind of dst where a conditional jump is taken, or isn't; `a` is what it is before, and `b` the
/// kind of the second operand. `None`: no number goes that way. Only numbers are compared with
/// numbers: of any other kind it says nothing.
#[tactic(auto, using(crate::proofs::Refinement::refined_is_kind))]
pub fn refine(insn: &Insn, taken: bool, a: Kind, b: Kind) -> Option<Kind>
    requires branch { IsBranch insn.now }
    requires left { IsKind a }
    requires right { IsKind b }
    ensures result { result ≡ refine_of insn.now taken a b }
    ensures kind { IfSome result IsKind }
{
    match (insn.operation(), a, b) {
        (
            Operation::Branch {
                comparison,
                width,
                ..
            },
            Kind::Scalar(a),
            Kind::Scalar(b),
        ) => Some(Kind::Scalar(refined(comparison, width, taken, a, b)?)),
        _ => Some(a),
    }
}

/// The numbers of `a` with which a jump by this comparison may be taken, or may not be `taken`, where
/// the second operand is a number of `b`. `None`: there are none.
pub fn refined(
    comparison: Comparison,
    width: Width,
    taken: bool,
    a: Range,
    b: Range,
) -> Option<Range>
    requires left { IsNormal a }
    requires right { IsNormal b }
    ensures range { result ≡ refined comparison width taken a b }
    ensures normal { IfSome result IsNormal }
{
    if !is_informative(width, a, b) {
        return Some(a);
    }
    let comparison = if taken {
        comparison
    } else {
        negated(comparison)
    };
    kept_by(comparison, a, b)
}

/// A comparison of 32 bits says something of ranges within its numbers alone.
fn is_informative(width: Width, a: Range, b: Range) -> bool
    requires left { IsNormal a }
    requires right { IsNormal b }
    ensures { result ≡ is_informative width a b }
{
    match width {
        Width::Bits32 => a.high <= u64::from(u32::MAX) && b.high <= u64::from(u32::MAX),
        Width::Bits64 => true,
    }
}

/// The comparison that holds where another doesn't; one that says nothing of a range stands for
/// itself.
fn negated(comparison: Comparison) -> Comparison
    ensures { result ≡ negated comparison }
{
    match comparison {
        Comparison::Equal => Comparison::NotEqual,
        Comparison::NotEqual => Comparison::Equal,
        Comparison::Greater => Comparison::LessOrEqual,
        Comparison::GreaterOrEqual => Comparison::Less,
        Comparison::Less => Comparison::GreaterOrEqual,
        Comparison::LessOrEqual => Comparison::Greater,
        other => other,
    }
}

/// The numbers of `a` of which a comparison with a number of `b` may hold, if there are any.
#[tactic(auto, using(crate::proofs::Refinement::none_above))]
fn kept_by(comparison: Comparison, a: Range, b: Range) -> Option<Range>
    requires left { IsNormal a }
    requires right { IsNormal b }
    ensures { result ≡ kept_by comparison a b }
{
    match comparison {
        Comparison::Equal => common(a, b),
        Comparison::NotEqual if b.is_constant() => without_end(a, b.low),
        Comparison::Greater => at_least(a, b.low.checked_add(1)?),
        Comparison::GreaterOrEqual => at_least(a, b.low),
        Comparison::Less => at_most(a, b.high.checked_sub(1)?),
        Comparison::LessOrEqual => at_most(a, b.high),
        _ => Some(a),
    }
}

/// The numbers that both ranges have.
#[tactic(auto, using(crate::proofs::Refinement::common_fits))]
fn common(a: Range, b: Range) -> Option<Range>
    requires left { IsNormal a }
    requires right { IsNormal b }
    ensures { result ≡ some_of (between (max a.low b.low) (min a.high b.high) (greatest_align a.align b.align)) }
{
    some_of(
        a.low.max(b.low),
        a.high.min(b.high),
        a.align.greatest(b.align),
    )
}

/// The range without a number, where that is one of its ends.
#[tactic(auto, using(crate::proofs::Refinement::none_above, crate::proofs::Refinement::fits))]
fn without_end(a: Range, n: u64) -> Option<Range>
    requires { IsNormal a }
    ensures { result ≡ without_end a n }
{
    let low = if a.low == n {
        a.low.checked_add(1)?
    } else {
        a.low
    };
    let high = if a.high == n {
        a.high.checked_sub(1)?
    } else {
        a.high
    };
    some_of(low, high, a.align)
}

/// The numbers of a range from another on.
#[tactic(auto, using(crate::proofs::Refinement::fits))]
fn at_least(a: Range, low: u64) -> Option<Range>
    requires { IsNormal a }
    ensures { result ≡ some_of (between (max a.low low) a.high a.align) }
{
    some_of(a.low.max(low), a.high, a.align)
}

/// The numbers of a range up to another.
#[tactic(auto, using(crate::proofs::Refinement::fits))]
fn at_most(a: Range, high: u64) -> Option<Range>
    requires { IsNormal a }
    ensures { result ≡ some_of (between a.low (min a.high high) a.align) }
{
    some_of(a.low, a.high.min(high), a.align)
}

/// The numbers between two ends that an alignment divides, if there are any.
#[tactic(auto, using(crate::proofs::Refinement::none_above))]
fn some_of(low: u64, high: u64, align: Align) -> Option<Range>
    requires { high + (factor align - 1) < 2 ^ 64 }
    ensures { result ≡ some_of (between low high align) }
{
    if high < low {
        return None;
    }
    let range = Range { low, high, align }.normalized();
    (range.low <= range.high).then_some(range)
}
