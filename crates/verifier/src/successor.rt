ghost use Rattle.std.specs.Prelude.{◌≡◌, ◌≤◌, IfSome};
ghost use Rattle.verifier_kinds.specs.Descriptions.{with_kind};
ghost use Rattle.verifier.specs.Flow.{target};
ghost use Rattle.verifier.specs.Pass.{target_in, targets_in};
ghost use Rattle.verifier.specs.Successor.{HasDst, checked, learned, successors_of};
ghost use Rattle.verifier.specs.Flow.{checked_kind};
ghost use Rattle.verifier_kinds.specs.Kinds.{IsKind};

use crate::flow::{Onward, Target};
use verifier_kinds::{Description, Kind, Offsets, Range};

/// The two successors of a conditional jump. Of `dst` the comparison gives a range on each way; `None`: no
/// number goes that way.
#[derive(Clone, Copy)]
pub(crate) struct Fork {
    pub dst: u8,
    pub next: u32,
    pub fallen: Option<Range>,
    pub jump: u32,
    pub jumped: Option<Range>,
}

/// The two successors of a conditional jump that says whether the answer of a lookup is 0. Of all that keep
/// this answer it is known on each way what it is.
#[derive(Clone, Copy)]
pub(crate) struct Check {
    pub map: u32,
    pub call: u32,
    pub next: u32,
    pub jump: u32,
    /// The jump is taken where the answer is 0.
    pub null_jumps: bool,
}

/// What a lookup's answer is once it is known whether it is 0.
fn checked_kind(map: u32, null: bool) -> Kind
    ensures kind { result ≡ checked_kind map null }
    ensures fulfils { IsKind result }
{
    if null {
        Kind::Scalar(Range::constant(0))
    } else {
        Kind::MapValue {
            map,
            offsets: Offsets::BEGINNING,
        }
    }
}

impl Check {
    ghost use Rattle.verifier_kinds.specs.Descriptions.{IsDescription};

    /// Makes of a description what is known on the way where the answer is 0, or on the other.
    pub(crate) fn learn(&self, null: bool, d: &mut Description)
        ensures learned { d.new ≡ checked self.now null d.old }
        ensures fulfils { IsDescription d.old → IsDescription d.new }
    {
        d.resolve(self.call, checked_kind(self.map, null));
    }

    /// What is known on one of the successors.
    fn learned(&self, null: bool, d: &Description) -> Description
        ensures { result ≡ checked self.now null d.now }
    {
        let mut after = *d;
        self.learn(null, &mut after);
        after
    }
}

/// Where an instruction leads from what is known after it: nowhere from the end, to the slot to which it
/// falls through, to the one to which it always jumps, or to either.
#[derive(Clone, Copy)]
pub(crate) enum Successor {
    Ends,
    Falls(u32),
    Jumps(u32),
    Forks(Fork),
    Checks(Check),
}

/// What is known on a way of a conditional jump that may be gone.
fn learned(fork: &Fork, range: Option<Range>, d: &Description) -> Option<Description>
    requires { fork.now.dst ≤ 10 }
    ensures { result ≡ learned fork.now range d.now }
{
    let range = range?;
    let mut after = *d;
    after.set_register(fork.dst, Kind::Scalar(range));
    Some(after)
}

/// A target that is reached where something is known there.
fn target(slot: u32, description: Option<Description>) -> Option<Target>
    ensures { target_in result ≡ target slot description }
{
    let description = description?;
    Some(Target { slot, description })
}

impl Successor {
    /// The targets, each with its own description.
    pub(crate) fn onward(self, d: &Description) -> Onward
        requires { HasDst self }
        ensures { targets_in result ≡ successors_of self d.now }
    {
        match self {
            Successor::Ends => Onward {
                next: None,
                jump: None,
            },
            Successor::Falls(slot) => Onward {
                next: target(slot, Some(*d)),
                jump: None,
            },
            Successor::Jumps(slot) => Onward {
                next: None,
                jump: target(slot, Some(*d)),
            },
            Successor::Forks(fork) => Onward {
                next: target(fork.next, learned(&fork, fork.fallen, d)),
                jump: target(fork.jump, learned(&fork, fork.jumped, d)),
            },
            Successor::Checks(check) => Onward {
                next: target(check.next, Some(check.learned(!check.null_jumps, d))),
                jump: target(check.jump, Some(check.learned(check.null_jumps, d))),
            },
        }
    }
}
