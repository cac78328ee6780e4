ghost use Rattle.std.specs.Prelude.{◌≡◌, ◌++◌, ◌∷◌, [], ◌==◌, ◌+◌, ◌<◌, ◌≤◌, ◌&&◌, nat_le, nat_lt, not, false, filter, find, length, max, All, OnOk, OnErr};
ghost use Rattle.frame_arena.specs.Pages.{page_at};
ghost use Rattle.unstable_tree.specs.WaitingList.{WaitingList, AreOthers, AreElsewhere, is_match};

use frame_arena::FrameArena;
use std::alloc::{AllocError, Global};
use std::marker::Model;

/// A page that waits: its index among all pages, the frame that it lies on, and the fingerprint that
/// it had when it was inserted.
#[derive(Clone, Copy, PartialEq, Eq)]
pub struct Waiter {
    pub page_index: usize,
    pub frame: u32,
    pub fingerprint: u64,
}

impl Waiter {
    /// Whether it has this recorded fingerprint and the bytes of a frame.
    fn is_match(&self, arena: &FrameArena, fingerprint: u64, frame: u32) -> bool
        requires waiting { self.now.frame < length arena.now }
        requires frame { frame < length arena.now }
        ensures { result ≡ is_match arena.now fingerprint (page_at arena.now frame) self.now }
    {
        self.fingerprint == fingerprint && arena.same(self.frame, frame)
    }
}

/// How many pages are looked at for one branch back, since a list is long where no page waits for another.
const STEP: usize = 4;

/// An index before which no page has a fingerprint: one of the four there has it, or fewer are left.
fn without(waiters: &[Waiter], fingerprint: u64) -> usize
    ensures within { result ≤ length waiters.now }
    ensures others { AreOthers fingerprint waiters.now 0 result }
{
    let mut at = 0;
    while waiters.len() - at >= STEP && !is_in_step(waiters, at, fingerprint) {
        at += STEP;
    }
    at
}

/// Whether one of the four pages from an index on has a fingerprint.
#[inline(always)]
fn is_in_step(waiters: &[Waiter], at: usize, fingerprint: u64) -> bool
    requires { at + 4 ≤ length waiters.now }
    ensures { result ≡ false → AreOthers fingerprint waiters.now at (at + 4) }
{
    waiters[at].fingerprint == fingerprint
        || waiters[at + 1].fingerprint == fingerprint
        || waiters[at + 2].fingerprint == fingerprint
        || waiters[at + 3].fingerprint == fingerprint
}

/// An index before which no page is the one of another index: one of the four there is it, or fewer are left.
fn elsewhere(waiters: &[Waiter], page_index: usize) -> usize
    ensures within { result ≤ length waiters.now }
    ensures others { AreElsewhere page_index waiters.now 0 result }
{
    let mut at = 0;
    while waiters.len() - at >= STEP && !is_one_in_step(waiters, at, page_index) {
        at += STEP;
    }
    at
}

/// Whether one of the four pages from an index on is the one of another index.
#[inline(always)]
fn is_one_in_step(waiters: &[Waiter], at: usize, page_index: usize) -> bool
    requires { at + 4 ≤ length waiters.now }
    ensures { result ≡ false → AreElsewhere page_index waiters.now at (at + 4) }
{
    waiters[at].page_index == page_index
        || waiters[at + 1].page_index == page_index
        || waiters[at + 2].page_index == page_index
        || waiters[at + 3].page_index == page_index
}

/// Whether the page at an index waits.
fn waits(waiters: &[Waiter], page_index: usize) -> bool
    ensures { result ≡ false → AreElsewhere page_index waiters.now 0 (length waiters.now) }
{
    let mut at = elsewhere(waiters, page_index);
    while at < waiters.len() && waiters[at].page_index != page_index {
        at += 1;
    }
    at < waiters.len()
}

/// The first page with this recorded fingerprint and the bytes of a frame.
fn first_match(
    waiters: &[Waiter],
    arena: &FrameArena,
    fingerprint: u64,
    frame: u32,
) -> Option<Waiter>
    requires frame { frame < length arena.now }
    requires waiting { All (λ w. w.frame < length arena.now) waiters.now }
    ensures { result ≡ find (is_match arena.now fingerprint (page_at arena.now frame)) waiters.now }
{
    for waiter in waiters {
        if waiter.is_match(arena, fingerprint, frame) {
            return Some(*waiter);
        }
    }
    None
}

/// The pages that wait. Contracts see them in order of insertion, and for how many there is room.
#[derive(Drop)]
pub struct UnstableTree {
    waiters: Vec<Waiter>,
    /// For how many pages `reserve` was called.
    room: usize,
}

impl Model for UnstableTree {
    ghost use Rattle.std.specs.Prelude.{◌≤◌, vec_capacity};
    ghost use Rattle.unstable_tree.specs.WaitingList.{WaitingList};

    ghost Value = { WaitingList };

    ghost view = { λ tree. record { listed = tree.waiters.items; room = tree.room } };

    ghost invariant = { λ tree. tree.room ≤ vec_capacity tree.waiters };
}

impl UnstableTree {
    /// No page waits, and there is no room for one.
    pub fn new(alloc: Global) -> Self
        ensures { result ≡ record { listed = []; room = 0 } }
    {
        UnstableTree {
            waiters: Vec::new(alloc),
            room: 0,
        }
    }

    /// Makes room for that many pages in all. It is refused only where memory ran out, and changes
    /// nothing then.
    pub fn reserve(&mut self, pages: usize) -> Result<(), AllocError>
        ensures reserved { OnOk result (self.new ≡ record self.old { room = max self.old.room pages }) }
        ensures refused { OnErr result (self.new ≡ self.old) }
        ensures short { OnErr result (self.old.room < pages) }
    {
        if pages <= self.room {
            return Ok(());
        }
        let waiting = self.waiters.len();
        if waiting < pages {
            self.waiters.reserve_exact(pages - waiting)?;
        }
        self.room = pages;
        Ok(())
    }

    /// The page that waits longest of those with this recorded fingerprint and the bytes of a frame.
    pub fn find(&self, arena: &FrameArena, fingerprint: u64, frame: u32) -> Option<Waiter>
        requires frame { frame < length arena.now }
        requires listed { All (λ w. w.frame < length arena.now) self.now.listed }
        ensures { result ≡ find (is_match arena.now fingerprint (page_at arena.now frame)) self.now.listed }
    {
        let waiters = self.waiters.as_slice();
        let first = without(waiters, fingerprint);
        first_match(&waiters[first..], arena, fingerprint, frame)
    }

    /// Puts a page after all others. It takes no memory.
    pub fn insert(&mut self, waiter: Waiter)
        requires room { length self.old.listed < self.old.room }
        ensures { self.new ≡ record self.old { listed = self.old.listed ++ waiter ∷ [] } }
    {
        let pushed = self.waiters.push(waiter).is_ok();
        prove!(pushed);
    }

    /// Takes out the page at an index, if it waits.
    pub fn forget(&mut self, page_index: usize)
        ensures { self.new ≡ record self.old {
          listed = filter (λ w. not (w.page_index == page_index)) self.old.listed;
        } }
    {
        if waits(&self.waiters, page_index) {
            self.waiters
                .retain(|waiter| waiter.page_index != page_index);
        }
    }

    /// Takes out the pages that wait at the indices from `first` on and before `end`, in one walk of
    /// the list.
    pub fn forget_all(&mut self, first: usize, end: usize)
        ensures { self.new ≡ record self.old {
          listed = filter (λ w. not (nat_le first w.page_index && nat_lt w.page_index end)) self.old.listed;
        } }
    {
        self.waiters.retain(|waiter| !(first <= waiter.page_index && waiter.page_index < end));
    }

    /// Takes out all pages.
    pub fn flush(&mut self)
        ensures { self.new ≡ record self.old { listed = [] } }
    {
        self.waiters.clear();
    }
}
