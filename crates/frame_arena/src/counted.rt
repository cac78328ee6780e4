//! A view of an arena whose contracts count the pages that were looked at.
ghost use Rattle.std.specs.Prelude.{◌≡◌, ◌+◌, ◌<◌, ◌≤◌, ◌↔◌, ℕ, IsTrue, length};
ghost use Rattle.std.specs.Borrow.{ftrue};
ghost use Rattle.std.specs.Cmp.Lexicographic.{slice_cmp};
ghost use Rattle.std.specs.Ordering.{nat_cmp};
ghost use Rattle.host_types.specs.Bytes.{number_of, part_of};
ghost use Rattle.host_types.specs.Pages.{zero_page, fingerprint_of};
ghost use Rattle.frame_arena.specs.Pages.{IsAccessSize, page_at};
ghost use Rattle.frame_arena.specs.Counted.{CountedPages};

use crate::arena::FrameArena;
use host_types::limits::PAGE_SIZE;
use std::cmp::Ordering;
use std::marker::Model;

/// How often an arena was looked at. It takes no bytes, and only contracts see the number.
#[derive(Drop)]
pub(crate) struct Steps {
    pub ghost number: { ℕ },
}

impl Model for Steps {
    ghost also_owns = { λ _. ftrue };
}

impl Steps {
    pub(crate) fn none() -> Steps
        ensures { result.number ≡ 0 }
    {
        Steps {}
    }

    pub(crate) fn after(_before: &Steps) -> Steps
        ensures { result.number ≡ _before.now.number + 1 }
    {
        Steps {}
    }
}

/// An arena that is only looked at. Contracts see its pages, and how many calls looked at one or two
/// of them; nothing else leads to the pages, so a bound on that number bounds the work.
#[derive(Drop)]
pub struct Counted<'a> {
    arena: &'a FrameArena,
    steps: Steps,
}

impl<'a> Model for Counted<'a> {
    ghost use Rattle.frame_arena.specs.Counted.{CountedPages};

    ghost Value = { CountedPages };

    ghost view = { λ counted. record { pages = counted.arena.now; steps = counted.steps.number } };
}

impl<'a> Counted<'a> {
    /// The arena, at which nothing has been looked yet.
    pub fn new(arena: &'a FrameArena) -> Self
        ensures { result ≡ record { pages = arena.now; steps = 0 } }
    {
        Counted {
            arena,
            steps: Steps::none(),
        }
    }

    /// `FrameArena::order`, as one step.
    pub fn order(&mut self, a: u32, b: u32) -> Ordering
        requires a { a < length self.old.pages }
        requires b { b < length self.old.pages }
        ensures answered { result ≡ slice_cmp nat_cmp (page_at self.old.pages a) (page_at self.old.pages b) }
        ensures counted { self.new ≡ record self.old { steps = self.old.steps + 1 } }
    {
        self.count();
        self.arena.order(a, b)
    }

    /// `FrameArena::same`, as one step.
    pub fn same(&mut self, a: u32, b: u32) -> bool
        requires a { a < length self.old.pages }
        requires b { b < length self.old.pages }
        ensures answered { IsTrue result ↔ (page_at self.old.pages a ≡ page_at self.old.pages b) }
        ensures counted { self.new ≡ record self.old { steps = self.old.steps + 1 } }
    {
        self.count();
        self.arena.same(a, b)
    }

    /// `FrameArena::read`, as one step.
    pub fn read(&mut self, frame: u32, at: u32, size: u32) -> u64
        requires frame { frame < length self.old.pages }
        requires size { IsAccessSize size }
        requires within { at + size ≤ PAGE_SIZE }
        ensures answered { result ≡ number_of (part_of (page_at self.old.pages frame) at size) }
        ensures counted { self.new ≡ record self.old { steps = self.old.steps + 1 } }
    {
        self.count();
        self.arena.read(frame, at, size)
    }

    /// `FrameArena::get`, as one step.
    pub fn get(&mut self, frame: u32, at: u32, into: &mut [u8])
        requires frame { frame < length self.old.pages }
        requires within { at + length into.old ≤ PAGE_SIZE }
        ensures answered { into.new ≡ part_of (page_at self.old.pages frame) at (length into.old) }
        ensures counted { self.new ≡ record self.old { steps = self.old.steps + 1 } }
    {
        self.count();
        self.arena.get(frame, at, into);
    }

    /// `FrameArena::is_zero`, as one step.
    pub fn is_zero(&mut self, frame: u32) -> bool
        requires { frame < length self.old.pages }
        ensures answered { IsTrue result ↔ (page_at self.old.pages frame ≡ zero_page) }
        ensures counted { self.new ≡ record self.old { steps = self.old.steps + 1 } }
    {
        self.count();
        self.arena.is_zero(frame)
    }

    /// `FrameArena::fingerprint`, as one step.
    pub fn fingerprint(&mut self, frame: u32) -> u64
        requires { frame < length self.old.pages }
        ensures answered { result ≡ fingerprint_of (page_at self.old.pages frame) }
        ensures counted { self.new ≡ record self.old { steps = self.old.steps + 1 } }
    {
        self.count();
        self.arena.fingerprint(frame)
    }

    /// One step more.
    fn count(&mut self)
        ensures { self.new ≡ record self.old { steps = self.old.steps + 1 } }
    {
        self.steps = Steps::after(&self.steps);
    }
}
