//! The pages that open runs took out.
ghost use Rattle.std.specs.Prelude.{◌≡◌, ◌+◌, ◌*◌, ◌<◌, ◌≤◌, length, replicate, slice_set, if◌then◌else◌, true, false, IfOk};
ghost use Rattle.host_types.specs.Bytes.{part_of, with_part};
ghost use Rattle.host_types.specs.Pins.{is_pinned};
ghost use Rattle.page_table.specs.Pins.{pinned_among};

use host_types::limits::{MAX_MAPS, MAX_PAGES};
use std::alloc::{AllocError, Global};
use std::marker::Model;

/// For each index whether its page is pinned: an open run took it out of a group or off the frame of zeros,
/// and it isn't merged before the run's end. How many pages of each map are pinned is kept beside it, and how many of all.
#[derive(Drop)]
pub(crate) struct Pins {
    page_indices: Vec<bool>,
    /// By the maps' indices.
    numbers: Vec<u32>,
    total: u32,
}

impl Model for Pins {
    ghost use Rattle.std.specs.Prelude.{List, Bool};
    ghost use Rattle.page_table.specs.Pins.{ArePinsOf};

    ghost Value = { List Bool };

    ghost view = { λ pins. pins.page_indices.items };

    ghost invariant = { λ pins. ArePinsOf pins.page_indices.items pins.numbers.items pins.total };
}

impl Pins {
    /// No page of so many maps is pinned.
    #[tactic(auto, using(std::proofs::lemmas::Bool::Decides::nat_tests, crate::proofs::Unpinning::pins_new))]
    pub(crate) fn new(alloc: Global, maps: u32) -> Result<Self, AllocError>
        requires { maps ≤ 128 }
        ensures { IfOk result (λ pins. pins ≡ replicate (maps * 256) false) }
    {
        Ok(Pins {
            page_indices: vec![in alloc; false; maps as usize * MAX_PAGES]?,
            numbers: vec![in alloc; 0; maps as usize]?,
            total: 0,
        })
    }

    /// Whether the page at an index is pinned.
    pub(crate) fn is_pinned(&self, page_index: usize) -> bool
        requires { page_index < length self.now }
        ensures { result ≡ is_pinned self.now page_index }
    {
        self.page_indices[page_index]
    }

    /// How many pages of a map are pinned.
    pub(crate) fn pinned(&self, index: usize) -> u32
        requires { index * 256 < length self.now }
        ensures { result ≡ pinned_among (part_of self.now (index * 256) 256) }
    {
        self.numbers[index]
    }

    /// Pins the page at an index, if it is to be.
    pub(crate) fn pin_if(&mut self, is_pinned: bool, page_index: usize)
        requires { page_index < length self.old }
        ensures { self.new ≡ (if is_pinned then slice_set self.old page_index true else self.old) }
    {
        if is_pinned {
            self.pin(page_index);
        }
    }

    /// Pins the page at an index.
    fn pin(&mut self, page_index: usize)
        requires { page_index < length self.old }
        ensures { self.new ≡ slice_set self.old page_index true }
    {
        if !self.page_indices[page_index] {
            self.page_indices[page_index] = true;
            self.numbers[page_index / MAX_PAGES] += 1;
            self.total += 1;
        }
    }

    /// No page of a map is pinned any more. Where none was, no page is looked at.
    pub(crate) fn release(&mut self, index: usize)
        requires map { index * 256 < length self.old }
        requires few { index < 128 }
        ensures { self.new ≡ with_part self.old (index * 256) (replicate 256 false) }
    {
        if self.numbers[index] > 0 {
            self.clear(index);
        }
    }

    fn clear(&mut self, index: usize)
        requires map { index * 256 < length self.old }
        requires few { index < 128 }
        ensures { self.new ≡ with_part self.old (index * 256) (replicate 256 false) }
    {
        self.total -= self.numbers[index];
        clear_map(&mut self.page_indices, index * MAX_PAGES);
        self.numbers[index] = 0;
    }

    /// No page of the eight maps from one on is pinned any more. Most runs pin none: then one number is looked at.
    #[inline(always)]
    pub(crate) fn release_all(&mut self, first: usize)
        requires maps { first * 256 + 2048 ≤ length self.old }
        requires few { first + 8 ≤ 128 }
        ensures { self.new ≡ with_part self.old (first * 256) (replicate 2048 false) }
    {
        if self.total > 0 {
            self.release_each(first);
        }
    }

    /// No page of the eight maps from one on is pinned any more, where some page is.
    #[inline(never)]
    fn release_each(&mut self, first: usize)
        requires maps { first * 256 + 2048 ≤ length self.old }
        requires few { first + 8 ≤ 128 }
        ensures { self.new ≡ with_part self.old (first * 256) (replicate 2048 false) }
    {
        for number in 0..MAX_MAPS {
            self.release(first + number);
        }
    }
}

/// No page of the map whose first page stands at an index is pinned.
fn clear_map(page_indices: &mut [bool], first: usize)
    requires { first + 256 ≤ length page_indices.old }
    ensures { page_indices.new ≡ with_part page_indices.old first (replicate 256 false) }
{
    clear(&mut page_indices[first..first + MAX_PAGES]);
}

fn clear(page_indices: &mut [bool])
    ensures { page_indices.new ≡ replicate (length page_indices.old) false }
{
    page_indices.fill(false);
}
