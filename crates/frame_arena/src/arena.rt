ghost use Rattle.std.specs.Prelude.{◌≡◌, ◌+◌, ◌*◌, ◌<◌, ◌≤◌, ◌↔◌, IsTrue, IfOk, All, length, replicate, slice_set};
ghost use Rattle.std.specs.Cmp.Lexicographic.{slice_cmp};
ghost use Rattle.std.specs.Ordering.{nat_cmp};
ghost use Rattle.host_types.specs.Bytes.{number_of, bytes_of, part_of, with_part};
ghost use Rattle.host_types.specs.Pages.{zero_page, fingerprint_of};
ghost use Rattle.frame_arena.specs.Pages.{IsPage, IsAccessSize, page_at};

use crate::bytes::Bytes;
use crate::number::read_number;
use crate::{block, lanes};
use host_types::limits::PAGE_SIZE;
use std::alloc::{AllocError, Global};
use std::cmp::Ordering;
use std::marker::Model;

/// Pages of 4096 bytes, each in a frame of its own. Contracts see the list of the pages, in which
/// a page stands at its frame's number.
#[derive(Drop)]
pub struct FrameArena {
    frames: u32,
    /// The pages, one after another.
    block: Bytes,
}

impl Model for FrameArena {
    ghost use Rattle.std.specs.Prelude.{◌≡◌, ℕ, ◌*◌, List, length};
    ghost use Rattle.frame_arena.specs.Block.{pages_of};

    ghost Value = { List (List ℕ) };

    ghost view = { λ arena. pages_of arena.frames arena.block };

    ghost invariant = { λ arena. length arena.block ≡ arena.frames * 4096 };
}

/// Where a frame's byte stands in the block.
fn offset(frame: u32, at: u32) -> usize
    requires { at ≤ PAGE_SIZE }
    ensures { result ≡ frame * 4096 + at }
{
    frame as usize * PAGE_SIZE as usize + at as usize
}

impl FrameArena {
    /// An arena of pages of zeros, as many as there are frames. It is refused only where memory
    /// ran out.
    pub fn new(alloc: Global, frames: u32) -> Result<Self, AllocError>
        ensures { IfOk result (λ arena. arena ≡ replicate frames zero_page) }
    {
        let block = Bytes::zeros(alloc, offset(frames, 0))?;
        Ok(FrameArena { frames, block })
    }

    /// How many frames there are.
    pub fn frames(&self) -> u32
        ensures count { result ≡ length self.now }
        ensures pages { All IsPage self.now }
    {
        block::bytes_are_small(self.block.as_slice());
        self.frames
    }

    /// The number in `size` bytes of a page from the byte `at` on, the lowest byte first. A number
    /// has 1, 2, 4 or 8 bytes.
    pub fn read(&self, frame: u32, at: u32, size: u32) -> u64
        requires frame { frame < length self.now }
        requires size { IsAccessSize size }
        requires within { at + size ≤ PAGE_SIZE }
        ensures { result ≡ number_of (part_of (page_at self.now frame) at size) }
    {
        read_number(self.part(frame, at, size as usize))
    }

    /// Writes the lowest `size` bytes of a number, 1, 2, 4 or 8 of them, into a page from the byte
    /// `at` on, the lowest first.
    pub fn write(&mut self, frame: u32, at: u32, size: u32, value: u64)
        requires frame { frame < length self.old }
        requires size { IsAccessSize size }
        requires within { at + size ≤ PAGE_SIZE }
        ensures { self.new ≡ slice_set self.old frame
            (with_part (page_at self.old frame) at (bytes_of size value)) }
    {
        let start = offset(frame, at);
        block::put_number(self.block.as_mut_slice(), start, size as usize, value);
    }

    /// Reads bytes of a page from the byte `at` on.
    pub fn get(&self, frame: u32, at: u32, into: &mut [u8])
        requires frame { frame < length self.now }
        requires within { at + length into.old ≤ PAGE_SIZE }
        ensures { into.new ≡ part_of (page_at self.now frame) at (length into.old) }
    {
        into.copy_from_slice(self.part(frame, at, into.len()));
    }

    /// Writes bytes into a page from the byte `at` on.
    pub fn put(&mut self, frame: u32, at: u32, bytes: &[u8])
        requires frame { frame < length self.old }
        requires within { at + length bytes.now ≤ PAGE_SIZE }
        ensures { self.new ≡ slice_set self.old frame
            (with_part (page_at self.old frame) at bytes.now) }
    {
        let start = offset(frame, at);
        block::put(self.block.as_mut_slice(), start, bytes);
    }

    /// Copies a page into another frame. A copy of a frame to itself changes nothing.
    pub fn copy(&mut self, from: u32, to: u32)
        requires from { from < length self.old }
        requires to { to < length self.old }
        ensures { self.new ≡ slice_set self.old to (page_at self.old from) }
    {
        let from = offset(from, 0);
        let to = offset(to, 0);
        block::copy(self.block.as_mut_slice(), from, to);
    }

    /// Whether two frames hold the same bytes.
    pub fn same(&self, a: u32, b: u32) -> bool
        requires a { a < length self.now }
        requires b { b < length self.now }
        ensures { IsTrue result ↔ (page_at self.now a ≡ page_at self.now b) }
    {
        lanes::same(self.page(a), self.page(b))
    }

    /// How two pages compare, byte by byte from the first.
    pub fn order(&self, a: u32, b: u32) -> Ordering
        requires a { a < length self.now }
        requires b { b < length self.now }
        ensures { result ≡ slice_cmp nat_cmp (page_at self.now a) (page_at self.now b) }
    {
        lanes::order(self.page(a), self.page(b))
    }

    /// Whether all bytes of a page are zero.
    pub fn is_zero(&self, frame: u32) -> bool
        requires { frame < length self.now }
        ensures { IsTrue result ↔ (page_at self.now frame ≡ zero_page) }
    {
        lanes::is_zero(self.page(frame))
    }

    /// The fingerprint of a page: `31 * f + byte` modulo `2^64`, folded over its bytes from 0 on.
    pub fn fingerprint(&self, frame: u32) -> u64
        requires { frame < length self.now }
        ensures { result ≡ fingerprint_of (page_at self.now frame) }
    {
        block::fingerprint(self.page(frame))
    }

    /// Fills a page with zeros.
    pub fn clear(&mut self, frame: u32)
        requires { frame < length self.old }
        ensures { self.new ≡ slice_set self.old frame zero_page }
    {
        block::clear(self.block.as_mut_slice(), offset(frame, 0));
    }

    /// The bytes of a frame.
    fn page(&self, frame: u32) -> &[u8]
        requires { frame < length self.now }
        ensures bytes { result.now ≡ page_at self.now frame }
        ensures sized { length result.now ≡ PAGE_SIZE }
    {
        block::part(self.block.as_slice(), offset(frame, 0), PAGE_SIZE as usize)
    }

    /// Some bytes of a frame, from the byte `at` on.
    fn part(&self, frame: u32, at: u32, size: usize) -> &[u8]
        requires frame { frame < length self.now }
        requires within { at + size ≤ PAGE_SIZE }
        ensures bytes { result.now ≡ part_of (page_at self.now frame) at size }
        ensures sized { length result.now ≡ size }
    {
        block::part(self.block.as_slice(), offset(frame, at), size)
    }
}
