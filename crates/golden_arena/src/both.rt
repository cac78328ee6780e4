//! The arena and the plain list of pages, on which the same calls are made.

ghost use Rattle.std.specs.Prelude.{◌≡◌, ◌+◌, ◌<◌, ◌≤◌, IfOk, length};

use crate::draws::Draws;
use crate::plain::PlainPages;
use frame_arena::FrameArena;
use host_types::limits::PAGE_SIZE;
use std::alloc::{AllocError, Global};
use std::cmp::Ordering;

/// How many bytes `get` and `put` move at most.
const MOST: u32 = 64;

/// Both forms of the same pages, of which there is one at least, and the generator.
#[derive(Drop)]
pub(crate) struct Both {
    arena: FrameArena,
    plain: PlainPages,
    draws: Draws,
    ghost some: { 0 < length arena },
}

/// An answer as a number.
fn number_of(order: Ordering) -> u64 {
    match order {
        Ordering::Less => 0,
        Ordering::Equal => 1,
        Ordering::Greater => 2,
    }
}

/// An answer, if both gave it.
fn agreed(answer: u64, plain: u64) -> Option<u64> {
    if answer == plain { Some(answer) } else { None }
}

/// What may be sent to another thread, as it is.
fn crossing<T: Send>(value: T) -> T
    ensures { result ≡ value }
{
    value
}

impl Both {
    pub(crate) fn new(alloc: Global, frames: u32) -> Result<Both, AllocError>
        requires { 0 < frames }
    {
        Ok(Both {
            arena: crossing(FrameArena::new(alloc, frames)?),
            plain: PlainPages::new(alloc, frames)?,
            draws: Draws::new(),
        })
    }

    /// Draws a call and makes it: the answer that both gave.
    pub(crate) fn call(&mut self) -> Option<u64> {
        match self.draws.below(10) {
            0 => self.read(),
            1 => self.write(),
            2 => self.get(),
            3 => self.put(),
            4 => self.copy(),
            5 => self.same(),
            6 => self.order(),
            7 => self.is_zero(),
            8 => self.fingerprint(),
            _ => self.clear(),
        }
    }

    /// A frame.
    fn frame(&mut self) -> u32
        ensures there { result < length self.new.arena }
        ensures arena { self.new.arena ≡ self.old.arena }
    {
        self.draws.below(self.arena.frames())
    }

    fn read(&mut self) -> Option<u64> {
        let frame = self.frame();
        let size = self.draws.size();
        let at = self.draws.offset(size);
        agreed(
            self.arena.read(frame, at, size),
            self.plain.read(frame, at, size),
        )
    }

    fn write(&mut self) -> Option<u64> {
        let frame = self.frame();
        let size = self.draws.size();
        let at = self.draws.offset(size);
        let value = u64::from(self.draws.below(2)) * 72_340_172_838_076_673;
        self.arena.write(frame, at, size, value);
        self.plain.write(frame, at, size, value);
        self.written(frame)
    }

    fn get(&mut self) -> Option<u64> {
        let frame = self.frame();
        let count = self.draws.below(MOST) + 1;
        let at = self.draws.offset(count);
        let mut bytes = [0; MOST as usize];
        self.arena.get(frame, at, &mut bytes[..count as usize]);
        let mut sum = 0u64;
        for offset in 0..count {
            let byte = bytes[offset as usize];
            if byte != self.plain.byte(frame, at + offset) {
                return None;
            }
            sum = sum.wrapping_mul(31).wrapping_add(u64::from(byte));
        }
        Some(sum)
    }

    fn put(&mut self) -> Option<u64> {
        let frame = self.frame();
        let count = self.draws.below(MOST) + 1;
        let at = self.draws.offset(count);
        let byte = self.draws.below(2) as u8;
        let bytes = [byte; MOST as usize];
        self.arena.put(frame, at, &bytes[..count as usize]);
        self.plain.put(frame, at, &bytes[..count as usize]);
        self.written(frame)
    }

    fn copy(&mut self) -> Option<u64> {
        let from = self.frame();
        let to = self.frame();
        self.arena.copy(from, to);
        self.plain.copy(from, to);
        self.written(to)
    }

    fn same(&mut self) -> Option<u64> {
        let a = self.frame();
        let b = self.frame();
        let plain = self.plain.order(a, b) == Ordering::Equal;
        agreed(u64::from(self.arena.same(a, b)), u64::from(plain))
    }

    fn order(&mut self) -> Option<u64> {
        let a = self.frame();
        let b = self.frame();
        agreed(
            number_of(self.arena.order(a, b)),
            number_of(self.plain.order(a, b)),
        )
    }

    fn is_zero(&mut self) -> Option<u64> {
        let frame = self.frame();
        agreed(
            u64::from(self.arena.is_zero(frame)),
            u64::from(self.plain.is_zero(frame)),
        )
    }

    fn fingerprint(&mut self) -> Option<u64> {
        let frame = self.frame();
        agreed(self.arena.fingerprint(frame), self.plain.fingerprint(frame))
    }

    fn clear(&mut self) -> Option<u64> {
        let frame = self.frame();
        self.arena.clear(frame);
        self.plain.clear(frame);
        self.written(frame)
    }

    /// The answer of a call that wrote a page: 0, if the page is the same on both.
    fn written(&self, frame: u32) -> Option<u64>
        requires { frame < length self.now.arena }
    {
        if self.page_agrees(frame) {
            Some(0)
        } else {
            None
        }
    }

    /// Whether a page is the same on both.
    fn page_agrees(&self, frame: u32) -> bool
        requires { frame < length self.now.arena }
    {
        let mut bytes = [0; 1];
        for at in 0..PAGE_SIZE {
            self.arena.get(frame, at, &mut bytes);
            if bytes[0] != self.plain.byte(frame, at) {
                return false;
            }
        }
        true
    }

    /// Whether all pages are the same on both.
    pub(crate) fn agree(&self) -> bool {
        for frame in 0..self.arena.frames() {
            if !self.page_agrees(frame) {
                return false;
            }
        }
        true
    }
}
