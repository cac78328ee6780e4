ghost use Rattle.std.specs.Prelude.{◌≡◌, ◌+◌, ◌-◌, ◌<◌, ◌≤◌, [], ◌∷◌, length, replicate, slice_index_or, slice_set, IfOk, ℕ, vec_capacity};
ghost use Rattle.page_table.specs.Table.{AreCounts, times, one_if_zero};

use std::alloc::{AllocError, Global};
use std::marker::Model;

/// How many hold each frame, and the frames that nobody holds. The zero frame has one holder more
/// than its pages, so that it is never unused.
#[derive(Drop)]
pub(crate) struct FrameCounts {
    counts: Vec<u32>,
    /// A stack with room for all frames.
    unused: Vec<u32>,
}

impl Model for FrameCounts {
    ghost use Rattle.std.specs.Prelude.{◌≤◌, length, vec_capacity};
    ghost use Rattle.page_table.specs.Table.{CountsState, AreCounts};

    ghost Value = { CountsState };

    ghost view = { λ c. record { counts = c.counts.items; unused = c.unused.items } };

    ghost invariant = { λ c.
        AreCounts (record { counts = c.counts.items; unused = c.unused.items })
        × (length c.counts.items ≤ vec_capacity c.unused) };
}

impl FrameCounts {
    /// All frames but the zero frame are unused.
    pub(crate) fn new(alloc: Global, frames: u32) -> Result<Self, AllocError>
        requires { 1 ≤ frames }
        ensures counts { IfOk result (λ c. c.counts ≡ slice_set (replicate frames 0) 0 1) }
        ensures unused { IfOk result (λ c. length c.unused + 1 ≡ frames) }
    {
        let mut counts = vec![in alloc; 0; frames as usize]?;
        counts[0] = 1;
        let unused = unused_frames(alloc, frames)?;
        Ok(FrameCounts { counts, unused })
    }

    /// How many frames are unused.
    pub(crate) fn unused(&self) -> u32
        requires { length self.now.unused ≤ 4096 }
        ensures { result ≡ length self.now.unused }
    {
        self.unused.len() as u32
    }

    /// Takes an unused frame, which has one holder then.
    pub(crate) fn take(&mut self) -> u32
        requires { 0 < length self.old.unused }
        ensures unused { slice_index_or self.old.counts result 1 ≡ 0 }
        ensures counts { self.new.counts ≡ slice_set self.old.counts result 1 }
        ensures fewer { length self.new.unused + 1 ≡ length self.old.unused }
    {
        let Some(frame) = self.unused.pop() else {
            unreachable!()
        };
        self.counts[frame as usize] = 1;
        frame
    }

    /// How many hold a frame.
    pub(crate) fn count(&self, frame: u32) -> u32
        requires { frame < length self.now.counts }
        ensures { result ≡ slice_index_or self.now.counts frame 0 }
    {
        self.counts[frame as usize]
    }

    /// How many hold each frame.
    pub(crate) fn all(&self) -> &[u32]
        ensures { result.now ≡ self.now.counts }
    {
        &self.counts
    }

    /// One more holds a frame that is held already.
    pub(crate) fn share(&mut self, frame: u32)
        requires frame { frame < length self.old.counts }
        requires held { 1 ≤ slice_index_or self.old.counts frame 0 }
        requires few { slice_index_or self.old.counts frame 0 ≤ 32768 }
        ensures counts { self.new.counts ≡
            slice_set self.old.counts frame (slice_index_or self.old.counts frame 0 + 1) }
        ensures unused { self.new.unused ≡ self.old.unused }
    {
        self.counts[frame as usize] += 1;
    }

    /// One less holds a frame, which is unused where nobody holds it then.
    pub(crate) fn release(&mut self, frame: u32)
        requires frame { frame < length self.old.counts }
        requires held { 1 ≤ slice_index_or self.old.counts frame 0 }
        requires room { length self.old.unused < length self.old.counts }
        ensures counts { self.new.counts ≡
            slice_set self.old.counts frame (slice_index_or self.old.counts frame 0 - 1) }
        ensures unused { length self.new.unused ≡
            length self.old.unused + one_if_zero (slice_index_or self.old.counts frame 0 - 1) }
    {
        let left = self.counts[frame as usize] - 1;
        self.counts[frame as usize] = left;
        if left == 0 {
            let pushed = self.unused.push(frame).is_ok();
            prove!(pushed);
        }
    }

    /// What holds of all counts. The function does nothing.
    pub(crate) fn facts(&self)
        ensures { AreCounts self.now }
    {
        let _opened = &self.unused;
    }
}

/// The frames from 1 on.
fn unused_frames(alloc: Global, frames: u32) -> Result<Vec<u32>, AllocError>
    requires { 1 ≤ frames }
    ensures listed { IfOk result (λ v. (f : ℕ) →
        times f v.items ≡ one_if_zero (slice_index_or (slice_set (replicate frames 0) 0 1) f 1)) }
    ensures count { IfOk result (λ v. length v.items + 1 ≡ frames) }
    ensures room { IfOk result (λ v. frames ≤ vec_capacity v) }
{
    let mut unused = Vec::with_capacity(alloc, frames as usize)?;
    for frame in 1..frames {
        unused.push(frame)?;
    }
    Ok(unused)
}
