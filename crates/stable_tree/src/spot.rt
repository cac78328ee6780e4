//! Where the groups of a content stand.
ghost use Rattle.std.specs.Prelude.{◌≡◌, ◌<◌, nat_lt, find, length, slice_index_or, All};
ghost use Rattle.stable_tree.specs.Slots.{IsStore, IsHead, chain_at};

use crate::store::{Store, first_below};
use std::marker::Model;

/// Where the groups of one content stand. Contracts see their frames, in order of creation. The tree can't change
/// while there is a spot.
#[derive(Drop)]
pub struct Spot<'a> {
    frames: &'a [u32],
    nexts: &'a [u32],
    /// The slot of the earliest group.
    slot: u32,
    groups: u32,
}

impl<'a> Model for Spot<'a> {
    ghost use Rattle.std.specs.Prelude.{◌≡◌, ◌<◌, ℕ, List, All, length};
    ghost use Rattle.stable_tree.specs.Slots.{walk, frames_at};

    ghost Value = { List ℕ };

    ghost view = { λ spot. frames_at spot.frames.now (walk spot.groups spot.nexts.now spot.slot) };

    ghost invariant = { λ spot. All (λ slot. slot < length spot.frames.now) (walk spot.groups spot.nexts.now spot.slot)
        × (length spot.nexts.now ≡ length spot.frames.now) };
}

impl<'a> Spot<'a> {
    /// The groups that hang at a slot of a store.
    pub(crate) fn at(store: &'a Store, slot: u32) -> Spot<'a>
        requires whole { IsStore store.now }
        requires head { IsHead store.now slot }
        ensures { result ≡ chain_at store.now.frames.items store.now.nexts.items store.now.sizes.items slot }
    {
        let groups = store.sizes[slot as usize];
        Spot {
            frames: &store.frames,
            nexts: &store.nexts,
            slot,
            groups,
        }
    }

    /// The earliest of the groups that fewer than `limit` hold.
    pub(crate) fn first_below(&self, counts: &[u32], limit: u32) -> Option<u32>
        requires { All (λ frame. frame < length counts.now) self.now }
        ensures { result ≡ find (λ frame. nat_lt (slice_index_or counts.now frame 0) limit) self.now }
    {
        first_below(
            self.frames,
            self.nexts,
            self.slot,
            self.groups,
            counts,
            limit,
        )
    }
}
