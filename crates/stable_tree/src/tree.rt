ghost use Rattle.std.specs.Prelude.{◌≡◌, ◌≢◌, ◌++◌, ◌∷◌, [], ◌==◌, ◌+◌, ◌*◌, ◌<◌, ◌≤◌, ℕ, List, not, nat_lt, filter, find, length, max, All, OnOk, OnErr, IfSome, slice_index_or};
ghost use Rattle.frame_arena.specs.Pages.{page_at};
ghost use Rattle.stable_tree.specs.Digits.{digits};
ghost use Rattle.stable_tree.specs.Groups.{Groups, IsSorted, IsSpot, has, group_frames, groups_at, groups_found, chains_among, dups_among};

use crate::dups::Dups;
use crate::spot::Spot;
use crate::store::{self, Store};
use frame_arena::Counted;
use std::alloc::{AllocError, Global};
use std::marker::Model;

/// The frames of all groups. Contracts see a list of chains, one for each content; a chain has the
/// frames of the groups with that content in order of creation.
#[derive(Drop)]
pub struct StableTree {
    store: Store,
    dups: Dups,
}

impl Model for StableTree {
    ghost use Rattle.stable_tree.specs.Groups.{Groups, AreDups};
    ghost use Rattle.stable_tree.specs.Slots.{IsStore, chains_in};

    ghost Value = { Groups };

    ghost view = { λ tree. record { chains = chains_in tree.store; room = tree.store.room } };

    ghost invariant = { λ tree. IsStore tree.store × AreDups tree.dups (chains_in tree.store) };
}

impl StableTree {
    /// There are no groups, and there is no room for one.
    pub fn new(alloc: Global) -> Self
        ensures { result ≡ record { chains = []; room = 0 } }
    {
        StableTree {
            store: store::new(alloc),
            dups: Dups::NONE,
        }
    }

    /// Makes room for that many groups in all. It is refused where memory ran out, or for more groups than
    /// there can be frames, and changes nothing then.
    pub fn reserve(&mut self, groups: usize) -> Result<(), AllocError>
        ensures reserved { OnOk result (self.new ≡ record self.old { room = max self.old.room groups }) }
        ensures refused { OnErr result (self.new ≡ self.old) }
        ensures short { OnErr result (self.old.room < groups) }
    {
        store::reserve(&mut self.store, groups)
    }

    /// How many groups there are.
    pub fn groups(&self) -> usize
        ensures { result ≡ length (group_frames self.now) }
    {
        self.store.nodes.len() - self.store.free.len()
    }

    /// How many contents have two groups or more. The number is kept, and no chain is looked at.
    pub fn node_chains(&self) -> usize
        ensures { result ≡ chains_among self.now.chains }
    {
        self.dups.chains
    }

    /// How many groups the contents with two or more have. The number is kept, and no chain is looked
    /// at.
    pub fn node_dups(&self) -> usize
        ensures { result ≡ dups_among self.now.chains }
    {
        self.dups.groups
    }

    /// Where the groups that have the bytes of a frame stand, if there are any. It, `insert` and `remove`
    /// look at pages at most twice for each binary digit of the number of contents.
    pub fn find<'a>(&'a self, arena: &mut Counted, frame: u32) -> Option<Spot<'a>>
        requires frame { frame < length arena.old.pages }
        requires sorted { IsSorted arena.old.pages self.now.chains }
        ensures found { groups_found self.now result ≡ filter (has arena.old.pages (page_at arena.old.pages frame)) (group_frames self.now) }
        ensures spot { IfSome result (IsSpot self.now) }
        ensures few { arena.new.steps ≤ arena.old.steps + 2 * digits (length self.now.chains) }
    {
        let slot = store::find(&self.store, arena, frame)?;
        Some(Spot::at(&self.store, slot))
    }

    /// The earliest of the groups at a spot that fewer than `limit` hold. It goes over the spot's groups in
    /// order of creation until one is open; no page is looked at.
    pub fn first_open(&self, spot: Spot, counts: &[u32], limit: u32) -> Option<u32>
        requires spot { IsSpot self.now spot }
        requires counts { All (λ frame. frame < length counts.now) (groups_at self.now spot) }
        ensures { result ≡ find (λ frame. nat_lt (slice_index_or counts.now frame 0) limit) (groups_at self.now spot.entry) }
    {
        spot.first_below(counts, limit)
    }

    /// Puts a group after all others that have its bytes. It takes no memory.
    pub fn insert(&mut self, arena: &mut Counted, frame: u32)
        requires frame { frame < length arena.old.pages }
        requires sorted { IsSorted arena.old.pages self.old.chains }
        requires new { All (λ group. group ≢ frame) (group_frames self.old) }
        requires room { length (group_frames self.old) < self.old.room }
        ensures inserted { (bytes : List ℕ) → filter (has arena.old.pages bytes) (group_frames self.new)
            ≡ filter (has arena.old.pages bytes) (group_frames self.old) ++ filter (has arena.old.pages bytes) (frame ∷ []) }
        ensures sorted { IsSorted arena.old.pages self.new.chains }
        ensures room { self.new.room ≡ self.old.room }
        ensures few { arena.new.steps ≤ arena.old.steps + 2 * digits (length self.old.chains) }
    {
        let before = store::put(&mut self.store, arena, frame) as usize;
        if before > 0 {
            self.dups = self.dups.moved(before, before + 1);
        }
    }

    /// Takes out a group, if it is there. The arena's pages are as they were when it was put in.
    pub fn remove(&mut self, arena: &mut Counted, frame: u32)
        requires frame { frame < length arena.old.pages }
        requires sorted { IsSorted arena.old.pages self.old.chains }
        ensures removed { group_frames self.new ≡ filter (λ group. not (group == frame)) (group_frames self.old) }
        ensures sorted { IsSorted arena.old.pages self.new.chains }
        ensures room { self.new.room ≡ self.old.room }
        ensures few { arena.new.steps ≤ arena.old.steps + 2 * digits (length self.old.chains) }
    {
        let before = store::take(&mut self.store, arena, frame) as usize;
        if before > 1 {
            self.dups = self.dups.moved(before, before - 1);
        }
    }
}
