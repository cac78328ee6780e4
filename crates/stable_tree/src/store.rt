//! Groups at slots. Those of one content hang at the slot of a node of a balanced tree: the node's slot has
//! the earliest one, and each gives the slot of the next. A slot that a group leaves is used again.
ghost use Rattle.std.specs.Prelude.{◌≡◌, ◌≢◌, ◌+◌, ◌-◌, ◌*◌, ◌<◌, ◌≤◌, ℕ, false, List, [], ◌∷◌, ◌++◌, All, MatchOption, OnOk, OnErr, find, length, max, nat_lt, slice_index_or};
ghost use Rattle.std.specs.List.{concat};
ghost use Rattle.tree_shape.specs.Removals.{is_alone};
ghost use Rattle.stable_tree.specs.Digits.{digits};
ghost use Rattle.stable_tree.specs.Groups.{IsSorted};
ghost use Rattle.stable_tree.specs.Slots.{IsStore, IsWholeStore, IsAdded, IsHead, IsLengthened, IsStanding, IsWithout, walk, end, hanging, frames_at, heads_in, chains_in};
ghost use Rattle.stable_tree.specs.Edits.{IsSearchAnswer, IsPut, IsTakenOut, IsShortened};

use frame_arena::Counted;
use std::alloc::{AllocError, Global};
use tree_shape::removal::{Removed, take_out};
use tree_shape::search::{Entered, enter};
use tree_shape::{NONE, Node};

/// The slots, by what stands at each.
#[derive(Drop)]
pub(crate) struct Store {
    /// The tree's node, at the slot of a content's earliest group.
    pub nodes: Vec<Node>,
    /// The group's frame.
    pub frames: Vec<u32>,
    /// The slot of the next group of the same content.
    pub nexts: Vec<u32>,
    /// How many groups the content has, at the slot of its earliest group.
    pub sizes: Vec<u32>,
    /// The slots that no group has.
    pub free: Vec<u32>,
    /// The slot of the tree's first node.
    pub root: u32,
    /// How many slots there is memory for.
    pub room: usize,
}

/// A node of no tree.
const BLANK: Node = Node {
    left: NONE,
    right: NONE,
    height: 0,
};

/// There are no groups, and there is no room for one.
pub(crate) fn new(alloc: Global) -> Store
    ensures whole { IsStore result }
    ensures chains { chains_in result ≡ [] }
    ensures room { result.room ≡ 0 }
{
    Store {
        nodes: Vec::new(alloc),
        frames: Vec::new(alloc),
        nexts: Vec::new(alloc),
        sizes: Vec::new(alloc),
        free: Vec::new(alloc),
        root: NONE,
        room: 0,
    }
}

/// Makes room for that many groups in all. It is refused where memory ran out, or where a link can't say that
/// many slots.
pub(crate) fn reserve(store: &mut Store, groups: usize) -> Result<(), AllocError>
    requires { IsStore store.old }
    ensures whole { IsStore store.new }
    ensures chains { chains_in store.new ≡ chains_in store.old }
    ensures reserved { OnOk result (store.new.room ≡ max store.old.room groups) }
    ensures refused { OnErr result (store.new.room ≡ store.old.room) }
    ensures short { OnErr result (store.old.room < groups) }
{
    if groups <= store.room {
        return Ok(());
    }
    if groups >= NONE as usize {
        return Err(AllocError);
    }
    let more = groups - store.nodes.len();
    store.nodes.reserve_exact(more)?;
    store.frames.reserve_exact(more)?;
    store.nexts.reserve_exact(more)?;
    store.sizes.reserve_exact(more)?;
    store.free.reserve_exact(groups - store.free.len())?;
    store.room = groups;
    Ok(())
}

/// Gives a new group its own slot, which hangs nowhere yet. It takes no memory.
pub(crate) fn slot(store: &mut Store, frame: u32) -> u32
    requires whole { IsStore store.old }
    requires room { length (concat (chains_in store.old)) < store.old.room }
    ensures { IsAdded store.old store.new frame result }
{
    match store.free.pop() {
        Some(slot) => {
            store.frames[slot as usize] = frame;
            store.sizes[slot as usize] = 1;
            slot
        }
        None => {
            let slot = store.nodes.len() as u32;
            let noded = store.nodes.push(BLANK).is_ok();
            prove!(noded);
            let framed = store.frames.push(frame).is_ok();
            prove!(framed);
            let linked = store.nexts.push(NONE).is_ok();
            prove!(linked);
            let sized = store.sizes.push(1).is_ok();
            prove!(sized);
            slot
        }
    }
}

/// The slot of the last group of a content.
fn last_of(nexts: &[u32], at: u32, groups: u32) -> u32
    requires some { 1 ≤ groups }
    requires within { All (λ slot. slot < length nexts.now) (walk groups nexts.now at) }
    ensures { result ≡ end (groups - 1) nexts.now at }
{
    let mut last = at;
    for _passed in 1..groups {
        last = nexts[last as usize];
    }
    last
}

/// Puts a slot after the groups of a content. Returns how many it had.
pub(crate) fn lengthen(store: &mut Store, at: u32, slot: u32) -> u32
    requires whole { IsWholeStore store.old (slot ∷ store.old.free.items) }
    requires head { IsHead store.old at }
    ensures whole { IsStore store.new }
    ensures chains { (earlier later : List ℕ) → heads_in store.old ≡ earlier ++ at ∷ later
        → IsLengthened store.old store.new at slot (length earlier) result }
    ensures room { store.new.room ≡ store.old.room }
{
    let groups = store.sizes[at as usize];
    let last = last_of(&store.nexts, at, groups);
    store.nexts[last as usize] = slot;
    store.sizes[at as usize] = groups + 1;
    groups
}

/// The slot at which the groups of a frame's content hang.
pub(crate) fn find(store: &Store, arena: &mut Counted, frame: u32) -> Option<u32>
    requires whole { IsStore store.now }
    requires frame { frame < length arena.old.pages }
    requires sorted { IsSorted arena.old.pages (chains_in store.now) }
    ensures found { IsSearchAnswer arena.old.pages frame store.now result }
    ensures pages { arena.new.pages ≡ arena.old.pages }
    ensures few { arena.new.steps ≤ arena.old.steps + 2 * digits (length (chains_in store.now)) }
{
    tree_shape::search::find(&store.nodes, &store.frames, arena, store.root, frame)
}

/// Puts a group after all others that have its bytes. Returns how many these are.
pub(crate) fn put(store: &mut Store, arena: &mut Counted, frame: u32) -> u32
    requires whole { IsStore store.old }
    requires frame { frame < length arena.old.pages }
    requires sorted { IsSorted arena.old.pages (chains_in store.old) }
    requires room { length (concat (chains_in store.old)) < store.old.room }
    ensures whole { IsStore store.new }
    ensures put { IsPut arena.old.pages frame (chains_in store.old) (chains_in store.new) result }
    ensures room { store.new.room ≡ store.old.room }
    ensures pages { arena.new.pages ≡ arena.old.pages }
    ensures few { arena.new.steps ≤ arena.old.steps + 2 * digits (length (chains_in store.old)) }
{
    let slot = slot(store, frame);
    match enter(&mut store.nodes, &store.frames, arena, store.root, slot) {
        Entered::There(at) => lengthen(store, at, slot),
        Entered::Root(root) => {
            store.root = root;
            0
        }
    }
}

/// Where a group stands among those of its content.
#[derive(Clone, Copy, PartialEq, Eq)]
struct Standing {
    pub slot: u32,
    /// How many groups stand after it.
    pub following: u32,
}

/// Where a frame stands among the groups of a content, `groups` in number from a slot on.
fn slot_of(frames: &[u32], nexts: &[u32], at: u32, groups: u32, frame: u32) -> Option<Standing>
    requires framed { All (λ slot. slot < length frames.now) (walk groups nexts.now at) }
    requires linked { length nexts.now ≡ length frames.now }
    ensures { MatchOption result (All (λ group. group ≢ frame) (frames_at frames.now (walk groups nexts.now at)))
        (λ standing. IsStanding (walk groups nexts.now at) frames.now frame standing.slot standing.following) }
{
    let mut slot = at;
    for passed in 0..groups {
        if frames[slot as usize] == frame {
            return Some(Standing {
                slot,
                following: groups - 1 - passed,
            });
        }
        slot = nexts[slot as usize];
    }
    None
}

/// Makes a slot free that hangs nowhere. It takes no memory.
fn give_back(store: &mut Store, slot: u32)
    requires { IsWholeStore store.old (slot ∷ store.old.free.items) }
    ensures whole { IsStore store.new }
    ensures chains { chains_in store.new ≡ chains_in store.old }
    ensures room { store.new.room ≡ store.old.room }
{
    let kept = store.free.push(slot).is_ok();
    prove!(kept);
}

/// Takes out the last of two or more groups of a content.
fn take_last(store: &mut Store, at: u32, slot: u32)
    requires whole { IsStore store.old }
    requires head { IsHead store.old at }
    requires more { 2 ≤ slice_index_or store.old.sizes.items at 0 }
    requires last { slot ≡ slice_index_or (hanging store.old.nexts.items store.old.sizes.items at)
        (slice_index_or store.old.sizes.items at 0 - 1) 0 }
    ensures whole { IsStore store.new }
    ensures chains { IsWithout store.old store.new at (slice_index_or store.old.sizes.items at 0 - 1) }
    ensures room { store.new.room ≡ store.old.room }
{
    store.sizes[at as usize] -= 1;
    give_back(store, slot);
}

/// Takes out a group that others of its content stand after: the next one takes its slot.
fn take_inner(store: &mut Store, at: u32, standing: Standing)
    requires whole { IsStore store.old }
    requires head { IsHead store.old at }
    requires following { (1 ≤ standing.following) × (standing.following < slice_index_or store.old.sizes.items at 0) }
    requires slot { standing.slot ≡ slice_index_or (hanging store.old.nexts.items store.old.sizes.items at)
        (slice_index_or store.old.sizes.items at 0 - 1 - standing.following) 0 }
    ensures whole { IsStore store.new }
    ensures chains { IsWithout store.old store.new at (slice_index_or store.old.sizes.items at 0 - 1 - standing.following) }
    ensures room { store.new.room ≡ store.old.room }
{
    let slot = standing.slot as usize;
    let next = store.nexts[slot];
    store.frames[slot] = store.frames[next as usize];
    store.nexts[slot] = store.nexts[next as usize];
    store.sizes[at as usize] -= 1;
    give_back(store, next);
}

/// Takes a frame out of the groups of a content, if it is there and not alone. Returns how many these were, or 0 where
/// it isn't there.
fn shorten(store: &mut Store, at: u32, frame: u32) -> u32
    requires whole { IsStore store.old }
    requires head { IsHead store.old at }
    requires shared { is_alone store.old.frames.items store.old.sizes.items frame at ≡ false }
    ensures whole { IsStore store.new }
    ensures chains { IsShortened store.old store.new at frame result }
    ensures room { store.new.room ≡ store.old.room }
{
    let groups = store.sizes[at as usize];
    let Some(standing) = slot_of(&store.frames, &store.nexts, at, groups, frame) else {
        return 0;
    };
    if standing.following == 0 {
        take_last(store, at, standing.slot);
    } else {
        take_inner(store, at, standing);
    }
    groups
}

/// Takes out a group, if it is there. Returns how many its content had, or 0 where it isn't there.
pub(crate) fn take(store: &mut Store, arena: &mut Counted, frame: u32) -> u32
    requires whole { IsStore store.old }
    requires frame { frame < length arena.old.pages }
    requires sorted { IsSorted arena.old.pages (chains_in store.old) }
    ensures whole { IsStore store.new }
    ensures taken { IsTakenOut arena.old.pages frame (chains_in store.old) (chains_in store.new) result }
    ensures room { store.new.room ≡ store.old.room }
    ensures pages { arena.new.pages ≡ arena.old.pages }
    ensures few { arena.new.steps ≤ arena.old.steps + 2 * digits (length (chains_in store.old)) }
{
    match take_out(
        &mut store.nodes,
        &store.frames,
        &store.sizes,
        arena,
        store.root,
        frame,
    ) {
        Removed::Nowhere => 0,
        Removed::Stays(at) => shorten(store, at, frame),
        Removed::Out(taken) => {
            store.root = taken.root;
            give_back(store, taken.slot);
            1
        }
    }
}

/// The first of some groups, from a slot on, that fewer than `limit` hold.
pub(crate) fn first_below(
    frames: &[u32],
    nexts: &[u32],
    at: u32,
    groups: u32,
    counts: &[u32],
    limit: u32,
) -> Option<u32>
    requires framed { All (λ slot. slot < length frames.now) (walk groups nexts.now at) }
    requires linked { length nexts.now ≡ length frames.now }
    requires counted { All (λ frame. frame < length counts.now) (frames_at frames.now (walk groups nexts.now at)) }
    ensures { result ≡ find (λ frame. nat_lt (slice_index_or counts.now frame 0) limit) (frames_at frames.now (walk groups nexts.now at)) }
{
    let mut slot = at;
    for _passed in 0..groups {
        let frame = frames[slot as usize];
        if counts[frame as usize] < limit {
            return Some(frame);
        }
        slot = nexts[slot as usize];
    }
    None
}
