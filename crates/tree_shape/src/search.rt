//! Looking for a content from the top of the tree down, with one look at the arena a level.
ghost use Rattle.std.specs.Prelude.{◌≡◌, ◌+◌, ◌<◌, ◌≤◌, ℕ, length, slice_index_or};
ghost use Rattle.tree_shape.specs.Shape.{Tree, height_at};
ghost use Rattle.tree_shape.specs.Changes.{found};
ghost use Rattle.tree_shape.specs.Searches.{order_to, IsSearched, IsGrowing, IsEnteredAt};

use crate::{NONE, Node, join, rebalance_by};
use frame_arena::Counted;
use std::cmp::Ordering;

/// What came of putting in a content.
#[derive(Clone, Copy, PartialEq, Eq)]
pub enum Entered {
    /// An equal content is at this slot, and nothing changed.
    There(u32),
    /// It was put in, and the tree's first node is now at this slot.
    Root(u32),
}

/// How the content of a slot stands to a frame's, by one look at most: a frame isn't compared with itself.
#[inline(always)]
pub(crate) fn order_at(frames: &[u32], arena: &mut Counted, at: u32, frame: u32) -> Ordering
    requires inside { at < length frames.now }
    requires framed { slice_index_or frames.now at 0 < length arena.old.pages }
    requires frame { frame < length arena.old.pages }
    ensures answered { result ≡ order_to arena.old.pages frames.now frame at }
    ensures pages { arena.new.pages ≡ arena.old.pages }
    ensures steps { arena.new.steps ≤ arena.old.steps + 1 }
{
    let other = frames[at as usize];
    if other == frame {
        return Ordering::Equal;
    }
    arena.order(other, frame)
}

/// The slot of a frame's content in what hangs at a link.
pub fn find(
    nodes: &[Node],
    frames: &[u32],
    arena: &mut Counted,
    link: u32,
    frame: u32,
) -> Option<u32>
    requires tree { (t : Tree) × IsSearched nodes.now frames.now arena.old.pages link t }
    requires frame { frame < length arena.old.pages }
    ensures slot { (t : Tree) → IsSearched nodes.now frames.now arena.old.pages link t
        → result ≡ found (order_to arena.old.pages frames.now frame) t }
    ensures pages { arena.new.pages ≡ arena.old.pages }
    ensures few { arena.new.steps ≤ arena.old.steps + height_at nodes.now link }
{
    let mut at = link;
    while at != NONE {
        let node = nodes[at as usize];
        match order_at(frames, arena, at, frame) {
            Ordering::Less => at = node.right,
            Ordering::Equal => return Some(at),
            Ordering::Greater => at = node.left,
        }
    }
    None
}

/// Puts a slot into what hangs at a link, unless the content of its frame is there.
pub fn enter(
    nodes: &mut [Node],
    frames: &[u32],
    arena: &mut Counted,
    link: u32,
    new: u32,
) -> Entered
    requires tree { (t : Tree) × IsGrowing nodes.old frames.now arena.old.pages link new t }
    requires inside { new < length frames.now }
    requires framed { slice_index_or frames.now new 0 < length arena.old.pages }
    ensures entry { (t : Tree) → IsGrowing nodes.old frames.now arena.old.pages link new t
        → IsEnteredAt nodes.old nodes.new (order_to arena.old.pages frames.now (slice_index_or frames.now new 0)) new t result }
    ensures pages { arena.new.pages ≡ arena.old.pages }
    ensures few { arena.new.steps ≤ arena.old.steps + height_at nodes.old link }
{
    if link == NONE {
        join(nodes, NONE, new, NONE);
        return Entered::Root(new);
    }
    let node = nodes[link as usize];
    let order = order_at(frames, arena, link, frames[new as usize]);
    if order.is_eq() {
        return Entered::There(link);
    }
    let left = order.is_gt();
    match enter(nodes, frames, arena, node.far(left), new) {
        Entered::There(at) => Entered::There(at),
        Entered::Root(root) => Entered::Root(rebalance_by(
            nodes,
            left,
            root,
            link,
            node.near(left),
        )),
    }
}
