//! Taking a slot out of the tree, by one descent with one look at the arena a level.
ghost use Rattle.std.specs.Prelude.{◌≡◌, ◌+◌, ◌<◌, ◌≤◌, ℕ, length};
ghost use Rattle.tree_shape.specs.Shape.{Tree, fork, IsHung, height_at};
ghost use Rattle.tree_shape.specs.Changes.{joined_sides};
ghost use Rattle.tree_shape.specs.Searches.{order_to};
ghost use Rattle.tree_shape.specs.Removals.{IsShrinking, IsTaking, AreMerging, IsPopped, IsRemoval, is_alone};

use crate::search::order_at;
use crate::{NONE, Node, rebalance};
use frame_arena::Counted;
use std::cmp::Ordering;

/// A tree without its first slot.
#[derive(Clone, Copy, PartialEq, Eq)]
struct Popped {
    /// The slot that was first.
    pub first: u32,
    /// The link of what is left.
    pub root: u32,
}

/// A tree without a content that was taken out.
#[derive(Clone, Copy, PartialEq, Eq)]
pub struct Taken {
    /// The slot that was taken out.
    pub slot: u32,
    /// The link of what is left.
    pub root: u32,
}

/// Takes out the first slot of a node's tree.
fn pop_least(nodes: &mut [Node], link: u32) -> Popped
    requires { (l : Tree) × ((r : Tree) × IsShrinking nodes.old link (fork link l r)) }
    ensures { (l r : Tree) → IsShrinking nodes.old link (fork link l r) → IsPopped nodes.old nodes.new link l r result }
{
    let node = nodes[link as usize];
    if node.left == NONE {
        return Popped {
            first: link,
            root: node.right,
        };
    }
    let popped = pop_least(nodes, node.left);
    let root = rebalance(nodes, popped.root, link, node.right);
    Popped {
        first: popped.first,
        root,
    }
}

/// Makes one tree of the two sides of a node that is taken out. Returns its link.
fn merge(nodes: &mut [Node], left: u32, right: u32) -> u32
    requires { (l : Tree) × ((r : Tree) × AreMerging nodes.old left right l r) }
    ensures { (l r : Tree) → AreMerging nodes.old left right l r → IsHung nodes.old nodes.new result (joined_sides l r) (joined_sides l r) }
{
    if right == NONE {
        return left;
    }
    let popped = pop_least(nodes, right);
    rebalance(nodes, left, popped.first, popped.root)
}

/// What came of taking out a frame.
#[derive(Clone, Copy, PartialEq, Eq)]
pub enum Removed {
    /// No slot has its content, and nothing changed.
    Nowhere,
    /// This slot has its content and not this frame alone, and nothing changed.
    Stays(u32),
    /// The slot that had this frame alone is out.
    Out(Taken),
}

/// Whether a slot has a frame, and no other.
fn is_alone(frames: &[u32], sizes: &[u32], at: u32, frame: u32) -> bool
    requires inside { at < length frames.now }
    requires sized { length sizes.now ≡ length frames.now }
    ensures { result ≡ is_alone frames.now sizes.now frame at }
{
    sizes[at as usize] == 1 && frames[at as usize] == frame
}

/// Takes the slot of a frame's content out of what hangs at a link, if it has that frame alone. `sizes`
/// says how many frames each slot has.
pub fn take_out(
    nodes: &mut [Node],
    frames: &[u32],
    sizes: &[u32],
    arena: &mut Counted,
    link: u32,
    frame: u32,
) -> Removed
    requires tree { (t : Tree) × IsTaking nodes.old frames.now arena.old.pages link t }
    requires frame { frame < length arena.old.pages }
    requires sized { length sizes.now ≡ length frames.now }
    ensures out { (t : Tree) → IsTaking nodes.old frames.now arena.old.pages link t
        → IsRemoval nodes.old nodes.new (order_to arena.old.pages frames.now frame) (is_alone frames.now sizes.now frame) t result }
    ensures pages { arena.new.pages ≡ arena.old.pages }
    ensures few { arena.new.steps ≤ arena.old.steps + height_at nodes.old link }
{
    if link == NONE {
        return Removed::Nowhere;
    }
    let node = nodes[link as usize];
    match order_at(frames, arena, link, frame) {
        Ordering::Less => match take_out(nodes, frames, sizes, arena, node.right, frame) {
            Removed::Nowhere => Removed::Nowhere,
            Removed::Stays(at) => Removed::Stays(at),
            Removed::Out(taken) => Removed::Out(Taken {
                slot: taken.slot,
                root: rebalance(nodes, node.left, link, taken.root),
            }),
        },
        Ordering::Equal => {
            if !is_alone(frames, sizes, link, frame) {
                return Removed::Stays(link);
            }
            Removed::Out(Taken {
                slot: link,
                root: merge(nodes, node.left, node.right),
            })
        }
        Ordering::Greater => match take_out(nodes, frames, sizes, arena, node.left, frame) {
            Removed::Nowhere => Removed::Nowhere,
            Removed::Stays(at) => Removed::Stays(at),
            Removed::Out(taken) => Removed::Out(Taken {
                slot: taken.slot,
                root: rebalance(nodes, taken.root, link, node.right),
            }),
        },
    }
}
