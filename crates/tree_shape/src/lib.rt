//! The shape of a balanced search tree: nodes in a row, each with its two sides and its height.
#![tactic(auto)]

ghost use Rattle.std.specs.Prelude.{◌≡◌, ◌<◌, length, slice_set};
ghost use Rattle.tree_shape.specs.Shape.{Tree, fork, IsLink, AreSides, AreReady, IsJoinable, IsHung, height_at, with_sides};
ghost use Rattle.tree_shape.specs.Turns.{balanced_at};
ghost use Rattle.tree_shape.specs.Sides.{sided, up_by, IsJoinableBy, AreSidesBy, AreReadyBy};

pub mod removal;
pub mod search;

/// The link of an empty side.
pub const NONE: u32 = u32::MAX;

/// A node of the tree, by the slots of what hangs at it.
#[derive(Clone, Copy, PartialEq, Eq)]
pub struct Node {
    pub left: u32,
    pub right: u32,
    /// How many levels it and what hangs at it have.
    pub height: u32,
}

impl Node {
    ghost use Rattle.std.specs.Prelude.{◌≡◌};
    ghost use Rattle.tree_shape.specs.Sides.{far, near};

    /// The link of its left side, or of its right one.
    pub(crate) fn far(self, left: bool) -> u32
        ensures { result ≡ far left self }
    {
        if left { self.left } else { self.right }
    }

    /// The link of the other side.
    pub(crate) fn near(self, left: bool) -> u32
        ensures { result ≡ near left self }
    {
        if left { self.right } else { self.left }
    }
}

/// How many levels hang at a link.
pub fn height(nodes: &[Node], link: u32) -> u32
    requires { IsLink nodes.now link }
    ensures { result ≡ height_at nodes.now link }
{
    if link == NONE {
        return 0;
    }
    nodes[link as usize].height
}

/// Makes a slot a node between two sides.
pub fn join(nodes: &mut [Node], left: u32, at: u32, right: u32)
    requires { IsJoinable nodes.old left at right }
    ensures { nodes.new ≡ slice_set nodes.old at (with_sides nodes.old left right) }
{
    let height = height(nodes, left).max(height(nodes, right)) + 1;
    nodes[at as usize] = Node {
        left,
        right,
        height,
    };
}

/// Makes a slot a node between two sides, the far one first.
fn join_by(nodes: &mut [Node], left: bool, far: u32, at: u32, near: u32)
    requires { IsJoinableBy left nodes.old far at near }
    ensures { nodes.new ≡ slice_set nodes.old at (sided left (with_sides nodes.old) far near) }
{
    if left {
        join(nodes, far, at, near);
    } else {
        join(nodes, near, at, far);
    }
}

/// Brings up a side, the left or the right one: its near side goes below, or the node between them comes up.
fn side_up(nodes: &mut [Node], left: bool, up: u32, at: u32, other: u32) -> u32
    requires ready { AreReadyBy left nodes.old up at other }
    requires higher { height_at nodes.old other < height_at nodes.old up }
    ensures { (t o : Tree) → AreSidesBy left nodes.old up at other t o
        → IsHung nodes.old nodes.new result (up_by left at t o) (sided left (fork at) t o) }
{
    let outer = nodes[up as usize].far(left);
    let inner = nodes[up as usize].near(left);
    if height(nodes, inner) <= height(nodes, outer) {
        join_by(nodes, left, inner, at, other);
        join_by(nodes, left, outer, up, at);
        return up;
    }
    let middle = nodes[inner as usize];
    join_by(nodes, left, outer, up, middle.far(left));
    join_by(nodes, left, middle.near(left), at, other);
    join_by(nodes, left, up, inner, at);
    inner
}

/// Makes a slot a node between two sides, and turns it where one is two levels higher. Returns the first node's slot.
fn rebalance(nodes: &mut [Node], left: u32, at: u32, right: u32) -> u32
    requires { AreReady nodes.old left at right }
    ensures { (l r : Tree) → AreSides nodes.old left at right l r
        → IsHung nodes.old nodes.new result (balanced_at at l r) (fork at l r) }
{
    let lefts = height(nodes, left);
    let rights = height(nodes, right);
    if rights + 1 < lefts {
        return side_up(nodes, true, left, at, right);
    }
    if lefts + 1 < rights {
        return side_up(nodes, false, right, at, left);
    }
    join(nodes, left, at, right);
    at
}

/// Makes a slot a node between two sides, the far one first, and rebalances it.
fn rebalance_by(nodes: &mut [Node], left: bool, far: u32, at: u32, near: u32) -> u32
    requires { AreReadyBy left nodes.old far at near }
    ensures { (t o : Tree) → AreSidesBy left nodes.old far at near t o
        → IsHung nodes.old nodes.new result (sided left (balanced_at at) t o) (sided left (fork at) t o) }
{
    if left {
        rebalance(nodes, far, at, near)
    } else {
        rebalance(nodes, near, at, far)
    }
}
