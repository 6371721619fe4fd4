//! Places of a full tree that are come down to together.
ghost use Rattle.std.specs.Prelude.{ℕ, ◌≡◌, ◌<◌, ◌≤◌, ◌^◌, ◌+◌, ◌*◌, List, length, All};
ghost use Rattle.ssz_chunk.specs.Tree.{Tree, merkle_tree, place};
ghost use Rattle.ssz_arena.specs.Content.{IsNodeOf, row_node, tree_of};
ghost use Rattle.ssz_nodes.specs.Ahead.{IsRowOf};

use super::places::{Top, node_of_place};
use ssz_arena::{Arena, NodeId};
use ssz_chunk::PairHash;

/// The places of a full tree of at most this depth are come down to together.
pub const NEAR_DEPTH: u32 = 3;

/// So many are they at most.
pub const NEAR: usize = 1 << NEAR_DEPTH;

/// The nodes of the places of a full tree, at the front, where they are at most NEAR.
#[derive(Clone, Copy)]
pub struct Row {
    pub nodes: [NodeId; NEAR],
}

impl Row {
    /// Comes down to the places, where they are so few.
    #[inline(always)]
    pub fn of<H: PairHash>(arena: &Arena<H>, top: Top) -> Self
        requires { IsNodeOf arena.now top.node }
        ensures nodes { All (IsNodeOf arena.now) result.nodes }
        ensures places { top.depth ≤ 3
            → IsRowOf arena.now top.depth (tree_of arena.now top.node) result.nodes }
    {
        let mut nodes = [top.node; NEAR];
        if top.depth == 2 {
            four_places(arena, top.node, &mut nodes);
        } else if top.depth == 1 {
            two_places(arena, top.node, &mut nodes);
        } else if top.depth <= NEAR_DEPTH {
            spread(arena, top.depth, &mut nodes);
        }
        Row { nodes }
    }

    /// The node of place i of the tree that it is of, or that is come down to alone.
    #[inline(always)]
    pub fn place<H: PairHash>(&self, arena: &Arena<H>, top: Top, i: usize) -> NodeId
        requires depth { top.depth < 64 }
        requires node { IsNodeOf arena.now top.node }
        requires nodes { All (IsNodeOf arena.now) self.now.nodes }
        requires places { top.depth ≤ 3
            → IsRowOf arena.now top.depth (tree_of arena.now top.node) self.now.nodes }
        ensures node { IsNodeOf arena.now result }
        ensures tree { (trees : List Tree) → i < 2 ^ top.depth
            → tree_of arena.now top.node ≡ merkle_tree top.depth trees
            → tree_of arena.now result ≡ place trees i }
    {
        if top.depth > NEAR_DEPTH {
            return node_of_place(arena, top, i);
        }
        if i < NEAR {
            return self.nodes[i];
        }
        top.node
    }
}

// Puts both places of a full tree of depth 1 at the front of a row. The fields of most containers
// stand in a tree of depth 1 or 2: no loop is run for them, and no call made.
#[inline(always)]
fn two_places<H: PairHash>(arena: &Arena<H>, node: NodeId, row: &mut [NodeId])
    requires room { 2 ≤ length row.old }
    requires node { IsNodeOf arena.now node }
    requires nodes { All (IsNodeOf arena.now) row.old }
    ensures long { length row.new ≡ length row.old }
    ensures nodes { All (IsNodeOf arena.now) row.new }
    ensures places { IsRowOf arena.now 1 (tree_of arena.now node) row.new }
{
    let (first, second) = arena.halves(node);
    row[0] = first;
    row[1] = second;
}

// Puts the four places of a full tree of depth 2 there.
#[inline(always)]
fn four_places<H: PairHash>(arena: &Arena<H>, node: NodeId, row: &mut [NodeId])
    requires room { 4 ≤ length row.old }
    requires node { IsNodeOf arena.now node }
    requires nodes { All (IsNodeOf arena.now) row.old }
    ensures long { length row.new ≡ length row.old }
    ensures nodes { All (IsNodeOf arena.now) row.new }
    ensures places { IsRowOf arena.now 2 (tree_of arena.now node) row.new }
{
    let (left, right) = arena.halves(node);
    let (first, second) = arena.halves(left);
    let (third, fourth) = arena.halves(right);
    row[0] = first;
    row[1] = second;
    row[2] = third;
    row[3] = fourth;
}

// Comes down from the first node of the row to all places of its full tree of this depth, which
// stand at the front of the row then.
pub(crate) fn spread<H: PairHash>(arena: &Arena<H>, depth: u32, row: &mut [NodeId])
    requires depth { depth < 64 }
    requires room { 2 ^ depth ≤ length row.old }
    requires nodes { All (IsNodeOf arena.now) row.old }
    ensures long { length row.new ≡ length row.old }
    ensures nodes { All (IsNodeOf arena.now) row.new }
    ensures places { (trees : List Tree)
        → tree_of arena.now (row_node row.old 0) ≡ merkle_tree depth trees
        → (i : ℕ) → i < 2 ^ depth → tree_of arena.now (row_node row.new i) ≡ place trees i }
{
    spread_each(arena, 1, depth, row);
}

// Comes down from each of the first count nodes of the row to all places of its full tree of this
// depth: those of each stand behind those of the one before it then. It goes level by level, since
// no node of a level waits for another: the memory of all of them is asked for at once.
#[inline(always)]
pub(crate) fn spread_each<H: PairHash>(
    arena: &Arena<H>,
    count: usize,
    depth: u32,
    row: &mut [NodeId],
)
    requires depth { depth < 64 }
    requires few { count * 2 ^ depth ≤ 2 ^ 63 }
    requires room { count * 2 ^ depth ≤ length row.old }
    requires nodes { All (IsNodeOf arena.now) row.old }
    ensures long { length row.new ≡ length row.old }
    ensures nodes { All (IsNodeOf arena.now) row.new }
    ensures places { (k : ℕ) (trees : List Tree) → k < count
        → tree_of arena.now (row_node row.old k) ≡ merkle_tree depth trees
        → (i : ℕ) → i < 2 ^ depth
        → tree_of arena.now (row_node row.new (k * 2 ^ depth + i)) ≡ place trees i }
{
    for level in 0..depth {
        arena.widen(count << level, row);
    }
}
