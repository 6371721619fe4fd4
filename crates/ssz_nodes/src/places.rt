ghost use Rattle.std.specs.Prelude.{ℕ, ◌≡◌, ◌<◌, ◌≤◌, ◌/◌, ◌%◌, ◌^◌, List, ◌∷◌, All, drop, length};
ghost use Rattle.ssz_chunk.specs.Tree.{Tree, pair, merkle_tree, place};
ghost use Rattle.ssz_arena.specs.Content.{ArenaContent, IsNodeOf, tree_of};
ghost use Rattle.ssz_nodes.specs.Ahead.{AheadAreNodes, AheadHolds, AreNext, IsFilled, waiting};

use super::rows::spread;
use ssz_arena::{Arena, NodeId};
use ssz_chunk::PairHash;
use std::marker::Model;

// A subtree for each level, the whole tree included: no type's content is deeper than 62, so that a
// u64 counts its places.
const SUBTREES: usize = 64;

// The next places are come down to together, as many as a subtree of this depth has at most, since
// most of the time of coming down is spent waiting for nodes.
const ROW_DEPTH: u32 = 7;

const ROW: usize = 1 << ROW_DEPTH;

/// The top of a full tree: its node, and how deep it is.
#[derive(Clone, Copy)]
pub struct Top {
    pub node: NodeId,
    pub depth: u32,
}

/// The places of a full tree that are still to come, from left to right: a row of those that were
/// come down to, and behind it the roots of the whole subtrees that the others make, one for each
/// binary digit 1 of their number, the lowest first.
#[derive(Drop)]
pub struct Places {
    row: [NodeId; ROW],
    from: usize,
    to: usize,
    left: u64,
    nodes: [NodeId; SUBTREES],
    // The depth of the next row at most: it grows with each, so that no row is much longer than
    // what was taken before it.
    reach: u32,
}

// The row, and what is left behind it: how many places, and a node for each level.
impl Model for Places {
    ghost use Rattle.std.specs.Prelude.{◌≡◌, ◌^◌, ◌≤◌, length};
    ghost use Rattle.ssz_nodes.specs.Ahead.{Ahead};

    ghost Value = { Ahead };

    ghost view = { λ places. record {
      row = places.row;
      from = places.from;
      to = places.to;
      left = places.left;
      nodes = places.nodes;
    } };

    ghost invariant = { λ places. (places.left ≤ 2 ^ 63) × (length places.nodes ≡ 64)
        × (length places.row ≡ 128) × (places.from ≤ places.to) × (places.to ≤ 128)
        × (places.reach ≤ 7) };
}

impl Places {
    /// All places of the full tree.
    pub fn new(top: Top) -> Self
        requires { top.depth < 64 }
        ensures nodes { (arena : ArenaContent) → IsNodeOf arena top.node
            → AheadAreNodes arena result }
        ensures holds { (arena : ArenaContent) (trees : List Tree) → length trees ≤ 2 ^ top.depth
            → tree_of arena top.node ≡ merkle_tree top.depth trees → AheadHolds arena trees result }
    {
        Places {
            row: [top.node; ROW],
            from: 0,
            to: 0,
            left: 1 << top.depth,
            nodes: [top.node; SUBTREES],
            reach: 0,
        }
    }

    /// The node of the next place. There is one, if fewer than 2^depth were taken.
    #[inline(always)]
    pub fn next<H: PairHash>(&mut self, arena: &Arena<H>) -> NodeId
        requires { AheadAreNodes arena.now self.old }
        ensures nodes { AheadAreNodes arena.now self.new }
        ensures node { IsNodeOf arena.now result }
        ensures tree { (tree : Tree) (trees : List Tree)
            → AheadHolds arena.now (tree ∷ trees) self.old
            → tree_of arena.now result ≡ tree }
        ensures rest { (tree : Tree) (trees : List Tree)
            → AheadHolds arena.now (tree ∷ trees) self.old
            → AheadHolds arena.now trees self.new }
    {
        self.refill(arena);
        if self.from == self.to {
            return self.nodes[0];
        }
        let node = self.row[self.from];
        self.from += 1;
        node
    }

    /// Comes down to the next row, where all nodes of the one before were taken.
    #[inline(always)]
    pub fn refill<H: PairHash>(&mut self, arena: &Arena<H>)
        requires { AheadAreNodes arena.now self.old }
        ensures nodes { AheadAreNodes arena.now self.new }
        ensures holds { (trees : List Tree) → AheadHolds arena.now trees self.old
            → AheadHolds arena.now trees self.new }
        ensures filled { IsFilled self.new }
    {
        if self.from != self.to {
            return;
        }
        if self.left == 0 {
            return;
        }
        self.fill(arena);
    }

    /// The nodes of the next places that are come down to, of which there is at least one: taken
    /// together, they cost a caller's loop nothing but what it does with each.
    #[inline(always)]
    pub fn row(&self) -> &[NodeId]
        ensures some { 0 < length result.now }
        ensures nodes { (arena : ArenaContent) → AheadAreNodes arena self.now
            → All (IsNodeOf arena) result.now }
        ensures trees { (arena : ArenaContent) (trees : List Tree) → IsFilled self.now
            → AheadHolds arena trees self.now → AreNext arena trees result.now }
        ensures few { (arena : ArenaContent) (trees : List Tree) → IsFilled self.now
            → AheadHolds arena trees self.now → 0 < length trees
            → length result.now ≡ waiting self.now }
    {
        if self.from == self.to {
            return &self.nodes[..1];
        }
        &self.row[self.from..self.to]
    }

    /// Passes over the next places of the row.
    #[inline(always)]
    pub fn skip(&mut self, count: usize)
        ensures nodes { (arena : ArenaContent) → AheadAreNodes arena self.old
            → AheadAreNodes arena self.new }
        ensures rest { (arena : ArenaContent) (trees : List Tree) → count ≤ waiting self.old
            → AheadHolds arena trees self.old → AheadHolds arena (drop count trees) self.new }
    {
        self.from = self.from.saturating_add(count).min(self.to);
    }

    // Comes down to the first row of the lowest subtree: a call of its own, so that taking the next
    // node of a row is none.
    #[inline(never)]
    fn fill<H: PairHash>(&mut self, arena: &Arena<H>)
        requires nodes { AheadAreNodes arena.now self.old }
        requires taken { self.old.from ≡ self.old.to }
        requires some { 0 < self.old.left }
        ensures nodes { AheadAreNodes arena.now self.new }
        ensures holds { (trees : List Tree) → AheadHolds arena.now trees self.old
            → AheadHolds arena.now trees self.new }
        ensures some { self.new.from < self.new.to }
    {
        let level = self.left.trailing_zeros();
        let low = level.min(self.reach);
        let mut node = self.nodes[level as usize];
        for below in (low..level).rev() {
            let (first, second) = arena.halves(node);
            self.nodes[below as usize] = second;
            node = first;
        }
        self.row[0] = node;
        spread(arena, low, &mut self.row);
        self.left -= 1 << low;
        self.from = 0;
        self.to = 1 << low;
        self.reach = (self.reach + 1).min(ROW_DEPTH);
    }
}

// The half of a pair in which place i stands, where each half has 2^level places.
fn half_of<H: PairHash>(arena: &Arena<H>, node: NodeId, i: usize, level: u32) -> NodeId
    requires level { level < 64 }
    requires node { IsNodeOf arena.now node }
    ensures node { IsNodeOf arena.now result }
    ensures left { (left right : Tree) → tree_of arena.now node ≡ pair left right
        → i / 2 ^ level % 2 ≡ 0 → tree_of arena.now result ≡ left }
    ensures right { (left right : Tree) → tree_of arena.now node ≡ pair left right
        → i / 2 ^ level % 2 ≡ 1 → tree_of arena.now result ≡ right }
{
    let (left, right) = arena.halves(node);
    if (i >> level) % 2 == 1 {
        return right;
    }
    left
}

/// The node of place i of a full tree, come down to from its root: for a tree of few places, where
/// a `Places` would cost more to make.
pub fn node_of_place<H: PairHash>(arena: &Arena<H>, top: Top, i: usize) -> NodeId
    requires depth { top.depth < 64 }
    requires node { IsNodeOf arena.now top.node }
    ensures node { IsNodeOf arena.now result }
    ensures tree { (trees : List Tree) → i < 2 ^ top.depth
        → tree_of arena.now top.node ≡ merkle_tree top.depth trees
        → tree_of arena.now result ≡ place trees i }
{
    let mut here = top.node;
    for level in (0..top.depth).rev() {
        here = half_of(arena, here, i, level);
    }
    here
}
