ghost use Rattle.std.specs.Prelude.{◌≡◌, ◌+◌, ◌-◌, ◌^◌, ◌<◌, ◌≤◌, min, List, [], ◌∷◌, ◌++◌, length, replicate};
ghost use Rattle.ssz_chunk.specs.declared.TheConstants.{LEVELS};
ghost use Rattle.ssz_chunk.specs.Tree.{merkle_pairs};
ghost use Rattle.ssz_merkle.specs.Frontier.{whole_pairs};
ghost use Rattle.ssz_arena.specs.Content.{IsNodeOf};
ghost use Rattle.ssz_tree.specs.Added.{AddsNodes, IsPartNode};
ghost use Rattle.ssz_making.specs.Parts.{MadePart, whole_of};
ghost use Rattle.ssz_tree.specs.Stack.{LevelsAreNodes, StackHolds};

use ssz_arena::{Arena, NodeId};
use ssz_chunk::{LEVELS, PairHash};
use std::marker::Model;

// A node for each binary digit of the number of nodes that were pushed.
const NODES: usize = 64;

/// The nodes that were pushed so far on a full tree, by the whole subtrees that they make: one for
/// each binary digit 1 of their number.
#[derive(Drop)]
pub struct Builder {
    depth: u32,
    pushed: u64,
    nodes: [NodeId; NODES],
}

// The depth of the tree, how many nodes were pushed, and a node for each level.
impl Model for Builder {
    ghost use Rattle.std.specs.Prelude.{◌≡◌, ◌^◌, ◌≤◌, length};
    ghost use Rattle.ssz_tree.specs.Stack.{Stack};

    ghost Value = { Stack };

    ghost view = { λ stack.
        record { depth = stack.depth; pushed = stack.pushed; nodes = stack.nodes } };

    ghost invariant = { λ stack. (stack.depth ≤ 126) × (stack.pushed ≤ 2 ^ stack.depth)
        × (length stack.nodes ≡ 64) };
}

/// The node of the full tree of depth `to` over the parts that the node of depth `from` has, with
/// zero trees to the right of it.
#[inline(always)]
pub fn beside_zeros<H: PairHash>(arena: &mut Arena<H>, node: NodeId, from: u32, to: u32) -> NodeId
    requires node { IsNodeOf arena.old node }
    requires up { from ≤ to }
    requires deep { to ≤ LEVELS }
    requires room { to - from ≤ arena.old.spare }
    ensures part { (parts : List MadePart) → 0 < length parts → length parts ≤ 2 ^ from
        → IsPartNode arena.old (whole_of from parts) node
        → IsPartNode arena.new (whole_of to parts) result }
    ensures adds { AddsNodes (to - from) (to - from) arena.old arena.new }
{
    let mut node = node;
    for level in from..to {
        let right = arena.zero(level);
        node = arena.pair(node, right);
    }
    node
}

impl Builder {
    /// For the full tree of this depth in the arena, which is at most LEVELS.
    pub fn new<H: PairHash>(arena: &Arena<H>, depth: u32) -> Self
        requires { depth ≤ LEVELS }
        ensures depth { result.depth ≡ depth }
        ensures pushed { result.pushed ≡ 0 }
        ensures holds { StackHolds arena.now [] result }
    {
        let zero = arena.zero(0);
        Builder {
            depth,
            pushed: 0,
            nodes: [zero; NODES],
        }
    }

    /// As if a node was pushed so many times, which are at most 2^depth: each whole subtree of its
    /// copies is made once.
    pub fn of_copies<H: PairHash>(
        arena: &mut Arena<H>,
        depth: u32,
        node: NodeId,
        count: u64,
    ) -> Self
        requires depth { depth ≤ LEVELS }
        requires few { count ≤ 2 ^ depth }
        requires node { IsNodeOf arena.old node }
        requires room { depth ≤ arena.old.spare }
        ensures depth { result.depth ≡ depth }
        ensures pushed { result.pushed ≡ count }
        ensures holds { (part : MadePart) → IsPartNode arena.old part node
            → StackHolds arena.new (replicate count part) result }
        ensures adds { AddsNodes depth (min depth (whole_pairs depth count)) arena.old arena.new }
    {
        let mut nodes = [node; NODES];
        let mut copies = node;
        let mut level = 0u32;
        let mut left = count / 2;
        'levels: while left > 0 {
            copies = arena.pair(copies, copies);
            level += 1;
            nodes[level as usize] = copies;
            left /= 2;
        }
        Builder {
            depth,
            pushed: count,
            nodes,
        }
    }

    /// Takes one more node, at the next place: fewer than 2^depth were pushed so far, and fewer
    /// than a u64 counts. Makes the pairs of which it is the last node.
    pub fn push<H: PairHash>(&mut self, arena: &mut Arena<H>, node: NodeId)
        requires below { self.old.pushed < 2 ^ self.old.depth }
        requires counted { self.old.pushed + 1 < 2 ^ 64 }
        requires nodes { LevelsAreNodes arena.old self.old.nodes }
        requires node { IsNodeOf arena.old node }
        requires room { whole_pairs self.old.depth (self.old.pushed + 1)
            - whole_pairs self.old.depth self.old.pushed ≤ arena.old.spare }
        ensures depth { self.new.depth ≡ self.old.depth }
        ensures pushed { self.new.pushed ≡ self.old.pushed + 1 }
        ensures holds { (parts : List MadePart) (part : MadePart)
            → StackHolds arena.old parts self.old
            → IsPartNode arena.old part node → StackHolds arena.new (parts ++ part ∷ []) self.new }
        ensures adds { let made = whole_pairs self.old.depth (self.old.pushed + 1)
            - whole_pairs self.old.depth self.old.pushed in
            AddsNodes made made arena.old arena.new }
    {
        let mut carry = node;
        let whole = self.pushed.trailing_ones();
        for level in 0..whole {
            let left = self.nodes[level as usize];
            carry = arena.pair(left, carry);
        }
        self.nodes[whole as usize] = carry;
        self.pushed += 1;
    }

    /// The node of the full tree of the nodes that were pushed, with zero chunks behind them. Makes
    /// the pairs that are not whole, one a level, each with a zero tree or with the node to its
    /// left. Inlined, it reads the nodes where they are, and not a copy.
    #[inline(always)]
    pub fn finish<H: PairHash>(&self, arena: &mut Arena<H>) -> NodeId
        requires nodes { LevelsAreNodes arena.old self.now.nodes }
        requires room { merkle_pairs self.now.depth self.now.pushed
            - whole_pairs self.now.depth self.now.pushed ≤ arena.old.spare }
        ensures part { (parts : List MadePart) → StackHolds arena.old parts self.now
            → IsPartNode arena.new (whole_of self.now.depth parts) result }
        ensures adds { let made = merkle_pairs self.now.depth self.now.pushed
            - whole_pairs self.now.depth self.now.pushed in
            AddsNodes made made arena.old arena.new }
    {
        if self.pushed == 0 {
            return arena.zero(self.depth);
        }
        let first = self.pushed.trailing_zeros();
        let mut node = self.nodes[first as usize];
        let mut level = first;
        let mut left = (self.pushed - 1) >> first;
        'levels: while left > 0 {
            if left % 2 == 1 {
                node = arena.pair(self.nodes[level as usize], node);
            } else {
                let zero = arena.zero(level);
                node = arena.pair(node, zero);
            }
            level += 1;
            left /= 2;
        }
        beside_zeros(arena, node, level, self.depth)
    }
}
