//! The fields of containers that stand beside one another, come down to together.
ghost use Rattle.std.specs.Prelude.{ℕ, ◌≡◌, ◌+◌, ◌*◌, ◌<◌, ◌≤◌, ◌^◌, ◌++◌, List, ◌∷◌, drop, length, All};
ghost use Rattle.ssz_chunk.specs.Tree.{Tree, merkle_tree};
ghost use Rattle.ssz_arena.specs.Content.{ArenaContent, IsNodeOf, tree_of};
ghost use Rattle.ssz_nodes.specs.Ahead.{IsRowOf};
ghost use Rattle.ssz_nodes.specs.Beside.{FieldsHold, FieldsAreNodes};

use super::places::{Places, Top};
use super::rows::spread_each;
use ssz_arena::{Arena, NodeId};
use ssz_chunk::PairHash;
use std::marker::Model;

// The fields of so many places stand in a row at most.
const ROOM: usize = 256;

/// The nodes of the fields of containers that are still to come, from left to right: of those that
/// were come down to, and behind them the places of the others. The fields of each are a full tree
/// of the same depth, and its places stand behind those of the container before it.
#[derive(Drop)]
pub struct FieldRows {
    depth: u32,
    nodes: [NodeId; ROOM],
    from: usize,
    to: usize,
    places: Places,
}

impl Model for FieldRows {
    ghost use Rattle.std.specs.Prelude.{◌≡◌, ◌≤◌, ◌*◌, ◌^◌, length};
    ghost use Rattle.ssz_nodes.specs.Beside.{FieldsAhead};

    ghost Value = { FieldsAhead };

    ghost view = { λ ahead. record {
      depth = ahead.depth;
      nodes = ahead.nodes;
      from = ahead.from;
      to = ahead.to;
      places = ahead.places;
    } };

    ghost invariant = { λ ahead. (ahead.depth ≤ 3) × (length ahead.nodes ≡ 256)
        × (ahead.from ≤ ahead.to) × (ahead.to * 2 ^ ahead.depth ≤ 256) };
}

impl FieldRows {
    /// Of all containers in a full tree, of which each has its fields in one of this depth.
    pub fn new(top: Top, fields_depth: u32) -> Self
        requires depth { top.depth < 64 }
        requires fields { fields_depth ≤ 3 }
        ensures depth { result.depth ≡ fields_depth }
        ensures nodes { (arena : ArenaContent) → IsNodeOf arena top.node
            → FieldsAreNodes arena result }
        ensures holds { (arena : ArenaContent) (trees : List Tree) → length trees ≤ 2 ^ top.depth
            → tree_of arena top.node ≡ merkle_tree top.depth trees
            → FieldsHold arena trees result }
    {
        FieldRows {
            depth: fields_depth,
            nodes: [top.node; ROOM],
            from: 0,
            to: 0,
            places: Places::new(top),
        }
    }

    /// Comes down to the fields of further containers, where all were taken.
    #[inline(always)]
    pub fn refill<H: PairHash>(&mut self, arena: &Arena<H>)
        requires { FieldsAreNodes arena.now self.old }
        ensures depth { self.new.depth ≡ self.old.depth }
        ensures nodes { FieldsAreNodes arena.now self.new }
        ensures holds { (trees : List Tree) → FieldsHold arena.now trees self.old
            → FieldsHold arena.now trees self.new }
        ensures some { self.new.from < self.new.to }
    {
        if self.from < self.to {
            return;
        }
        self.gather(arena);
    }

    /// The nodes of the fields of the next container.
    #[inline(always)]
    pub fn row(&self) -> &[NodeId]
        requires { self.now.from < self.now.to }
        ensures long { length result.now ≡ 2 ^ self.now.depth }
        ensures nodes { (arena : ArenaContent) → FieldsAreNodes arena self.now
            → All (IsNodeOf arena) result.now }
        ensures fields { (arena : ArenaContent) (tree : Tree) (trees : List Tree)
            → FieldsHold arena (tree ∷ trees) self.now
            → IsRowOf arena self.now.depth tree result.now }
    {
        let start = self.from << self.depth;
        &self.nodes[start..start + (1 << self.depth)]
    }

    /// Passes over the next container.
    #[inline(always)]
    pub fn pass(&mut self)
        requires { self.old.from < self.old.to }
        ensures depth { self.new.depth ≡ self.old.depth }
        ensures nodes { (arena : ArenaContent) → FieldsAreNodes arena self.old
            → FieldsAreNodes arena self.new }
        ensures rest { (arena : ArenaContent) (tree : Tree) (trees : List Tree)
            → FieldsHold arena (tree ∷ trees) self.old → FieldsHold arena trees self.new }
    {
        self.from += 1;
    }

    // Comes down to the fields of the containers at the next row of places, so far as there is
    // room. A call of its own, so that passing on to the next container is none.
    #[inline(never)]
    fn gather<H: PairHash>(&mut self, arena: &Arena<H>)
        requires nodes { FieldsAreNodes arena.now self.old }
        requires taken { self.old.from ≡ self.old.to }
        ensures depth { self.new.depth ≡ self.old.depth }
        ensures nodes { FieldsAreNodes arena.now self.new }
        ensures holds { (trees : List Tree) → FieldsHold arena.now trees self.old
            → FieldsHold arena.now trees self.new }
        ensures some { self.new.from < self.new.to }
    {
        self.places.refill(arena);
        let next = self.places.row();
        let count = next.len().min(ROOM >> self.depth);
        put_front(&next[..count], &mut self.nodes);
        self.places.skip(count);
        spread_each(arena, count, self.depth, &mut self.nodes);
        self.from = 0;
        self.to = count;
    }
}

// Puts some nodes at the front of a row.
#[inline(always)]
fn put_front(nodes: &[NodeId], row: &mut [NodeId])
    requires { length nodes.now ≤ length row.old }
    ensures { row.new ≡ nodes.now ++ drop (length nodes.now) row.old }
{
    row[..nodes.len()].copy_from_slice(nodes);
}
