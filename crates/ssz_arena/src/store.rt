// Where nodes are kept, in some 35 bytes each.
ghost use Rattle.std.specs.Prelude.{◌≡◌, ℕ, ◌+◌, ◌-◌, ◌*◌, ◌/◌, ◌%◌, ◌<◌, ◌≤◌, ◌^◌, max, List, [], ◌∷◌, ◌++◌, true, false, Some, None, IfOk, IsOk, IsTrue, OnOk, OnErr, length, vec_len, vec_capacity, slice_get, slice_index, slice_set};
ghost use Rattle.ssz_chunk.specs.declared.Chunk.{Chunk};
ghost use Rattle.ssz_arena.specs.declared.node.NodeId.{NodeId};
ghost use Rattle.ssz_arena.specs.declared.node.Node.TheVariants.{Leaf, Pair};
ghost use Rattle.ssz_arena.specs.Batches.{halves_of, is_due, left_child, node_of, right_child};
ghost use Rattle.ssz_arena.specs.Content.{child, node_at};
ghost use Rattle.ssz_arena.specs.Copied.{AreOrdered};
ghost use Rattle.ssz_arena.specs.Shown.{steps_left};
ghost use Rattle.ssz_arena.specs.Stored.{AreBehindLefts, IsShort, IsStored, blocks_for, chunk_of, count_of, first_link, links_at, node_with, pair_in, pair_links, pair_shape, shape_of};

use super::node::{MARK, MOST_NODES, Node, NodeId};
use ssz_chunk::Chunk;
use std::alloc::{AllocError, Global};
use std::marker::Model;
use std::simd::prelude::*;

// So many nodes have one entry that says where their links begin.
const BLOCK: usize = 32;

// The shapes of nodes. A pair has two links, or one where a child stands just before it.
const LEAF: u8 = 0;

const RIGHT_BEFORE: u8 = 1;

const WIDE: u8 = 2;

const LEFT_BEFORE: u8 = 3;

// A chunk for each node: a leaf's own, or the root of a pair that has one. A byte for each: the low
// two bits say its shape, the others how many links those before it in its block have. The places
// of children are the links, but for a child that stands just before its pair, as of most pairs:
// the shape says which. MARK is added to the first link of a pair that has no root yet.
#[derive(Debug, Drop)]
pub(crate) struct Store {
    pub(crate) chunks: Vec<Chunk>,
    kinds: Vec<u8>,
    firsts: Vec<u32>,
    links: Vec<u32>,
    // For so many nodes all of these have room.
    room: usize,
}

// The nodes, and for how many more there is room.
impl Model for Store {
    ghost use Rattle.ssz_arena.specs.Content.{ArenaContent};

    ghost Value = { ArenaContent };

    ghost use Rattle.std.specs.Prelude.{◌-◌, ◌*◌, ◌≤◌, ◌^◌, vec_len, vec_capacity};
    ghost use Rattle.ssz_arena.specs.Stored.{nodes_in, IsStored};

    ghost view = { λ s. record {
      nodes = nodes_in s.chunks.items s.kinds.items s.firsts.items s.links.items;
      spare = s.room - vec_len s.chunks;
    } };

    ghost invariant = { λ s.
        IsStored (vec_len s.chunks) s.kinds.items s.firsts.items (vec_len s.links)
        × (vec_len s.chunks ≤ s.room) × (s.room ≤ 2 ^ 31) × (s.room ≤ vec_capacity s.chunks)
        × (s.room ≤ vec_capacity s.kinds) × (s.room ≤ 32 * vec_capacity s.firsts)
        × (2 * s.room ≤ vec_capacity s.links) };
}

// Where the links of a node begin.
#[inline(always)]
fn first_of(kinds: &Vec<u8>, firsts: &Vec<u32>, i: usize) -> usize
    requires kind { i < vec_len kinds.now }
    requires block { i / 32 < vec_len firsts.now }
    ensures { result ≡ first_link kinds.now.items firsts.now.items i }
{
    firsts[i / BLOCK] as usize + (kinds[i] / 4) as usize
}

// The children of a pair, left and right, of which the left one has the mark.
#[inline(always)]
fn links_at(kinds: &Vec<u8>, firsts: &Vec<u32>, links: &Vec<u32>, i: usize) -> Option<(u32, u32)>
    requires stored { IsStored (vec_len kinds.now) kinds.now.items firsts.now.items
        (vec_len links.now) }
    requires inside { i < vec_len kinds.now }
    requires few { i < 2 ^ 31 }
    ensures { result ≡ links_at kinds.now.items firsts.now.items links.now.items i }
{
    let shape = kinds[i] % 4;
    // Most pairs are of this shape. A test of its own keeps it off the way of the others.
    if shape == RIGHT_BEFORE {
        return Some((links[first_of(kinds, firsts, i)], i as u32 - 1));
    }
    if shape == LEAF {
        return None;
    }
    let first = first_of(kinds, firsts, i);
    let link = links[first];
    if shape == LEFT_BEFORE {
        return Some((i as u32 - 1 + (link - link % MARK), link % MARK));
    }
    Some((link, links[first + 1]))
}

// The child of a pair to one side. No link is read where the child stands just before the pair. The
// sides are told apart once.
#[inline(always)]
fn child_at(
    kinds: &Vec<u8>,
    firsts: &Vec<u32>,
    links: &Vec<u32>,
    i: usize,
    right: bool,
) -> Option<NodeId>
    requires stored { IsStored (vec_len kinds.now) kinds.now.items firsts.now.items
        (vec_len links.now) }
    requires inside { i < vec_len kinds.now }
    requires few { i < 2 ^ 31 }
    requires short { shape_of kinds.now.items i ≡ 2
        → slice_index links.now.items (first_link kinds.now.items firsts.now.items i + 1)
        < 2 ^ 31 }
    ensures { (chunk : Chunk) → result ≡ child right
        (node_with chunk (links_at kinds.now.items firsts.now.items links.now.items i)) }
{
    let shape = kinds[i] % 4;
    if right {
        if shape == RIGHT_BEFORE {
            return Some(NodeId(i as u32 - 1));
        }
        if shape == LEAF {
            return None;
        }
        // The second link of a pair that has two is its right child.
        let at = first_of(kinds, firsts, i) + usize::from(shape == WIDE);
        return Some(NodeId(links[at] % MARK));
    }
    if shape == LEFT_BEFORE {
        return Some(NodeId(i as u32 - 1));
    }
    if shape == LEAF {
        return None;
    }
    Some(NodeId(links[first_of(kinds, firsts, i)] % MARK))
}

// Whether eight nodes, the last of them at this place, are pairs that stand just behind their left
// children, as most pairs at the head of a long list.
#[inline(always)]
fn eight_behind(kinds: &Vec<u8>, i: usize) -> bool
    requires inside { i < vec_len kinds.now }
    ensures { IsTrue result → AreBehindLefts kinds.now.items i 8 }
{
    if i < 8 {
        return false;
    }
    let row = u8x8::from_slice(&kinds[i - 7..]);
    (row & u8x8::splat(3))
        .simd_ne(u8x8::splat(LEFT_BEFORE))
        .to_bitmask()
        == 0
}

// Begins a block where the next node does, and says how many links those before it in its block
// have.
#[inline(always)]
fn begin(firsts: &mut Vec<u32>, place: usize, total: usize) -> u8
    requires few { place < 2 ^ 31 }
    requires ordered { 32 * vec_len firsts.old ≤ place + 31 }
    requires blocks { place ≤ 32 * vec_len firsts.old }
    requires room { place < 32 * vec_capacity firsts.old }
    requires total { total ≤ 2 * place }
    requires begins { (b : ℕ) → b < vec_len firsts.old
        → (slice_index firsts.old.items b ≤ total)
        × (total + 64 * b ≤ slice_index firsts.old.items b + 2 * place) }
    ensures blocks { firsts.new.items ≡ blocks_for firsts.old.items place total }
    ensures capacity { vec_capacity firsts.new ≡ vec_capacity firsts.old }
    ensures before { slice_index firsts.new.items (place / 32) + result ≡ total }
    ensures few { result ≤ 62 }
{
    if firsts.len() * BLOCK == place {
        firsts.push_reserved(total as u32);
        return 0;
    }
    (total - firsts[place / BLOCK] as usize) as u8
}

// Adds the links of a pair at a place, and says its shape. The left child has the mark.
#[inline(always)]
fn link(links: &mut Vec<u32>, left: u32, right: NodeId, place: usize) -> u8
    requires room { vec_len links.old + 2 ≤ vec_capacity links.old }
    requires short { right.0 < 2 ^ 31 }
    ensures links { links.new.items ≡ links.old.items ++ pair_links left right.0 place }
    ensures shape { result ≡ pair_shape left right.0 place }
    ensures few { result < 4 }
    ensures len { vec_len links.new ≡ vec_len links.old + count_of result }
    ensures capacity { vec_capacity links.new ≡ vec_capacity links.old }
{
    if right.0 as usize + 1 == place {
        links.push_reserved(left);
        return RIGHT_BEFORE;
    }
    if (left % MARK) as usize + 1 == place {
        links.push_reserved(right.0 + (left - left % MARK));
        return LEFT_BEFORE;
    }
    links.push_reserved(left);
    links.push_reserved(right.0);
    WIDE
}

impl Store {
    // No nodes, and room for none.
    pub(crate) fn new(alloc: Global) -> Self
        ensures nodes { result.nodes ≡ [] }
        ensures spare { result.spare ≡ 0 }
    {
        Store {
            chunks: Vec::new(alloc),
            kinds: Vec::new(alloc),
            firsts: Vec::new(alloc),
            links: Vec::new(alloc),
            room: 0,
        }
    }

    // How many nodes there are.
    #[inline(always)]
    pub(crate) fn len(&self) -> usize
        ensures count { result ≡ length self.now.nodes }
        ensures few { result ≤ 2 ^ 31 }
    {
        self.chunks.len()
    }

    // For how many more nodes there is room.
    #[inline(always)]
    pub(crate) fn spare(&self) -> usize
        ensures count { result ≡ self.now.spare }
        ensures few { length self.now.nodes + result ≤ 2 ^ 31 }
    {
        self.room - self.chunks.len()
    }

    // Takes memory for so many nodes in all.
    fn grow(&mut self, room: usize) -> Result<(), AllocError>
        requires most { room ≤ 2 ^ 31 }
        requires more { length self.old.nodes + self.old.spare ≤ room }
        ensures nodes { self.new.nodes ≡ self.old.nodes }
        ensures ok { OnOk result (length self.old.nodes + self.new.spare ≡ room) }
        ensures err { OnErr result (self.new ≡ self.old) }
    {
        let len = self.chunks.len();
        let blocks = room / BLOCK + 1 - self.firsts.len();
        self.chunks.reserve_exact(room - len)?;
        self.kinds.reserve_exact(room - len)?;
        self.firsts.reserve_exact(blocks)?;
        self.links.reserve_exact(2 * room - self.links.len())?;
        self.room = room;
        Ok(())
    }

    // Makes room for n more nodes, and doubles the room for all of them at least. Asks for nothing
    // where there is room. Fails for want of memory, and where there would be more than 2^31 nodes.
    pub(crate) fn reserve(&mut self, n: usize) -> Result<(), AllocError>
        ensures nodes { self.new.nodes ≡ self.old.nodes }
        ensures ok { OnOk result (n ≤ self.new.spare) }
        ensures more { self.old.spare ≤ self.new.spare }
        ensures enough { n ≤ self.old.spare → IsOk result }
        ensures stays { n ≤ self.old.spare → self.new ≡ self.old }
        ensures err { OnErr result (self.new ≡ self.old) }
        ensures most { length self.new.nodes + self.new.spare
            ≤ max (2 * (length self.old.nodes + self.old.spare)) (length self.old.nodes + n) }
    {
        let spare = self.spare();
        if n <= spare {
            return Ok(());
        }
        let len = self.len();
        if n > MOST_NODES - len {
            return Err(AllocError);
        }
        let doubled = MOST_NODES.min(2 * (len + spare));
        self.grow(doubled.max(len + n))
    }

    // Makes room for n more nodes and for no other. Asks for nothing where there is room. Fails for
    // want of memory, and where there would be more than 2^31 nodes.
    pub(crate) fn reserve_exact(&mut self, n: usize) -> Result<(), AllocError>
        ensures nodes { self.new.nodes ≡ self.old.nodes }
        ensures ok { OnOk result (self.new.spare ≡ max n self.old.spare) }
        ensures enough { n ≤ self.old.spare → IsOk result }
        ensures err { OnErr result (self.new ≡ self.old) }
    {
        if n <= self.spare() {
            return Ok(());
        }
        let len = self.len();
        if n > MOST_NODES - len {
            return Err(AllocError);
        }
        self.grow(len + n)
    }

    // A new pair behind the others, of its left child with the mark, and its right child.
    #[inline(always)]
    fn push_pair(&mut self, left: u32, right: NodeId, chunk: Chunk)
        requires room { 0 < self.old.spare }
        requires short { right.0 < 2 ^ 31 }
        ensures nodes { self.new.nodes ≡ self.old.nodes ++ pair_in chunk left right.0 ∷ [] }
        ensures spare { self.new.spare + 1 ≡ self.old.spare }
    {
        let place = self.chunks.len();
        let before = begin(&mut self.firsts, place, self.links.len());
        let shape = link(&mut self.links, left, right, place);
        self.kinds.push_reserved(shape + 4 * before);
        self.chunks.push_reserved(chunk);
    }

    // A new node behind the others.
    #[inline(always)]
    pub(crate) fn push(&mut self, node: Node)
        requires room { 0 < self.old.spare }
        requires short { IsShort node }
        ensures nodes { self.new.nodes ≡ self.old.nodes ++ node ∷ [] }
        ensures spare { self.new.spare + 1 ≡ self.old.spare }
    {
        match node {
            Node::Leaf(chunk) => {
                let before = begin(&mut self.firsts, self.chunks.len(), self.links.len());
                self.kinds.push_reserved(4 * before);
                self.chunks.push_reserved(chunk);
            }
            Node::Pair(left, right, cached) => match cached {
                Some(chunk) => self.push_pair(left.0, right, chunk),
                None => self.push_pair(left.0 + MARK, right, Chunk::ZERO),
            },
        }
    }

    // The node at a place.
    #[inline(always)]
    pub(crate) fn node(&self, i: usize) -> Node
        requires { i < length self.now.nodes }
        ensures { slice_get self.now.nodes i ≡ Some result }
    {
        match links_at(&self.kinds, &self.firsts, &self.links, i) {
            None => Node::Leaf(self.chunks[i]),
            Some((link, right)) => {
                if link >= MARK {
                    return Node::Pair(NodeId(link - MARK), NodeId(right), None);
                }
                Node::Pair(NodeId(link), NodeId(right), Some(self.chunks[i]))
            }
        }
    }

    // Whether it is a pair that has no root yet: its first link tells. To read the whole node would
    // copy its chunk.
    #[inline(always)]
    pub(crate) fn is_due(&self, id: NodeId) -> bool
        requires { id.0 < length self.now.nodes }
        ensures { result ≡ is_due self.now.nodes id }
    {
        let i = id.0 as usize;
        if self.kinds[i] % 4 == LEAF {
            return false;
        }
        self.links[first_of(&self.kinds, &self.firsts, i)] >= MARK
    }

    // The children of a pair, with its root or without. No branch is taken for the mark.
    #[inline(always)]
    pub(crate) fn halves(&self, id: NodeId) -> Option<(NodeId, NodeId)>
        requires { id.0 < length self.now.nodes }
        ensures { result ≡ halves_of (node_of self.now.nodes id) }
    {
        match links_at(&self.kinds, &self.firsts, &self.links, id.0 as usize) {
            None => None,
            Some((link, right)) => Some((NodeId(link % MARK), NodeId(right))),
        }
    }

    // The child of a pair to one side.
    #[inline(always)]
    pub(crate) fn child(&self, id: NodeId, right: bool) -> Option<NodeId>
        requires inside { id.0 < length self.now.nodes }
        requires ordered { AreOrdered self.now.nodes }
        ensures { result ≡ child right (node_of self.now.nodes id) }
    {
        child_at(&self.kinds, &self.firsts, &self.links, id.0 as usize, right)
    }

    // Goes down to the left, so many steps at most, and says how many it went: fewer where it meets
    // a leaf. At the head of a long list eight steps are gone at once.
    #[inline(always)]
    pub(crate) fn lefts(&self, id: NodeId, most: u32) -> (NodeId, u32)
        requires inside { id.0 < length self.now.nodes }
        requires ordered { AreOrdered self.now.nodes }
        ensures inside { result.0.0 < length self.now.nodes }
        ensures few { result.1 ≤ most }
        ensures found { node_at self.now.nodes id (steps_left result.1) ≡ Some result.0 }
    {
        let mut place = id;
        let mut left = most;
        'left: while left > 0 {
            if left >= 8 && eight_behind(&self.kinds, place.0 as usize) {
                place = NodeId(place.0 - 8);
                left -= 8;
            } else {
                match self.child(place, false) {
                    None => return (place, most - left),
                    Some(next) => place = next,
                }
                left -= 1;
            }
        }
        (place, most)
    }

    // The chunk of a leaf, or the root of a pair that has one.
    #[inline(always)]
    pub(crate) fn chunk(&self, id: NodeId) -> &Chunk
        requires { id.0 < length self.now.nodes }
        ensures { (chunk : Chunk) → chunk_of (node_of self.now.nodes id) ≡ Some chunk
            → result.now ≡ chunk }
    {
        &self.chunks[id.0 as usize]
    }

    // Keeps the root of a pair that has none yet.
    #[inline(always)]
    pub(crate) fn keep_root(&mut self, id: NodeId, chunk: Chunk)
        requires inside { id.0 < length self.old.nodes }
        requires due { is_due self.old.nodes id ≡ true }
        ensures nodes { (left right : NodeId)
            → slice_get self.old.nodes id.0 ≡ Some (Pair left right None)
            → self.new.nodes ≡ slice_set self.old.nodes id.0 (Pair left right (Some chunk)) }
        ensures count { length self.new.nodes ≡ length self.old.nodes }
        ensures spare { self.new.spare ≡ self.old.spare }
    {
        let i = id.0 as usize;
        let first = first_of(&self.kinds, &self.firsts, i);
        let link = self.links[first];
        self.links[first] = link - MARK;
        self.chunks[i] = chunk;
    }
}
