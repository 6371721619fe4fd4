// The nodes of parts, made of those that have other parts there. None takes memory.
ghost use Rattle.std.specs.Prelude.{ℕ, ◌≡◌, ◌+◌, ◌*◌, ◌<◌, ◌≤◌, List, length, take, unwrap_or};
ghost use Rattle.ssz_chunk.specs.Tree.{leaf};
ghost use Rattle.ssz_schema.specs.Sizes.{basic_size};
ghost use Rattle.ssz_schema.specs.Indices.{byte};
ghost use Rattle.ssz_schema.specs.Unfolding.{type_of};
ghost use Rattle.ssz_value.specs.Pairs.{pairs};
ghost use Rattle.ssz_places.specs.Spots.{CanHold, LiesWithin, spot_written, bit_written};
ghost use Rattle.ssz_arena.specs.Content.{IsNodeOf, todo, tree_of};
ghost use Rattle.ssz_tree.specs.Added.{AddsNodes, IsPartNode};
ghost use Rattle.ssz_walk.specs.Found.{spot_of};
ghost use Rattle.ssz_edit.specs.Edited.{edited_part, part_without};
ghost use Rattle.ssz_edit.specs.Given.{given_value, IsGiven};

use super::given::{Given, fitting, given_chunk, given_flag, given_node};
use super::leaves::{with_bit, with_bytes};
use ssz_arena::{Arena, NodeId, NodeRef};
use ssz_chunk::{Chunk, PairHash};
use ssz_schema::{Schema, TypeId};
use ssz_walk::Spot;

/// The node with another part at the spot of an old node, where that can hold one.
pub fn part_node<H: PairHash>(
    arena: &mut Arena<H>,
    schema: &Schema,
    id: TypeId,
    old: NodeId,
    spot: Spot,
    given: &Given<'_>,
) -> NodeId
    requires known { id < length schema.now.trees }
    requires old { IsNodeOf arena.old old }
    requires given { IsGiven (type_of schema.now id) given.now }
    requires lies { LiesWithin (type_of schema.now id) (spot_of spot) }
    requires room { let t = type_of schema.now id in
        2 * pairs t (given_value t given.now) + 1 ≤ arena.old.spare }
    ensures node { IsNodeOf arena.new result }
    ensures due { let t = type_of schema.now id in
        todo arena.new result ≤ pairs t (given_value t given.now) }
    ensures part { let t = type_of schema.now id in CanHold (spot_of spot) (tree_of arena.old old)
        → IsPartNode arena.new (edited_part (spot_of spot) t (given_value t given.now)
        (tree_of arena.old old)) result }
    ensures adds { let t = type_of schema.now id in let cost = pairs t (given_value t given.now) in
        AddsNodes (2 * cost + 1) cost arena.old arena.new }
{
    fitting(schema, id, given);
    match spot {
        Spot::Whole => given_node(arena, schema, id, given),
        Spot::Byte(at) => {
            let bytes = given_chunk(schema, id, given);
            byte_part(arena, schema, id, old, at, &bytes)
        }
        Spot::Bit(at) => bit_part(arena, old, at, given_flag(given)),
    }
}

/// The node with nothing at the spot of an old node, where an element of the type was.
pub fn emptied_node<H: PairHash>(
    arena: &mut Arena<H>,
    schema: &Schema,
    id: TypeId,
    old: NodeId,
    spot: Spot,
) -> NodeId
    requires known { id < length schema.now.trees }
    requires old { IsNodeOf arena.old old }
    requires lies { LiesWithin (type_of schema.now id) (spot_of spot) }
    requires room { 0 < arena.old.spare }
    ensures node { IsNodeOf arena.new result }
    ensures part { CanHold (spot_of spot) (tree_of arena.old old) → IsPartNode arena.new
        (part_without (spot_of spot) (type_of schema.now id) (tree_of arena.old old)) result }
    ensures adds { AddsNodes 1 0 arena.old arena.new }
{
    match spot {
        Spot::Whole => arena.zero(0),
        Spot::Byte(at) => byte_part(arena, schema, id, old, at, &Chunk::ZERO),
        Spot::Bit(at) => bit_part(arena, old, at, false),
    }
}

// The leaf with the first bytes of a chunk in it from a byte on, as many as the basic type has.
fn byte_part<H: PairHash>(
    arena: &mut Arena<H>,
    schema: &Schema,
    id: TypeId,
    old: NodeId,
    at: u8,
    bytes: &Chunk,
) -> NodeId
    requires known { id < length schema.now.trees }
    requires old { IsNodeOf arena.old old }
    requires lies { LiesWithin (type_of schema.now id) (byte at) }
    requires room { 0 < arena.old.spare }
    ensures node { IsNodeOf arena.new result }
    ensures due { todo arena.new result ≡ 0 }
    ensures tree { let size = unwrap_or (basic_size (type_of schema.now id)) 0 in
        (chunk : List ℕ) → tree_of arena.old old ≡ leaf chunk
        → tree_of arena.new result ≡ leaf (spot_written chunk at (take size bytes.now.0)) }
    ensures adds { AddsNodes 1 0 arena.old arena.new }
{
    let size = schema.basic_size(id).unwrap_or(0) as usize;
    match arena.node(old) {
        NodeRef::Leaf(chunk) => {
            let new = with_bytes(chunk, at, size, bytes);
            arena.leaf(new)
        }
        NodeRef::Pair(_, _) => arena.zero(0),
    }
}

// The leaf with this bit.
fn bit_part<H: PairHash>(arena: &mut Arena<H>, old: NodeId, at: u8, flag: bool) -> NodeId
    requires old { IsNodeOf arena.old old }
    requires room { 0 < arena.old.spare }
    ensures node { IsNodeOf arena.new result }
    ensures due { todo arena.new result ≡ 0 }
    ensures tree { (chunk : List ℕ) → tree_of arena.old old ≡ leaf chunk
        → tree_of arena.new result ≡ leaf (bit_written chunk at flag) }
    ensures adds { AddsNodes 1 0 arena.old arena.new }
{
    match arena.node(old) {
        NodeRef::Leaf(chunk) => {
            let new = with_bit(chunk, at, flag);
            arena.leaf(new)
        }
        NodeRef::Pair(_, _) => arena.zero(0),
    }
}
