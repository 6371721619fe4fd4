ghost use Rattle.std.specs.Prelude.{◌≡◌, ◌+◌, ◌-◌, ◌*◌, ◌<◌, ◌≤◌, ◌^◌, length, min, None, IsOk, IfOk, OnErr};
ghost use Rattle.ssz_schema.specs.Unfolding.{type_of};
ghost use Rattle.ssz_value.specs.Faults.{first_fault};
ghost use Rattle.ssz_value.specs.Reading.{value_in};
ghost use Rattle.ssz_value.specs.Pairs.{pairs};
ghost use Rattle.ssz_making.specs.Parts.{part_of_value};
ghost use Rattle.ssz_making.specs.Nodes.{new_nodes};
ghost use Rattle.ssz_tree.specs.Added.{AddsNodes, IsPartNode, MakesNode, TakesRoom};

use super::growing::Growing;
use super::room::{nodes_for, reserve_nodes};
use ssz_arena::{Arena, NodeId};
use ssz_bytes::as_bytes;
use ssz_chunk::PairHash;
use ssz_making::{bytes_part, bytes_tally};
use ssz_schema::{Schema, TypeId};
use std::alloc::AllocError;

/// The node of the value that the bytes stand for, which have no fault (simple-serialize.md,
/// Deserialization, Merkleization): one walk over the bytes to count, one to make, and no value.
/// Nothing is hashed. Fails for want of memory, and the arena is then as it was; with room for the
/// new nodes there is no want.
pub fn build_bytes<H: PairHash>(
    arena: &mut Arena<H>,
    schema: &Schema,
    id: TypeId,
    bytes: &[u8],
) -> Result<NodeId, AllocError>
    requires known { id < length schema.now.trees }
    requires short { length bytes.now < 2 ^ 32 }
    requires faultless { first_fault (type_of schema.now id) 0 bytes.now ≡ None }
    ensures part { IfOk result (IsPartNode arena.new
        (part_of_value (type_of schema.now id) (value_in (type_of schema.now id) bytes.now))) }
    ensures adds { let t = type_of schema.now id in let v = value_in t bytes.now in
        AddsNodes (new_nodes t v) (pairs t v) arena.old arena.new }
    ensures enough { let t = type_of schema.now id in
        new_nodes t (value_in t bytes.now) ≤ arena.old.spare → IsOk result }
    ensures room { let t = type_of schema.now id in
        TakesRoom (new_nodes t (value_in t bytes.now)) arena.old arena.new }
    ensures err { OnErr result (arena.new ≡ arena.old) }
{
    let tally = bytes_tally(schema, id, bytes);
    reserve_nodes(arena, tally.nodes)?;
    Ok(bytes_node(arena, schema, id, bytes))
}

/// The node of the value that the bytes stand for, as `build_bytes` makes it, where there is room
/// for its nodes, of which there are no more than `bytes_needed` says. Takes no memory.
pub fn bytes_node<H: PairHash>(
    arena: &mut Arena<H>,
    schema: &Schema,
    id: TypeId,
    bytes: &[u8],
) -> NodeId
    requires known { id < length schema.now.trees }
    requires short { length bytes.now < 2 ^ 32 }
    requires faultless { first_fault (type_of schema.now id) 0 bytes.now ≡ None }
    requires room { let t = type_of schema.now id in
        new_nodes t (value_in t bytes.now) ≤ arena.old.spare }
    ensures { let t = type_of schema.now id in
        MakesNode arena.old arena.new (part_of_value t (value_in t bytes.now)) result }
{
    let mut maker = Growing { arena };
    bytes_part(&mut maker, schema, id, bytes)
}

/// So many nodes are enough for the value that the bytes stand for, as a bound in its pairs alone:
/// twice as many and one, or usize::MAX where that is more.
pub fn bytes_needed(schema: &Schema, id: TypeId, bytes: &[u8]) -> usize
    requires known { id < length schema.now.trees }
    requires short { length bytes.now < 2 ^ 32 }
    requires faultless { first_fault (type_of schema.now id) 0 bytes.now ≡ None }
    ensures number { let t = type_of schema.now id in
        result ≡ min (2 * pairs t (value_in t bytes.now) + 1) (2 ^ 64 - 1) }
    ensures enough { let t = type_of schema.now id in let v = value_in t bytes.now in
        new_nodes t v ≤ 2 * pairs t v + 1 }
{
    // So it is known that they are the bytes of a value that fits.
    let _legal = schema.ty(id);
    let _bytes = as_bytes(bytes);
    nodes_for(bytes_tally(schema, id, bytes).pairs) as usize
}
