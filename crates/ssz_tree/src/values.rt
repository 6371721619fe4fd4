ghost use Rattle.std.specs.Prelude.{◌≡◌, ◌+◌, ◌-◌, ◌*◌, ◌<◌, ◌≤◌, ◌^◌, length, min, IsOk, IfOk, OnErr};
ghost use Rattle.ssz_schema.specs.Unfolding.{type_of};
ghost use Rattle.ssz_value.specs.Standing.{value_of, IsValue};
ghost use Rattle.ssz_value.specs.Pairs.{pairs};
ghost use Rattle.ssz_making.specs.Parts.{part_of_value};
ghost use Rattle.ssz_making.specs.Nodes.{new_nodes};
ghost use Rattle.ssz_tree.specs.Added.{AddsNodes, IsPartNode, MakesNode, TakesRoom};

use super::growing::Growing;
use super::room::{nodes_for, reserve_nodes};
use ssz_arena::{Arena, NodeId};
use ssz_chunk::PairHash;
use ssz_making::{value_part, value_tally};
use ssz_schema::{Schema, TypeId};
use ssz_value::Value;
use std::alloc::AllocError;

/// The node of a value of the type (simple-serialize.md, Merkleization). Nothing is hashed: each
/// pair gets its root when it is asked for. Fails for want of memory, and the arena is then as it
/// was; with room for the new nodes there is no want.
pub fn build<H: PairHash>(
    arena: &mut Arena<H>,
    schema: &Schema,
    id: TypeId,
    value: &Value,
) -> Result<NodeId, AllocError>
    requires known { id < length schema.now.trees }
    requires value { IsValue (type_of schema.now id) value.now }
    ensures part { IfOk result (IsPartNode arena.new
        (part_of_value (type_of schema.now id) (value_of value.now))) }
    ensures adds { let t = type_of schema.now id in let v = value_of value.now in
        AddsNodes (new_nodes t v) (pairs t v) arena.old arena.new }
    ensures enough { new_nodes (type_of schema.now id) (value_of value.now) ≤ arena.old.spare
        → IsOk result }
    ensures room { TakesRoom (new_nodes (type_of schema.now id) (value_of value.now))
        arena.old arena.new }
    ensures err { OnErr result (arena.new ≡ arena.old) }
{
    let tally = value_tally(schema, id, value);
    reserve_nodes(arena, tally.nodes)?;
    Ok(value_node(arena, schema, id, value))
}

/// The node of a value of the type, as `build` makes it, where there is room for its nodes, of
/// which there are no more than `nodes_needed` says. Takes no memory.
pub fn value_node<H: PairHash>(
    arena: &mut Arena<H>,
    schema: &Schema,
    id: TypeId,
    value: &Value,
) -> NodeId
    requires known { id < length schema.now.trees }
    requires value { IsValue (type_of schema.now id) value.now }
    requires room { new_nodes (type_of schema.now id) (value_of value.now) ≤ arena.old.spare }
    ensures { MakesNode arena.old arena.new
        (part_of_value (type_of schema.now id) (value_of value.now))
        result }
{
    let mut maker = Growing { arena };
    value_part(&mut maker, schema, id, value)
}

/// So many nodes are enough for the value, as a bound in its pairs alone: twice as many and one, or
/// usize::MAX where that is more.
pub fn nodes_needed(schema: &Schema, id: TypeId, value: &Value) -> usize
    requires known { id < length schema.now.trees }
    requires value { IsValue (type_of schema.now id) value.now }
    ensures number { result ≡ min (2 * pairs (type_of schema.now id) (value_of value.now) + 1)
        (2 ^ 64 - 1) }
    ensures enough { let t = type_of schema.now id in let v = value_of value.now in
        new_nodes t v ≤ 2 * pairs t v + 1 }
{
    nodes_for(value_tally(schema, id, value).pairs) as usize
}
