ghost use Rattle.std.specs.Prelude.{◌<◌, ◌≤◌, ◌≡◌, length, min, IsOk, IfOk, OnErr};
ghost use Rattle.std.specs.List.{AllByRecursion};
ghost use Rattle.ssz_schema.specs.Unfolding.{type_of};
ghost use Rattle.ssz_tree.specs.Added.{AddsNodes, IsPartNode, TakesRoom};
ghost use Rattle.ssz_tree.specs.Given.{IsGiven, given_part_with, pairs_with, shared_with};

use super::defaults::{build_default, container_node};
use super::room::reserve_nodes;
use super::shared_nodes::container_nodes;
use ssz_arena::{Arena, NodeId};
use ssz_chunk::PairHash;
use ssz_schema::{Schema, Ty, TypeId};
use std::alloc::AllocError;

/// The node of a value of a container type (simple-serialize.md, Merkleization) whose fields are at
/// the nodes that are given, in the order of the fields, and have their defaults where none is; of
/// another type the default. The nodes given are shared. Nothing is hashed. Fails for want of
/// memory, and the arena is then as it was; with room for what is made there is no want.
pub fn build_fields<H: PairHash>(
    arena: &mut Arena<H>,
    schema: &Schema,
    id: TypeId,
    given: &[Option<NodeId>],
) -> Result<NodeId, AllocError>
    requires known { id < length schema.now.trees }
    requires given { AllByRecursion (IsGiven arena.old) given.now }
    ensures part { IfOk result (IsPartNode arena.new
        (given_part_with arena.old (type_of schema.now id) given.now)) }
    ensures adds { let t = type_of schema.now id in let nodes = shared_with t given.now in
        AddsNodes nodes (min nodes (pairs_with t given.now)) arena.old arena.new }
    ensures enough { shared_with (type_of schema.now id) given.now ≤ arena.old.spare
        → IsOk result }
    ensures room { TakesRoom (shared_with (type_of schema.now id) given.now)
        arena.old arena.new }
    ensures err { OnErr result (arena.new ≡ arena.old) }
{
    let Ty::Container(fields) = schema.ty(id) else {
        return build_default(arena, schema, id);
    };
    let depth = schema.depth(id);
    reserve_nodes(
        arena,
        container_nodes(schema, id, depth, fields.as_slice(), given),
    )?;
    Ok(container_node(arena, schema, id, depth, fields.as_slice(), given))
}
