ghost use Rattle.std.specs.Prelude.{◌≡◌, ◌+◌, ◌<◌, ◌≤◌, ◌^◌, length, min, IsOk, IfOk, OnErr, replicate};
ghost use Rattle.std.specs.List.{AllByRecursion};
ghost use Rattle.ssz_chunk.specs.declared.TheConstants.{LEVELS};
ghost use Rattle.ssz_chunk.specs.Tree.{merkle_pairs};
ghost use Rattle.ssz_schema.specs.Types.{union};
ghost use Rattle.ssz_schema.specs.Sizes.{basic_size, element_chunks};
ghost use Rattle.ssz_schema.specs.Unfolding.{type_of, fields_over, options_over, IsBelow};
ghost use Rattle.ssz_value.specs.Defaults.{default_of};
ghost use Rattle.ssz_value.specs.Pairs.{pairs};
ghost use Rattle.ssz_tree.specs.Added.{AddsNodes, IsPartNode, TakesRoom};
ghost use Rattle.ssz_making.specs.Parts.{elements_part};
ghost use Rattle.ssz_tree.specs.Given.{IsGiven, MakesFields, left_fields, made_at, given_part};
ghost use Rattle.ssz_tree.specs.Shared.{MakesWith, default_part, empty_part, shared, shared_fields, shared_vector};

use super::builder::Builder;
use super::given::given_at;
use super::room::reserve_nodes;
use super::shared_nodes::shared_nodes;
use ssz_arena::{Arena, NodeId};
use ssz_chunk::PairHash;
use ssz_schema::{Name, Schema, Ty, TypeId};
use ssz_value::option_at;
use std::alloc::AllocError;

/// The node of the default of the type (simple-serialize.md, Default values). The equal elements of
/// a vector share one node: it is made once, and joined with itself level by level. Nothing is
/// hashed. Fails for want of memory, and the arena is then as it was; with room for the shared
/// nodes of the type there is no want.
pub fn build_default<H: PairHash>(
    arena: &mut Arena<H>,
    schema: &Schema,
    id: TypeId,
) -> Result<NodeId, AllocError>
    requires known { id < length schema.now.trees }
    ensures part { IfOk result (IsPartNode arena.new (default_part (type_of schema.now id))) }
    ensures adds { let t = type_of schema.now id in
        AddsNodes (shared t) (min (shared t) (pairs t (default_of t))) arena.old arena.new }
    ensures enough { shared (type_of schema.now id) ≤ arena.old.spare → IsOk result }
    ensures room { TakesRoom (shared (type_of schema.now id)) arena.old arena.new }
    ensures err { OnErr result (arena.new ≡ arena.old) }
{
    reserve_nodes(arena, shared_nodes(schema, id))?;
    Ok(default_node(arena, schema, id))
}

// The node of the default of the type, where there is room for its nodes.
#[cycle(default)]
fn default_node<H: PairHash>(arena: &mut Arena<H>, schema: &Schema, id: TypeId) -> NodeId
    requires known { id < length schema.now.trees }
    requires room { shared (type_of schema.now id) ≤ arena.old.spare }
    ensures { let t = type_of schema.now id in
        MakesWith (shared t) arena.old arena.new (default_part t) result }
{
    match schema.ty(id) {
        Ty::Uint(_) => arena.zero(0),
        Ty::Boolean => arena.zero(0),
        Ty::Bitvector(_) => arena.zero(schema.depth(id)),
        Ty::Bitlist(_) => empty_node(arena, schema.depth(id)),
        Ty::List(_, _) => empty_node(arena, schema.depth(id)),
        Ty::Vector(elem, count) => vector_node(arena, schema, *elem, schema.depth(id), *count),
        Ty::Container(fields) => {
            container_node(arena, schema, id, schema.depth(id), fields.as_slice(), &[])
        }
        Ty::Union(options) => union_node(arena, schema, id, options.as_slice()),
    }
}

// The full tree of zero chunks of this depth, with the length 0.
fn empty_node<H: PairHash>(arena: &mut Arena<H>, depth: u32) -> NodeId
    requires depth { depth ≤ LEVELS }
    requires room { 0 < arena.old.spare }
    ensures { MakesWith 1 arena.old arena.new (empty_part depth) result }
{
    let content = arena.zero(depth);
    let len = arena.zero(0);
    arena.pair(content, len)
}

// Of count elements of this type, in a full tree of this depth.
#[cycle(default)]
fn vector_node<H: PairHash>(
    arena: &mut Arena<H>,
    schema: &Schema,
    elem: TypeId,
    depth: u32,
    count: u64,
) -> NodeId
    requires known { elem < length schema.now.trees }
    requires depth { depth ≤ LEVELS }
    requires some { 0 < count }
    requires few { element_chunks (basic_size (type_of schema.now elem)) count ≤ 2 ^ depth }
    requires room { let t = type_of schema.now elem in
        shared_vector (basic_size t) (shared t) depth ≤ arena.old.spare }
    ensures { let t = type_of schema.now elem in
        MakesWith (shared_vector (basic_size t) (shared t) depth) arena.old arena.new
        (elements_part t depth (replicate count (default_of t))) result }
{
    match schema.basic_size(elem) {
        Some(_) => arena.zero(depth),
        None => {
            let part = default_node(arena, schema, elem);
            let nodes = Builder::of_copies(arena, depth, part, count);
            nodes.finish(arena)
        }
    }
}

/// Of a container of these fields, whose types stand before id: each at the node that is given for
/// it, or its default.
#[cycle(default)]
pub fn container_node<H: PairHash>(
    arena: &mut Arena<H>,
    schema: &Schema,
    id: TypeId,
    depth: u32,
    fields: &[(Name, TypeId)],
    given: &[Option<NodeId>],
) -> NodeId
    requires known { id < length schema.now.trees }
    requires before { AllByRecursion (λ part. part.1 < id) fields.now }
    requires depth { depth ≤ LEVELS }
    requires few { length fields.now ≤ 2 ^ depth }
    requires given { AllByRecursion (IsGiven arena.old) given.now }
    requires room { let left = left_fields (fields_over schema.now.trees fields.now) given.now in
        merkle_pairs depth (length fields.now) + shared_fields left ≤ arena.old.spare }
    ensures { MakesFields arena.old arena.new depth (fields_over schema.now.trees fields.now)
        given.now result }
{
    let mut nodes = Builder::new(arena, depth);
    for (i, field) in fields.iter().enumerate() {
        let node = field_node(arena, schema, field.1, given_at(given, i));
        nodes.push(arena, node);
    }
    nodes.finish(arena)
}

// Of a field of this type: the node that is given, or its default.
#[cycle(default)]
fn field_node<H: PairHash>(
    arena: &mut Arena<H>,
    schema: &Schema,
    id: TypeId,
    given: Option<NodeId>,
) -> NodeId
    requires known { id < length schema.now.trees }
    requires given { IsGiven arena.old given }
    requires room { made_at (type_of schema.now id) given ≤ arena.old.spare }
    ensures { let t = type_of schema.now id in
        MakesWith (made_at t given) arena.old arena.new (given_part arena.old t given) result }
{
    match given {
        Some(node) => node,
        None => default_node(arena, schema, id),
    }
}

// Of a union of these options, whose types stand before id.
#[cycle(default)]
fn union_node<H: PairHash>(
    arena: &mut Arena<H>,
    schema: &Schema,
    id: TypeId,
    options: &[Option<TypeId>],
) -> NodeId
    requires known { id < length schema.now.trees }
    requires before { AllByRecursion (IsBelow id) options.now }
    requires room { shared (union (options_over schema.now.trees options.now))
        ≤ arena.old.spare }
    ensures { let t = union (options_over schema.now.trees options.now) in
        MakesWith (shared t) arena.old arena.new (default_part t) result }
{
    match option_at(options, 0) {
        Some(Some(option)) => {
            let node = default_node(arena, schema, option);
            let selector = arena.zero(0);
            arena.pair(node, selector)
        }
        Some(None) => empty_node(arena, 0),
        None => empty_node(arena, 0),
    }
}
