ghost use Rattle.std.specs.Prelude.{◌≡◌, ◌+◌, ◌-◌, ◌<◌, ◌^◌, min, length};
ghost use Rattle.std.specs.List.{AllByRecursion};
ghost use Rattle.ssz_chunk.specs.Tree.{merkle_pairs};
ghost use Rattle.ssz_schema.specs.Types.{union};
ghost use Rattle.ssz_schema.specs.Sizes.{basic_size};
ghost use Rattle.ssz_schema.specs.Unfolding.{type_of, fields_over, options_over, IsBelow};
ghost use Rattle.ssz_tree.specs.Shared.{shared, shared_fields, shared_vector};
ghost use Rattle.ssz_tree.specs.Given.{left_fields, made_at};

use super::given::given_at;
use ssz_arena::NodeId;
use ssz_making::pairs_above;
use ssz_schema::{Name, Schema, Ty, TypeId};
use ssz_value::option_at;

/// How many nodes are made at most for the default of the type; u64::MAX stands for all numbers
/// from there on.
#[cycle(count)]
pub fn shared_nodes(schema: &Schema, id: TypeId) -> u64
    requires { id < length schema.now.trees }
    ensures { result ≡ min (shared (type_of schema.now id)) (2 ^ 64 - 1) }
{
    match schema.ty(id) {
        Ty::Uint(_) => 0,
        Ty::Boolean => 0,
        Ty::Bitvector(_) => 0,
        Ty::Bitlist(_) => 1,
        Ty::List(_, _) => 1,
        Ty::Vector(elem, _) => vector_nodes(schema, *elem, schema.depth(id)),
        Ty::Container(fields) => {
            container_nodes(schema, id, schema.depth(id), fields.as_slice(), &[])
        }
        Ty::Union(options) => union_nodes(schema, id, options.as_slice()),
    }
}

// Of a vector of elements of this type, in a full tree of this depth.
#[cycle(count)]
fn vector_nodes(schema: &Schema, elem: TypeId, depth: u32) -> u64
    requires { elem < length schema.now.trees }
    ensures { let t = type_of schema.now elem in
        result ≡ min (shared_vector (basic_size t) (shared t) depth) (2 ^ 64 - 1) }
{
    match schema.basic_size(elem) {
        Some(_) => 0,
        None => shared_nodes(schema, elem)
            .saturating_add(u64::from(depth))
            .saturating_add(u64::from(depth)),
    }
}

/// Of a container of these fields, whose types stand before id, where the nodes of some are given.
#[cycle(count)]
pub fn container_nodes(
    schema: &Schema,
    id: TypeId,
    depth: u32,
    fields: &[(Name, TypeId)],
    given: &[Option<NodeId>],
) -> u64
    requires known { id < length schema.now.trees }
    requires before { AllByRecursion (λ part. part.1 < id) fields.now }
    ensures { let left = left_fields (fields_over schema.now.trees fields.now) given.now in
        result ≡ min (merkle_pairs depth (length fields.now) + shared_fields left) (2 ^ 64 - 1) }
{
    let mut nodes = pairs_above(depth, fields.len() as u64);
    for (i, field) in fields.iter().enumerate() {
        nodes = nodes.saturating_add(field_nodes(schema, field.1, given_at(given, i)));
    }
    nodes
}

// Of a field of this type: none where its node is given.
#[cycle(count)]
fn field_nodes(schema: &Schema, id: TypeId, given: Option<NodeId>) -> u64
    requires { id < length schema.now.trees }
    ensures { result ≡ min (made_at (type_of schema.now id) given) (2 ^ 64 - 1) }
{
    match given {
        Some(_) => 0,
        None => shared_nodes(schema, id),
    }
}

// Of a union of these options, whose types stand before id.
#[cycle(count)]
fn union_nodes(schema: &Schema, id: TypeId, options: &[Option<TypeId>]) -> u64
    requires known { id < length schema.now.trees }
    requires before { AllByRecursion (IsBelow id) options.now }
    ensures { result ≡ min (shared (union (options_over schema.now.trees options.now)))
        (2 ^ 64 - 1) }
{
    match option_at(options, 0) {
        Some(Some(option)) => shared_nodes(schema, option).saturating_add(1),
        Some(None) => 1,
        None => 1,
    }
}
