//! The length of an encoding, told from the nodes.
ghost use Rattle.std.specs.Prelude.{◌≡◌, ◌<◌, ◌≤◌, ◌^◌, length, Option};
ghost use Rattle.std.specs.List.{AllByRecursion, sum_by};
ghost use Rattle.ssz_schema.specs.Types.{container, union};
ghost use Rattle.ssz_schema.specs.Sizes.{fixed_size, part_length};
ghost use Rattle.ssz_schema.specs.Unfolding.{type_of, fields_over, options_over, IsBelow};
ghost use Rattle.ssz_value.specs.Encoding.{serialize};
ghost use Rattle.ssz_value.specs.Sizes.{size, fields_size};
ghost use Rattle.ssz_arena.specs.Content.{IsNodeOf, tree_of};
ghost use Rattle.ssz_value.specs.Written.{capped};
ghost use Rattle.ssz_nodes.specs.Shown.{ForValue, ForPlace, ForElements, ForFields};

use ssz_arena::{Arena, NodeId};
use ssz_chunk::PairHash;
use ssz_nodes::{Places, Top, node_of_place};
use ssz_schema::{Name, Schema, Ty, TypeId};
use ssz_value::option_at;
use ssz_walk::mixed_parts;

/// The length in bytes of the encoding of the value whose tree the node has, or the greatest u64
/// where that is greater.
pub fn part_len<H: PairHash>(arena: &Arena<H>, schema: &Schema, id: TypeId, node: NodeId) -> u64
    requires known { id < length schema.now.trees }
    requires node { IsNodeOf arena.now node }
    ensures { let t = type_of schema.now id in
        ForValue t (tree_of arena.now node) (λ v. result ≡ capped (length (serialize t v))) }
{
    node_len(arena, schema, id, node)
}

// The same, as a sum over the parts.
#[cycle(length)]
fn node_len<H: PairHash>(arena: &Arena<H>, schema: &Schema, id: TypeId, node: NodeId) -> u64
    requires known { id < length schema.now.trees }
    requires node { IsNodeOf arena.now node }
    ensures { let t = type_of schema.now id in
        ForValue t (tree_of arena.now node) (λ v. result ≡ capped (size t v)) }
{
    // Every type of a schema is legal.
    let _legal = schema.ty(id);
    if let Some(size) = schema.fixed_size(id) {
        return size;
    }
    variable_len(arena, schema, id, node)
}

// Of a type of variable size.
#[cycle(length)]
fn variable_len<H: PairHash>(arena: &Arena<H>, schema: &Schema, id: TypeId, node: NodeId) -> u64
    requires known { id < length schema.now.trees }
    requires node { IsNodeOf arena.now node }
    requires size { fixed_size (type_of schema.now id) ≡ None }
    ensures { let t = type_of schema.now id in
        ForValue t (tree_of arena.now node) (λ v. result ≡ capped (size t v)) }
{
    let depth = schema.depth(id);
    let top = Top { node, depth };
    match schema.ty(id) {
        Ty::Bitlist(_) => mixed_parts(arena, node).1 / 8 + 1,
        Ty::Vector(elem, n) => elements_len(arena, schema, *elem, top, *n),
        Ty::List(elem, _) => {
            let (content, count) = mixed_parts(arena, node);
            let inner = Top {
                node: content,
                depth,
            };
            elements_len(arena, schema, *elem, inner, count)
        }
        Ty::Union(options) => chosen_len(arena, schema, id, options.as_slice(), node),
        Ty::Container(fields) => fields_len(arena, schema, id, fields.as_slice(), top),
        Ty::Uint(_) | Ty::Boolean | Ty::Bitvector(_) => 0,
    }
}

// Of count elements in a full tree.
#[cycle(length)]
fn elements_len<H: PairHash>(
    arena: &Arena<H>,
    schema: &Schema,
    elem: TypeId,
    top: Top,
    count: u64,
) -> u64
    requires known { elem < length schema.now.trees }
    requires depth { top.depth < 64 }
    requires node { IsNodeOf arena.now top.node }
    ensures { let t = type_of schema.now elem in
        ForElements t top.depth count (tree_of arena.now top.node)
        (λ vs. result ≡ capped (sum_by (λ v. part_length (fixed_size t) (size t v)) vs)) }
{
    // Every type of a schema is legal.
    let _legal = schema.ty(elem);
    if let Some(size) = schema.fixed_size(elem) {
        return count.saturating_mul(size);
    }
    let mut places = Places::new(top);
    let mut total = 0u64;
    for _i in 0..count {
        let part = places.next(arena);
        let len = node_len(arena, schema, elem, part).saturating_add(4);
        total = total.saturating_add(len);
    }
    total
}

// Of these fields, whose types stand before id, in a full tree.
#[cycle(length)]
fn fields_len<H: PairHash>(
    arena: &Arena<H>,
    schema: &Schema,
    id: TypeId,
    fields: &[(Name, TypeId)],
    top: Top,
) -> u64
    requires known { id < length schema.now.trees }
    requires before { AllByRecursion (λ part. part.1 < id) fields.now }
    requires depth { top.depth < 64 }
    requires node { IsNodeOf arena.now top.node }
    ensures { let fs = fields_over schema.now.trees fields.now in
        ForFields fs top.depth (tree_of arena.now top.node)
        (λ vs. result ≡ capped (fields_size fs vs)) }
{
    let mut total = 0u64;
    for (i, field) in fields.iter().enumerate() {
        total = total.saturating_add(field_len(arena, schema, field.1, top, i));
    }
    total
}

// What field i adds to the whole: its length, and an offset where it is variable-size.
#[cycle(length)]
fn field_len<H: PairHash>(arena: &Arena<H>, schema: &Schema, id: TypeId, top: Top, i: usize) -> u64
    requires known { id < length schema.now.trees }
    requires depth { top.depth < 64 }
    requires node { IsNodeOf arena.now top.node }
    ensures { let t = type_of schema.now id in
        ForPlace t top.depth i (tree_of arena.now top.node)
        (λ v. result ≡ capped (part_length (fixed_size t) (size t v))) }
{
    // Every type of a schema is legal.
    let _legal = schema.ty(id);
    match schema.fixed_size(id) {
        Some(size) => size,
        None => {
            let part = node_of_place(arena, top, i);
            variable_len(arena, schema, id, part).saturating_add(4)
        }
    }
}

// Of a union of these options, whose types stand before id.
#[cycle(length)]
fn chosen_len<H: PairHash>(
    arena: &Arena<H>,
    schema: &Schema,
    id: TypeId,
    options: &[Option<TypeId>],
    node: NodeId,
) -> u64
    requires known { id < length schema.now.trees }
    requires before { AllByRecursion (IsBelow id) options.now }
    requires few { length options.now ≤ 128 }
    requires node { IsNodeOf arena.now node }
    ensures { let t = union (options_over schema.now.trees options.now) in
        ForValue t (tree_of arena.now node) (λ v. result ≡ capped (size t v)) }
{
    let (inner, selector) = mixed_parts(arena, node);
    match option_at(options, (selector % 256) as u8) {
        Some(Some(option)) => node_len(arena, schema, option, inner).saturating_add(1),
        Some(None) => 1,
        None => 1,
    }
}
