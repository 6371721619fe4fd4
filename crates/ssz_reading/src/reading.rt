ghost use Rattle.std.specs.Prelude.{ℕ, ◌≡◌, ◌+◌, ◌<◌, ◌≤◌, ◌^◌, length, All, IfOk, OnOk, None, Option, vec_len, vec_capacity};
ghost use Rattle.std.specs.List.{AllByRecursion};
ghost use Rattle.ssz_schema.specs.Types.{container, list, union, vector};
ghost use Rattle.ssz_schema.specs.Legal.{IsLegal};
ghost use Rattle.ssz_schema.specs.Unfolding.{type_of, fields_over, options_over, IsBelow};
ghost use Rattle.ssz_schema.specs.Sizes.{basic_size, depth};
ghost use Rattle.ssz_value.specs.declared.value.Value.TheVariants.{Seq};
ghost use Rattle.ssz_value.specs.Values.{sequence, values};
ghost use Rattle.ssz_value.specs.Shapes.{StandAlike, StandsBehind};
ghost use Rattle.ssz_value.specs.Standing.{Stands};
ghost use Rattle.ssz_chunk.specs.Tree.{Tree};
ghost use Rattle.ssz_arena.specs.Content.{IsNodeOf, tree_of};
ghost use Rattle.ssz_nodes.specs.Ahead.{IsRowOf};
ghost use Rattle.ssz_nodes.specs.Shown.{ForValue, ForElements, ForFields};

use super::packed::{put_bytes, put_number, read_bits, read_bytes, read_packed};
use ssz_arena::{Arena, NodeId};
use ssz_chunk::PairHash;
use ssz_nodes::{Basic, FieldRows, NEAR_DEPTH, Places, Row, Top, chunk_of};
use ssz_schema::{Name, Schema, Ty, TypeId};
use ssz_value::{Value, is_byte, option_at};
use ssz_walk::mixed_parts;
use std::alloc::{AllocError, Global};

/// The value whose tree the node has. Fails for want of memory.
#[cycle(value)]
pub fn read_value<H: PairHash>(
    alloc: Global,
    arena: &Arena<H>,
    schema: &Schema,
    id: TypeId,
    node: NodeId,
) -> Result<Value, AllocError>
    requires known { id < length schema.now.trees }
    requires node { IsNodeOf arena.now node }
    ensures { let t = type_of schema.now id in
        ForValue t (tree_of arena.now node) (λ v. IfOk result (Stands t v)) }
{
    let depth = schema.depth(id);
    let top = Top { node, depth };
    match schema.ty(id) {
        Ty::Uint(width) => Ok(Basic::Number(*width).value_at(chunk_of(arena, node), 0)),
        Ty::Boolean => Ok(Basic::Flag.value_at(chunk_of(arena, node), 0)),
        Ty::Bitvector(n) => Ok(Value::Bits(read_bits(alloc, arena, top, *n)?)),
        Ty::Bitlist(_) => {
            let (content, count) = mixed_parts(arena, node);
            let inner = Top {
                node: content,
                depth,
            };
            Ok(Value::Bits(read_bits(alloc, arena, inner, count)?))
        }
        Ty::Vector(elem, n) => read_sequence(alloc, arena, schema, *elem, top, *n),
        Ty::List(elem, _) => read_list(alloc, arena, schema, id, *elem, node),
        Ty::Union(options) => read_chosen(alloc, arena, schema, id, options.as_slice(), node),
        Ty::Container(fields) => {
            let parts = read_fields(alloc, arena, schema, id, fields.as_slice(), top)?;
            Ok(Value::Seq(parts))
        }
    }
}

// Puts the value whose tree the node has behind the others, for which there is room: numbers,
// booleans, vectors and lists, the commonest, without a call.
#[cycle(value)]
#[inline(always)]
fn put_field<H: PairHash>(
    alloc: Global,
    arena: &Arena<H>,
    schema: &Schema,
    id: TypeId,
    node: NodeId,
    parts: &mut Vec<Value>,
) -> Result<(), AllocError>
    requires known { id < length schema.now.trees }
    requires node { IsNodeOf arena.now node }
    requires room { vec_len parts.old < vec_capacity parts.old }
    ensures put { let t = type_of schema.now id in ForValue t (tree_of arena.now node)
        (λ v. OnOk result (StandsBehind t v parts.old.items parts.new.items)) }
    ensures len { OnOk result (vec_len parts.new ≡ vec_len parts.old + 1) }
    ensures capacity { OnOk result (vec_capacity parts.new ≡ vec_capacity parts.old) }
{
    match schema.ty(id) {
        Ty::Uint(width) => {
            put_number(*width, chunk_of(arena, node), parts);
            Ok(())
        }
        Ty::Boolean => {
            let value = Basic::Flag.value_at(chunk_of(arena, node), 0);
            parts.push_reserved(value);
            Ok(())
        }
        Ty::Vector(elem, n) => {
            let depth = schema.depth(id);
            put_sequence(alloc, arena, schema, *elem, Top { node, depth }, *n, parts)
        }
        Ty::List(elem, _) => {
            let (content, count) = mixed_parts(arena, node);
            let inner = Top {
                node: content,
                depth: schema.depth(id),
            };
            put_sequence(alloc, arena, schema, *elem, inner, count, parts)
        }
        _ => put_other(alloc, arena, schema, id, node, parts),
    }
}

// Puts the same of count elements in a full tree: of bytes, the commonest, without a call.
// Seven parameters, since the list or vector is known by the type of its elements alone.
#[cycle(value)]
#[inline(always)]
fn put_sequence<H: PairHash>(
    alloc: Global,
    arena: &Arena<H>,
    schema: &Schema,
    elem: TypeId,
    top: Top,
    count: u64,
    parts: &mut Vec<Value>,
) -> Result<(), AllocError>
    requires known { elem < length schema.now.trees }
    requires depth { top.depth < 64 }
    requires node { IsNodeOf arena.now top.node }
    requires room { vec_len parts.old < vec_capacity parts.old }
    ensures put { let t = type_of schema.now elem in
        ForElements t top.depth count (tree_of arena.now top.node) (λ vs. OnOk result
        (StandsBehind (vector t count) (sequence (values vs)) parts.old.items parts.new.items)) }
    ensures len { OnOk result (vec_len parts.new ≡ vec_len parts.old + 1) }
    ensures capacity { OnOk result (vec_capacity parts.new ≡ vec_capacity parts.old) }
{
    if is_byte(schema, elem) {
        return put_bytes(alloc, arena, top, count, parts);
    }
    put_rest(alloc, arena, schema, elem, top, count, parts)
}

// The same of elements that are no bytes. Seven parameters, as there.
#[cycle(value)]
#[inline(never)]
fn put_rest<H: PairHash>(
    alloc: Global,
    arena: &Arena<H>,
    schema: &Schema,
    elem: TypeId,
    top: Top,
    count: u64,
    parts: &mut Vec<Value>,
) -> Result<(), AllocError>
    requires known { elem < length schema.now.trees }
    requires depth { top.depth < 64 }
    requires node { IsNodeOf arena.now top.node }
    requires room { vec_len parts.old < vec_capacity parts.old }
    ensures put { let t = type_of schema.now elem in
        ForElements t top.depth count (tree_of arena.now top.node) (λ vs. OnOk result
        (StandsBehind (vector t count) (sequence (values vs)) parts.old.items parts.new.items)) }
    ensures len { OnOk result (vec_len parts.new ≡ vec_len parts.old + 1) }
    ensures capacity { OnOk result (vec_capacity parts.new ≡ vec_capacity parts.old) }
{
    let value = read_sequence(alloc, arena, schema, elem, top, count)?;
    parts.push_reserved(value);
    Ok(())
}

// The same of the other forms.
#[cycle(value)]
#[inline(never)]
fn put_other<H: PairHash>(
    alloc: Global,
    arena: &Arena<H>,
    schema: &Schema,
    id: TypeId,
    node: NodeId,
    parts: &mut Vec<Value>,
) -> Result<(), AllocError>
    requires known { id < length schema.now.trees }
    requires node { IsNodeOf arena.now node }
    requires room { vec_len parts.old < vec_capacity parts.old }
    ensures put { let t = type_of schema.now id in ForValue t (tree_of arena.now node)
        (λ v. OnOk result (StandsBehind t v parts.old.items parts.new.items)) }
    ensures len { OnOk result (vec_len parts.new ≡ vec_len parts.old + 1) }
    ensures capacity { OnOk result (vec_capacity parts.new ≡ vec_capacity parts.old) }
{
    let value = read_value(alloc, arena, schema, id, node)?;
    parts.push_reserved(value);
    Ok(())
}

// Of a list of these elements, whose type stands before id.
#[cycle(value)]
#[inline(always)]
fn read_list<H: PairHash>(
    alloc: Global,
    arena: &Arena<H>,
    schema: &Schema,
    id: TypeId,
    elem: TypeId,
    node: NodeId,
) -> Result<Value, AllocError>
    requires known { id < length schema.now.trees }
    requires before { elem < id }
    requires legal { IsLegal schema.now.format (type_of schema.now id) }
    requires node { IsNodeOf arena.now node }
    ensures { let t = type_of schema.now id in
        (limit : ℕ) → t ≡ list (type_of schema.now elem) limit
        → ForValue t (tree_of arena.now node) (λ v. IfOk result (Stands t v)) }
{
    let (content, count) = mixed_parts(arena, node);
    let inner = Top {
        node: content,
        depth: schema.depth(id),
    };
    read_sequence(alloc, arena, schema, elem, inner, count)
}

// Of count elements in a full tree.
#[cycle(value)]
#[inline(never)]
fn read_sequence<H: PairHash>(
    alloc: Global,
    arena: &Arena<H>,
    schema: &Schema,
    elem: TypeId,
    top: Top,
    count: u64,
) -> Result<Value, AllocError>
    requires known { elem < length schema.now.trees }
    requires depth { top.depth < 64 }
    requires node { IsNodeOf arena.now top.node }
    ensures { let t = type_of schema.now elem in
        ForElements t top.depth count (tree_of arena.now top.node)
        (λ vs. IfOk result (Stands (vector t count) (sequence (values vs)))) }
{
    if is_byte(schema, elem) {
        let bytes = read_bytes(alloc, arena, top, count)?;
        return Ok(Value::Bytes(bytes));
    }
    match Basic::of(schema, elem) {
        Some(basic) => {
            let parts = read_packed(alloc, arena, basic, top, count)?;
            Ok(Value::Seq(parts))
        }
        None => {
            let parts = read_composite(alloc, arena, schema, elem, top, count)?;
            Ok(Value::Seq(parts))
        }
    }
}

// Of count elements of a composite type.
#[cycle(value)]
#[inline(always)]
fn read_composite<H: PairHash>(
    alloc: Global,
    arena: &Arena<H>,
    schema: &Schema,
    elem: TypeId,
    top: Top,
    count: u64,
) -> Result<Vec<Value>, AllocError>
    requires known { elem < length schema.now.trees }
    requires composite { basic_size (type_of schema.now elem) ≡ None }
    requires depth { top.depth < 64 }
    requires node { IsNodeOf arena.now top.node }
    ensures { let t = type_of schema.now elem in
        ForElements t top.depth count (tree_of arena.now top.node)
        (λ vs. IfOk result (λ parts. StandAlike t vs parts.items)) }
{
    if schema.depth(elem) > NEAR_DEPTH {
        return read_elements(alloc, arena, schema, elem, top, count);
    }
    if let Ty::Container(fields) = schema.ty(elem) {
        let fields = fields.as_slice();
        return read_containers(alloc, arena, schema, elem, fields, top, count);
    }
    read_elements(alloc, arena, schema, elem, top, count)
}

// Of count containers of these few fields, which are looked up once for all. Seven parameters,
// since the fields are asked for with the type.
#[cycle(value)]
#[inline(never)]
fn read_containers<H: PairHash>(
    alloc: Global,
    arena: &Arena<H>,
    schema: &Schema,
    id: TypeId,
    fields: &[(Name, TypeId)],
    top: Top,
    count: u64,
) -> Result<Vec<Value>, AllocError>
    requires known { id < length schema.now.trees }
    requires form { type_of schema.now id ≡ container (fields_over schema.now.trees fields.now) }
    requires before { AllByRecursion (λ part. part.1 < id) fields.now }
    requires few { depth (type_of schema.now id) ≤ 3 }
    requires composite { basic_size (type_of schema.now id) ≡ None }
    requires depth { top.depth < 64 }
    requires node { IsNodeOf arena.now top.node }
    ensures { let t = type_of schema.now id in
        ForElements t top.depth count (tree_of arena.now top.node)
        (λ vs. IfOk result (λ parts. StandAlike t vs parts.items)) }
{
    let mut parts = Vec::with_capacity(alloc, count as usize)?;
    let mut rows = FieldRows::new(top, schema.depth(id));
    for _i in 0..count {
        rows.refill(arena);
        put_container(alloc, arena, schema, id, fields, rows.row(), &mut parts)?;
        rows.pass();
    }
    Ok(parts)
}

// Puts a container of these fields, whose nodes stand in a row, behind the others, for which there
// is room. Seven parameters, since the fields are asked for with the type.
#[cycle(value)]
#[inline(always)]
fn put_container<H: PairHash>(
    alloc: Global,
    arena: &Arena<H>,
    schema: &Schema,
    id: TypeId,
    fields: &[(Name, TypeId)],
    row: &[NodeId],
    parts: &mut Vec<Value>,
) -> Result<(), AllocError>
    requires known { id < length schema.now.trees }
    requires form { type_of schema.now id ≡ container (fields_over schema.now.trees fields.now) }
    requires before { AllByRecursion (λ part. part.1 < id) fields.now }
    requires long { length row.now ≡ 2 ^ depth (type_of schema.now id) }
    requires nodes { All (IsNodeOf arena.now) row.now }
    requires room { vec_len parts.old < vec_capacity parts.old }
    ensures put { let t = type_of schema.now id in
        (node : Tree) → IsRowOf arena.now (depth t) node row.now → ForValue t node
        (λ v. OnOk result (StandsBehind t v parts.old.items parts.new.items)) }
    ensures len { OnOk result (vec_len parts.new ≡ vec_len parts.old + 1) }
    ensures capacity { OnOk result (vec_capacity parts.new ≡ vec_capacity parts.old) }
{
    let mut inner = Vec::with_capacity(alloc, fields.len())?;
    for (i, field) in fields.iter().enumerate() {
        put_field(alloc, arena, schema, field.1, row[i], &mut inner)?;
    }
    parts.push_reserved(Value::Seq(inner));
    Ok(())
}

// Of count elements that are neither basic nor containers of few fields.
#[cycle(value)]
fn read_elements<H: PairHash>(
    alloc: Global,
    arena: &Arena<H>,
    schema: &Schema,
    elem: TypeId,
    top: Top,
    count: u64,
) -> Result<Vec<Value>, AllocError>
    requires known { elem < length schema.now.trees }
    requires composite { basic_size (type_of schema.now elem) ≡ None }
    requires depth { top.depth < 64 }
    requires node { IsNodeOf arena.now top.node }
    ensures { let t = type_of schema.now elem in
        ForElements t top.depth count (tree_of arena.now top.node)
        (λ vs. IfOk result (λ parts. StandAlike t vs parts.items)) }
{
    let mut parts = Vec::with_capacity(alloc, count as usize)?;
    let mut places = Places::new(top);
    for _i in 0..count {
        let part = places.next(arena);
        put_field(alloc, arena, schema, elem, part, &mut parts)?;
    }
    Ok(parts)
}

// The parts of a container of these fields, whose types stand before id, in a full tree.
#[cycle(value)]
#[inline(always)]
fn read_fields<H: PairHash>(
    alloc: Global,
    arena: &Arena<H>,
    schema: &Schema,
    id: TypeId,
    fields: &[(Name, TypeId)],
    top: Top,
) -> Result<Vec<Value>, AllocError>
    requires known { id < length schema.now.trees }
    requires before { AllByRecursion (λ part. part.1 < id) fields.now }
    requires depth { top.depth < 64 }
    requires node { IsNodeOf arena.now top.node }
    ensures { let fs = fields_over schema.now.trees fields.now in
        ForFields fs top.depth (tree_of arena.now top.node) (λ vs. IfOk result
        (λ parts. Stands (container fs) (sequence (values vs)) (Seq parts))) }
{
    let mut parts = Vec::with_capacity(alloc, fields.len())?;
    let row = Row::of(arena, top);
    for (i, field) in fields.iter().enumerate() {
        let part = row.place(arena, top, i);
        put_field(alloc, arena, schema, field.1, part, &mut parts)?;
    }
    Ok(parts)
}

// Of a union of these options, whose types stand before id.
#[cycle(value)]
fn read_chosen<H: PairHash>(
    alloc: Global,
    arena: &Arena<H>,
    schema: &Schema,
    id: TypeId,
    options: &[Option<TypeId>],
    node: NodeId,
) -> Result<Value, AllocError>
    requires known { id < length schema.now.trees }
    requires before { AllByRecursion (IsBelow id) options.now }
    requires few { length options.now ≤ 128 }
    requires node { IsNodeOf arena.now node }
    ensures { let t = union (options_over schema.now.trees options.now) in
        ForValue t (tree_of arena.now node) (λ v. IfOk result (Stands t v)) }
{
    let (content, number) = mixed_parts(arena, node);
    let selector = (number % 256) as u8;
    match option_at(options, selector) {
        Some(Some(option)) => {
            let inner = read_value(alloc, arena, schema, option, content)?;
            Ok(Value::Union {
                selector,
                inner: Some(Box::new(alloc, inner)?),
            })
        }
        Some(None) => Ok(Value::Union {
            selector,
            inner: None,
        }),
        None => Ok(Value::Union {
            selector,
            inner: None,
        }),
    }
}
