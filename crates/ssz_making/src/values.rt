ghost use Rattle.std.specs.Prelude.{◌<◌, ◌≤◌, ◌^◌, length, map};
ghost use Rattle.std.specs.List.{AllByRecursion};
ghost use Rattle.ssz_chunk.specs.declared.TheConstants.{LEVELS};
ghost use Rattle.ssz_schema.specs.Types.{container, union};
ghost use Rattle.ssz_schema.specs.Sizes.{basic_size, element_chunks};
ghost use Rattle.ssz_schema.specs.Unfolding.{type_of, fields_over, options_over, IsBelow};
ghost use Rattle.ssz_value.specs.Standing.{value_of, IsValue};
ghost use Rattle.ssz_value.specs.Shapes.{IsSequence, AreFields, parts_of, part_count_of};
ghost use Rattle.ssz_making.specs.Parts.{whole_of, elements_part, field_parts, part_of_value};
ghost use Rattle.ssz_making.specs.Nodes.{new_nodes};

use super::maker::Maker;
use super::repeats::repeats;
use ssz_packing::{basic_chunk, number_chunk};
use ssz_schema::{Name, Schema, Ty, TypeId};
use ssz_value::{Value, bits_of, option_at, part_count};

/// A value of the type, made where there is room for its nodes.
#[cycle(value)]
pub fn value_part<M: Maker>(maker: &mut M, schema: &Schema, id: TypeId, value: &Value) -> M::Out
    requires known { id < length schema.now.trees }
    requires value { IsValue (type_of schema.now id) value.now }
    requires room { M.room maker.old (new_nodes (type_of schema.now id) (value_of value.now)) }
    ensures { M.made maker.old maker.new
        (part_of_value (type_of schema.now id) (value_of value.now))
        result }
{
    match schema.ty(id) {
        Ty::Uint(_) => maker.leaf(&basic_chunk(value)),
        Ty::Boolean => maker.leaf(&basic_chunk(value)),
        Ty::Bitvector(_) => maker.bit_values(schema.depth(id), bits_of(value)),
        Ty::Bitlist(_) => {
            let bits = bits_of(value);
            let content = maker.bit_values(schema.depth(id), bits);
            let len = number_chunk(bits.len() as u128);
            maker.join(content, &len)
        }
        Ty::Vector(elem, _) => sequence_made(maker, schema, *elem, schema.depth(id), value),
        Ty::List(elem, _) => {
            let content = sequence_made(maker, schema, *elem, schema.depth(id), value);
            let len = number_chunk(part_count(value) as u128);
            maker.join(content, &len)
        }
        Ty::Container(fields) => {
            container_made(
                maker,
                schema,
                id,
                schema.depth(id),
                fields.as_slice(),
                value,
            )
        }
        Ty::Union(options) => chosen_made(maker, schema, id, options.as_slice(), value),
    }
}

// Of a sequence of elements of this type, in a full tree of this depth.
#[cycle(value)]
fn sequence_made<M: Maker>(
    maker: &mut M,
    schema: &Schema,
    elem: TypeId,
    depth: u32,
    value: &Value,
) -> M::Out
    requires known { elem < length schema.now.trees }
    requires value { IsSequence (type_of schema.now elem) value.now }
    requires depth { depth ≤ LEVELS }
    requires few { element_chunks (basic_size (type_of schema.now elem))
        (part_count_of (value_of value.now)) ≤ 2 ^ depth }
    requires room { let t = type_of schema.now elem in
        M.room maker.old (elements_part t depth (parts_of (value_of value.now))).nodes }
    ensures { M.made maker.old maker.new (elements_part (type_of schema.now elem) depth
        (parts_of (value_of value.now))) result }
{
    match value {
        Value::Bytes(run) => maker.packed(depth, run.as_slice()),
        Value::Seq(parts) => match schema.basic_size(elem) {
            Some(size) => maker.packed_values(size as usize, depth, parts.as_slice()),
            None => values_made(maker, schema, elem, depth, parts.as_slice()),
        },
        _ => maker.none(),
    }
}

// Of values of a composite type, in a full tree of this depth.
#[cycle(value)]
fn values_made<M: Maker>(
    maker: &mut M,
    schema: &Schema,
    elem: TypeId,
    depth: u32,
    parts: &[Value],
) -> M::Out
    requires known { elem < length schema.now.trees }
    requires depth { depth ≤ LEVELS }
    requires few { length parts.now ≤ 2 ^ depth }
    requires values { AllByRecursion (IsValue (type_of schema.now elem)) parts.now }
    requires room { let t = type_of schema.now elem in
        M.room maker.old (whole_of depth (map (part_of_value t) (map value_of parts.now))).nodes }
    ensures { let t = type_of schema.now elem in
        M.made maker.old maker.new (whole_of depth (map (part_of_value t) (map value_of parts.now)))
        result }
{
    let size = schema.fixed_size(elem);
    let mut rows = maker.start(depth, parts.len() as u64);
    let mut i = 0usize;
    'elements: while i < parts.len() {
        let out = value_part(maker, schema, elem, &parts[i]);
        maker.push(&mut rows, &out);
        i += 1;
        let more = (parts.len() - i) as u64;
        i += repeats(maker, size, &mut rows, &out, more) as usize;
    }
    maker.finish(rows)
}

// Of a container of these fields, whose types stand before id.
#[cycle(value)]
fn container_made<M: Maker>(
    maker: &mut M,
    schema: &Schema,
    id: TypeId,
    depth: u32,
    fields: &[(Name, TypeId)],
    value: &Value,
) -> M::Out
    requires known { id < length schema.now.trees }
    requires before { AllByRecursion (λ part. part.1 < id) fields.now }
    requires value { IsValue (container (fields_over schema.now.trees fields.now)) value.now }
    requires depth { depth ≤ LEVELS }
    requires few { length fields.now ≤ 2 ^ depth }
    requires room { let fs = fields_over schema.now.trees fields.now in
        M.room maker.old (whole_of depth (field_parts fs (parts_of (value_of value.now)))).nodes }
    ensures { let fs = fields_over schema.now.trees fields.now in
        M.made maker.old maker.new (whole_of depth (field_parts fs (parts_of (value_of value.now))))
        result }
{
    match value {
        Value::Seq(parts) => field_values_made(maker, schema, id, depth, fields, parts.as_slice()),
        _ => maker.none(),
    }
}

// Of the values of these fields, whose types stand before id.
#[cycle(value)]
fn field_values_made<M: Maker>(
    maker: &mut M,
    schema: &Schema,
    id: TypeId,
    depth: u32,
    fields: &[(Name, TypeId)],
    parts: &[Value],
) -> M::Out
    requires known { id < length schema.now.trees }
    requires before { AllByRecursion (λ part. part.1 < id) fields.now }
    requires values { AreFields (fields_over schema.now.trees fields.now) parts.now }
    requires depth { depth ≤ LEVELS }
    requires few { length fields.now ≤ 2 ^ depth }
    requires room { let fs = fields_over schema.now.trees fields.now in
        M.room maker.old (whole_of depth (field_parts fs (map value_of parts.now))).nodes }
    ensures { let fs = fields_over schema.now.trees fields.now in
        M.made maker.old maker.new (whole_of depth (field_parts fs (map value_of parts.now)))
        result }
{
    let mut rows = maker.start(depth, fields.len() as u64);
    for (i, field) in fields.iter().enumerate() {
        let out = value_part(maker, schema, field.1, &parts[i]);
        maker.push(&mut rows, &out);
    }
    maker.finish(rows)
}

// Of a union of these options, whose types stand before id.
#[cycle(value)]
fn chosen_made<M: Maker>(
    maker: &mut M,
    schema: &Schema,
    id: TypeId,
    options: &[Option<TypeId>],
    value: &Value,
) -> M::Out
    requires known { id < length schema.now.trees }
    requires before { AllByRecursion (IsBelow id) options.now }
    requires value { IsValue (union (options_over schema.now.trees options.now)) value.now }
    requires room { let t = union (options_over schema.now.trees options.now) in
        M.room maker.old (new_nodes t (value_of value.now)) }
    ensures { let t = union (options_over schema.now.trees options.now) in
        M.made maker.old maker.new (part_of_value t (value_of value.now)) result }
{
    match value {
        Value::Union { selector, inner } => match inner {
            Some(inner) => match option_at(options, *selector) {
                Some(Some(option)) => {
                    let out = value_part(maker, schema, option, inner);
                    let leaf = number_chunk(u128::from(*selector));
                    maker.join(out, &leaf)
                }
                Some(None) => maker.none(),
                None => maker.none(),
            },
            None => {
                let none = maker.none();
                let leaf = number_chunk(u128::from(*selector));
                maker.join(none, &leaf)
            }
        },
        _ => maker.none(),
    }
}
