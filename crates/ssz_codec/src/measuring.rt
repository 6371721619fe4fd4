ghost use Rattle.std.specs.Prelude.{◌≡◌, ◌<◌, length, map, sum_by, Option};
ghost use Rattle.std.specs.List.{AllByRecursion};
ghost use Rattle.ssz_schema.specs.Types.{container, union};
ghost use Rattle.ssz_schema.specs.Sizes.{fixed_size, part_length};
ghost use Rattle.ssz_schema.specs.Unfolding.{type_of, fields_over, options_over, IsBelow};
ghost use Rattle.ssz_value.specs.Encoding.{serialize};
ghost use Rattle.ssz_value.specs.Sizes.{size, fields_size};
ghost use Rattle.ssz_value.specs.Standing.{value_of, IsValue};
ghost use Rattle.ssz_value.specs.Shapes.{AreFields, IsSequence, parts_of};
ghost use Rattle.ssz_value.specs.Written.{capped};

use ssz_schema::{Name, Schema, Ty, TypeId};
use ssz_value::{Value, bits_of, option_at};

/// The length in bytes of the value's encoding, or the greatest u64 where that is greater.
pub fn encoded_len(schema: &Schema, id: TypeId, value: &Value) -> u64
    requires known { id < length schema.now.trees }
    requires value { IsValue (type_of schema.now id) value.now }
    ensures { result ≡ capped (length (serialize (type_of schema.now id) (value_of value.now))) }
{
    value_len(schema, id, value)
}

// The same, as a sum over the parts.
#[cycle(length)]
fn value_len(schema: &Schema, id: TypeId, value: &Value) -> u64
    requires known { id < length schema.now.trees }
    requires value { IsValue (type_of schema.now id) value.now }
    ensures { result ≡ capped (size (type_of schema.now id) (value_of value.now)) }
{
    match schema.ty(id) {
        Ty::Uint(width) => width.byte_count(),
        Ty::Boolean => 1,
        Ty::Bitvector(n) => n / 8 + u64::from(n % 8 > 0),
        Ty::Bitlist(_) => bits_of(value).len() as u64 / 8 + 1,
        Ty::Vector(elem, _) => sequence_len(schema, *elem, value),
        Ty::List(elem, _) => sequence_len(schema, *elem, value),
        Ty::Union(options) => chosen_len(schema, id, options.as_slice(), value),
        Ty::Container(fields) => container_len(schema, id, fields.as_slice(), value),
    }
}

// Of elements of this type.
#[cycle(length)]
fn sequence_len(schema: &Schema, elem: TypeId, value: &Value) -> u64
    requires known { elem < length schema.now.trees }
    requires value { IsSequence (type_of schema.now elem) value.now }
    ensures { let t = type_of schema.now elem in
        result ≡ capped (sum_by (λ v. part_length (fixed_size t) (size t v))
        (parts_of (value_of value.now))) }
{
    match value {
        Value::Seq(parts) => elements_len(schema, elem, parts.as_slice()),
        Value::Bytes(run) => run.len() as u64,
        _ => 0,
    }
}

#[cycle(length)]
fn elements_len(schema: &Schema, elem: TypeId, parts: &[Value]) -> u64
    requires known { elem < length schema.now.trees }
    requires parts { AllByRecursion (IsValue (type_of schema.now elem)) parts.now }
    ensures { let t = type_of schema.now elem in
        result ≡ capped
        (sum_by (λ v. part_length (fixed_size t) (size t v)) (map value_of parts.now)) }
{
    // Every type of a schema is legal.
    let _legal = schema.ty(elem);
    if let Some(size) = schema.fixed_size(elem) {
        return (parts.len() as u64).saturating_mul(size);
    }
    let mut total = 0u64;
    for part in parts {
        total = total.saturating_add(part_len(schema, elem, part));
    }
    total
}

// What a part adds to the whole: its length, and an offset where it is variable-size.
#[cycle(length)]
fn part_len(schema: &Schema, id: TypeId, part: &Value) -> u64
    requires known { id < length schema.now.trees }
    requires value { IsValue (type_of schema.now id) part.now }
    ensures { let t = type_of schema.now id in
        result ≡ capped (part_length (fixed_size t) (size t (value_of part.now))) }
{
    // Every type of a schema is legal.
    let _legal = schema.ty(id);
    match schema.fixed_size(id) {
        Some(size) => size,
        None => value_len(schema, id, part).saturating_add(4),
    }
}

// Of a union of these options, whose types stand before id.
#[cycle(length)]
fn chosen_len(schema: &Schema, id: TypeId, options: &[Option<TypeId>], value: &Value) -> u64
    requires known { id < length schema.now.trees }
    requires before { AllByRecursion (IsBelow id) options.now }
    requires value { IsValue (union (options_over schema.now.trees options.now)) value.now }
    ensures { let t = union (options_over schema.now.trees options.now) in
        result ≡ capped (size t (value_of value.now)) }
{
    match value {
        Value::Union { selector, inner } => match inner {
            Some(inner) => match option_at(options, *selector) {
                Some(Some(option)) => value_len(schema, option, inner).saturating_add(1),
                Some(None) => 1,
                None => 1,
            },
            None => 1,
        },
        _ => 0,
    }
}

// Of a container of these fields, whose types stand before id.
#[cycle(length)]
fn container_len(schema: &Schema, id: TypeId, fields: &[(Name, TypeId)], value: &Value) -> u64
    requires known { id < length schema.now.trees }
    requires before { AllByRecursion (λ part. part.1 < id) fields.now }
    requires value { IsValue (container (fields_over schema.now.trees fields.now)) value.now }
    ensures { let t = container (fields_over schema.now.trees fields.now) in
        result ≡ capped (size t (value_of value.now)) }
{
    match value {
        Value::Seq(parts) => fields_len(schema, id, fields, parts.as_slice()),
        Value::Bytes(_) => unreachable!(),
        _ => 0,
    }
}

#[cycle(length)]
fn fields_len(schema: &Schema, id: TypeId, fields: &[(Name, TypeId)], parts: &[Value]) -> u64
    requires known { id < length schema.now.trees }
    requires before { AllByRecursion (λ part. part.1 < id) fields.now }
    requires parts { AreFields (fields_over schema.now.trees fields.now) parts.now }
    ensures { let fs = fields_over schema.now.trees fields.now in
        result ≡ capped (fields_size fs (map value_of parts.now)) }
{
    let mut total = 0u64;
    for (i, field) in fields.iter().enumerate() {
        total = total.saturating_add(part_len(schema, field.1, &parts[i]));
    }
    total
}
