ghost use Rattle.std.specs.Prelude.{◌≡◌, ◌<◌, ◌≤◌, ◌^◌, length, map, decimal, Option};
ghost use Rattle.std.specs.List.{AllByRecursion};
ghost use Rattle.serde_json.specs.Data.{array};
ghost use Rattle.serde_json.specs.View.{items_of};
ghost use Rattle.serde_json.specs.Written.{compact_text};
ghost use Rattle.ssz_schema.specs.width.Width.{Width};
ghost use Rattle.ssz_schema.specs.Types.{uint, boolean, container, union};
ghost use Rattle.ssz_schema.specs.Legal.{IsLegal};
ghost use Rattle.ssz_schema.specs.Unfolding.{type_of, fields_over, options_over, IsBelow};
ghost use Rattle.ssz_value.specs.Standing.{value_of, is_byte, IsValue};
ghost use Rattle.ssz_value.specs.Shapes.{AreFields, IsSequence, parts_of};
ghost use Rattle.ssz_json_text.specs.Text.{json, json_of, sequence_json, members_json, bits_json};
ghost use Rattle.ssz_value.specs.Written.{capped};
ghost use Rattle.serde_json.specs.Data.{object};

use itoa::Buffer;
use ssz_schema::{Name, Schema, Ty, TypeId};
use ssz_value::{Value, option_at, wide_bytes};

/// The length in bytes of the value's text, or the greatest u64 where that is greater. It takes no
/// memory.
#[cycle(length)]
pub fn text_len(schema: &Schema, id: TypeId, value: &Value) -> u64
    requires known { id < length schema.now.trees }
    requires value { IsValue (type_of schema.now id) value.now }
    ensures { result ≡ capped (length (json (type_of schema.now id) (value_of value.now))) }
{
    match schema.ty(id) {
        Ty::Uint(_) => number_len(value),
        Ty::Boolean => flag_len(value),
        Ty::Bitvector(_) => bits_len(value),
        Ty::Bitlist(_) => bits_len(value),
        Ty::Vector(elem, _) => sequence_len(schema, *elem, value),
        Ty::List(elem, _) => sequence_len(schema, *elem, value),
        Ty::Union(options) => chosen_len(schema, id, options.as_slice(), value),
        Ty::Container(fields) => container_len(schema, id, fields.as_slice(), value),
    }
}

fn number_len(value: &Value) -> u64
    ensures { (w : Width) → result ≡ capped (length (json (uint w) (value_of value.now))) }
{
    match value {
        Value::Uint(number) => decimal_len(*number) + 2,
        Value::Wide(chunk) => {
            let _bytes = wide_bytes(chunk);
            68
        }
        _ => 4,
    }
}

// The digits of a number.
fn decimal_len(number: u128) -> u64
    ensures count { result ≡ length (decimal number) }
    ensures few { result ≤ 40 }
    ensures fits { number < 2 ^ 128 }
{
    let mut buffer = Buffer::new();
    buffer.format(number).len() as u64
}

fn flag_len(value: &Value) -> u64
    ensures { result ≡ capped (length (json boolean (value_of value.now))) }
{
    match value {
        Value::Bool(true) => 4,
        Value::Bool(false) => 5,
        _ => 4,
    }
}

fn bits_len(value: &Value) -> u64
    ensures { result ≡ capped (length (compact_text (bits_json (value_of value.now)))) }
{
    match value {
        Value::Bits(run) => (run.len() as u64).saturating_add(2),
        _ => 4,
    }
}

// Of elements of this type.
#[cycle(length)]
fn sequence_len(schema: &Schema, elem: TypeId, value: &Value) -> u64
    requires known { elem < length schema.now.trees }
    requires value { IsSequence (type_of schema.now elem) value.now }
    ensures { let t = type_of schema.now elem in
        result ≡ capped (length (compact_text
        (sequence_json (is_byte t) (json_of t) (parts_of (value_of value.now))))) }
{
    match value {
        Value::Seq(parts) => elements_len(schema, elem, parts.as_slice()),
        Value::Bytes(run) => (run.as_slice().len() as u64)
            .saturating_mul(2)
            .saturating_add(4),
        _ => 4,
    }
}

// Each element has a bracket or a comma before it, and the last one a bracket behind it.
#[cycle(length)]
fn elements_len(schema: &Schema, elem: TypeId, parts: &[Value]) -> u64
    requires known { elem < length schema.now.trees }
    requires parts { AllByRecursion (IsValue (type_of schema.now elem)) parts.now }
    ensures { let t = type_of schema.now elem in
        result ≡ capped (length (compact_text
        (array (items_of (map (json_of t) (map value_of parts.now)))))) }
{
    if parts.is_empty() {
        return 2;
    }
    let mut total = 1u64;
    for part in parts {
        total = total.saturating_add(text_len(schema, elem, part).saturating_add(1));
    }
    total
}

// Of a union of these options, whose types stand before id.
#[cycle(length)]
fn chosen_len(schema: &Schema, id: TypeId, options: &[Option<TypeId>], value: &Value) -> u64
    requires known { id < length schema.now.trees }
    requires before { AllByRecursion (IsBelow id) options.now }
    requires value { IsValue (union (options_over schema.now.trees options.now)) value.now }
    ensures { let t = union (options_over schema.now.trees options.now) in
        result ≡ capped (length (json t (value_of value.now))) }
{
    match value {
        Value::Union { selector, inner } => {
            let head = decimal_len(u128::from(*selector)) + 3;
            match inner {
                Some(inner) => match option_at(options, *selector) {
                    Some(Some(option)) => text_len(schema, option, inner).saturating_add(head),
                    Some(None) => head,
                    None => head,
                },
                None => head + 4,
            }
        }
        _ => 4,
    }
}

// Of a container of these fields, whose types stand before id.
#[cycle(length)]
fn container_len(schema: &Schema, id: TypeId, fields: &[(Name, TypeId)], value: &Value) -> u64
    requires known { id < length schema.now.trees }
    requires before { AllByRecursion (λ part. part.1 < id) fields.now }
    requires legal { let fs = fields_over schema.now.trees fields.now in
        IsLegal schema.now.format (container fs) }
    requires value { IsValue (container (fields_over schema.now.trees fields.now)) value.now }
    ensures { let t = container (fields_over schema.now.trees fields.now) in
        result ≡ capped (length (json t (value_of value.now))) }
{
    match value {
        Value::Seq(parts) => fields_len(schema, id, fields, parts.as_slice()),
        Value::Bytes(_) => unreachable!(),
        _ => 4,
    }
}

// Each member has a brace or a comma before it, its name in quotes and a colon.
#[cycle(length)]
fn fields_len(schema: &Schema, id: TypeId, fields: &[(Name, TypeId)], parts: &[Value]) -> u64
    requires known { id < length schema.now.trees }
    requires before { AllByRecursion (λ part. part.1 < id) fields.now }
    requires legal { let fs = fields_over schema.now.trees fields.now in
        IsLegal schema.now.format (container fs) }
    requires parts { AreFields (fields_over schema.now.trees fields.now) parts.now }
    ensures { let fs = fields_over schema.now.trees fields.now in
        result ≡ capped (length (compact_text
        (object (members_json fs (map value_of parts.now))))) }
{
    let mut total = 1u64;
    for (i, field) in fields.iter().enumerate() {
        let name = field.0.as_bytes().len() as u64;
        let text = text_len(schema, field.1, &parts[i]);
        total = total.saturating_add(text.saturating_add(name.saturating_add(4)));
    }
    total
}
