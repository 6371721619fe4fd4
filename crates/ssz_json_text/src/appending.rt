//! The text of a value, appended piece by piece behind other bytes.
ghost use Rattle.std.specs.Prelude.{◌≡◌, ◌<◌, ◌++◌, length, map, Option, OnOk};
ghost use Rattle.std.specs.List.{AllByRecursion};
ghost use Rattle.serde_json.specs.Data.{array, object};
ghost use Rattle.serde_json.specs.View.{items_of};
ghost use Rattle.serde_json.specs.Written.{compact_text};
ghost use Rattle.ssz_schema.specs.Types.{container, union};
ghost use Rattle.ssz_schema.specs.Legal.{IsLegal};
ghost use Rattle.ssz_schema.specs.Unfolding.{type_of, fields_over, options_over, IsBelow};
ghost use Rattle.ssz_value.specs.Standing.{value_of, is_byte, IsValue};
ghost use Rattle.ssz_value.specs.Shapes.{AreFields, IsSequence, parts_of};
ghost use Rattle.ssz_json_text.specs.Text.{json, json_of, sequence_json, members_json};
ghost use Rattle.ssz_json_text.specs.Keeping.{Keeps};
ghost use Rattle.ssz_json_text.specs.Order.{IsOrder};

use super::order::{Row, member_at, row_of};
use super::putting::{
    put, put_bits, put_comma, put_decimal, put_flag, put_hex, put_key, put_number,
};
use ssz_schema::{Name, Schema, Ty, TypeId};
use ssz_value::{Value, option_at};
use std::alloc::AllocError;

/// Appends the text of the value.
#[cycle(append)]
pub fn append_value(
    schema: &Schema,
    id: TypeId,
    value: &Value,
    out: &mut Vec<u8>,
) -> Result<(), AllocError>
    requires known { id < length schema.now.trees }
    requires value { IsValue (type_of schema.now id) value.now }
    ensures text { OnOk result
        (out.new.items ≡ out.old.items ++ json (type_of schema.now id) (value_of value.now)) }
    ensures front { Keeps out.old.items out.new.items }
{
    match schema.ty(id) {
        Ty::Uint(_) => put_number(value, out),
        Ty::Boolean => put_flag(value, out),
        Ty::Bitvector(_) => put_bits(value, out),
        Ty::Bitlist(_) => put_bits(value, out),
        Ty::Vector(elem, _) => append_sequence(schema, *elem, value, out),
        Ty::List(elem, _) => append_sequence(schema, *elem, value, out),
        Ty::Union(options) => append_chosen(schema, id, options.as_slice(), value, out),
        Ty::Container(fields) => append_container(schema, id, fields.as_slice(), value, out),
    }
}

// Of elements of this type.
#[cycle(append)]
fn append_sequence(
    schema: &Schema,
    elem: TypeId,
    value: &Value,
    out: &mut Vec<u8>,
) -> Result<(), AllocError>
    requires known { elem < length schema.now.trees }
    requires value { IsSequence (type_of schema.now elem) value.now }
    ensures text { let t = type_of schema.now elem in OnOk result
        (out.new.items ≡ out.old.items ++ compact_text
        (sequence_json (is_byte t) (json_of t) (parts_of (value_of value.now)))) }
    ensures front { Keeps out.old.items out.new.items }
{
    match value {
        Value::Seq(parts) => append_elements(schema, elem, parts.as_slice(), out),
        Value::Bytes(run) => put_hex(run.as_slice(), out),
        _ => unreachable!(),
    }
}

#[cycle(append)]
#[tactic(auto, using(crate::proofs::Keeping::keeps_trans))]
fn append_elements(
    schema: &Schema,
    elem: TypeId,
    parts: &[Value],
    out: &mut Vec<u8>,
) -> Result<(), AllocError>
    requires known { elem < length schema.now.trees }
    requires parts { AllByRecursion (IsValue (type_of schema.now elem)) parts.now }
    ensures text { let t = type_of schema.now elem in OnOk result
        (out.new.items ≡ out.old.items ++ compact_text
        (array (items_of (map (json_of t) (map value_of parts.now))))) }
    ensures front { Keeps out.old.items out.new.items }
{
    put(b"[", out)?;
    for (i, part) in parts.iter().enumerate() {
        put_comma(i > 0, out)?;
        append_value(schema, elem, part, out)?;
    }
    put(b"]", out)
}

// Of a union of these options, whose types stand before id.
#[cycle(append)]
#[tactic(auto, using(crate::proofs::Keeping::keeps_trans))]
fn append_chosen(
    schema: &Schema,
    id: TypeId,
    options: &[Option<TypeId>],
    value: &Value,
    out: &mut Vec<u8>,
) -> Result<(), AllocError>
    requires known { id < length schema.now.trees }
    requires before { AllByRecursion (IsBelow id) options.now }
    requires value { IsValue (union (options_over schema.now.trees options.now)) value.now }
    ensures text { let t = union (options_over schema.now.trees options.now) in OnOk result
        (out.new.items ≡ out.old.items ++ json t (value_of value.now)) }
    ensures front { Keeps out.old.items out.new.items }
{
    match value {
        Value::Union { selector, inner } => {
            put(b"[", out)?;
            put_decimal(u128::from(*selector), out)?;
            match inner {
                Some(inner) => match option_at(options, *selector) {
                    Some(Some(option)) => {
                        put(b",", out)?;
                        append_value(schema, option, inner, out)?;
                        put(b"]", out)
                    }
                    Some(None) => unreachable!(),
                    None => unreachable!(),
                },
                None => put(b",null]", out),
            }
        }
        _ => put(b"null", out),
    }
}

// Of a container of these fields, whose types stand before id.
#[cycle(append)]
fn append_container(
    schema: &Schema,
    id: TypeId,
    fields: &[(Name, TypeId)],
    value: &Value,
    out: &mut Vec<u8>,
) -> Result<(), AllocError>
    requires known { id < length schema.now.trees }
    requires before { AllByRecursion (λ part. part.1 < id) fields.now }
    requires form { type_of schema.now id ≡ container (fields_over schema.now.trees fields.now) }
    requires legal { let fs = fields_over schema.now.trees fields.now in
        IsLegal schema.now.format (container fs) }
    requires value { IsValue (container (fields_over schema.now.trees fields.now)) value.now }
    ensures text { let t = container (fields_over schema.now.trees fields.now) in OnOk result
        (out.new.items ≡ out.old.items ++ json t (value_of value.now)) }
    ensures front { Keeps out.old.items out.new.items }
{
    let row = row_of(schema, id, fields);
    append_row(schema, id, &row, value, out)
}

#[cycle(append)]
fn append_row(
    schema: &Schema,
    id: TypeId,
    row: &Row<'_>,
    value: &Value,
    out: &mut Vec<u8>,
) -> Result<(), AllocError>
    requires known { id < length schema.now.trees }
    requires before { AllByRecursion (λ part. part.1 < id) row.now.fields.now }
    requires ordered { IsOrder row.now.fields.now row.now.order.now }
    requires legal { let fs = fields_over schema.now.trees row.now.fields.now in
        IsLegal schema.now.format (container fs) }
    requires value { let t = container (fields_over schema.now.trees row.now.fields.now) in
        IsValue t value.now }
    ensures text { let t = container (fields_over schema.now.trees row.now.fields.now) in
        OnOk result (out.new.items ≡ out.old.items ++ json t (value_of value.now)) }
    ensures front { Keeps out.old.items out.new.items }
{
    match value {
        Value::Seq(parts) => append_fields(schema, id, row, parts.as_slice(), out),
        Value::Bytes(_) => unreachable!(),
        _ => put(b"null", out),
    }
}

// Members in byte order of their names.
#[cycle(append)]
#[tactic(auto, using(crate::proofs::Keeping::keeps_trans))]
fn append_fields(
    schema: &Schema,
    id: TypeId,
    row: &Row<'_>,
    parts: &[Value],
    out: &mut Vec<u8>,
) -> Result<(), AllocError>
    requires known { id < length schema.now.trees }
    requires before { AllByRecursion (λ part. part.1 < id) row.now.fields.now }
    requires ordered { IsOrder row.now.fields.now row.now.order.now }
    requires legal { let fs = fields_over schema.now.trees row.now.fields.now in
        IsLegal schema.now.format (container fs) }
    requires parts { AreFields (fields_over schema.now.trees row.now.fields.now) parts.now }
    ensures text { let fs = fields_over schema.now.trees row.now.fields.now in OnOk result
        (out.new.items ≡ out.old.items ++ compact_text
        (object (members_json fs (map value_of parts.now)))) }
    ensures front { Keeps out.old.items out.new.items }
{
    put(b"{", out)?;
    for i in 0..row.order.len() {
        let (name, number) = member_at(row, i);
        put_comma(i > 0, out)?;
        put_key(name, out)?;
        append_value(schema, row.fields[number].1, &parts[number], out)?;
    }
    put(b"}", out)
}
