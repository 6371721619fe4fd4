//! Whether bytes begin with the text of a value, compared piece by piece, so that no whole text is
//! held.
ghost use Rattle.std.specs.Prelude.{◌≡◌, ◌<◌, ◌++◌, ◌∷◌, [], length, map, IfOk, IfSome};
ghost use Rattle.std.specs.List.{AllByRecursion};
ghost use Rattle.json.specs.Print.{quoted};
ghost use Rattle.serde_json.specs.Data.{array, object};
ghost use Rattle.serde_json.specs.View.{items_of};
ghost use Rattle.serde_json.specs.Written.{comma_if, compact_text};
ghost use Rattle.ssz_schema.specs.Types.{container};
ghost use Rattle.ssz_schema.specs.Legal.{IsLegal};
ghost use Rattle.ssz_schema.specs.Names.{IsName};
ghost use Rattle.ssz_schema.specs.Unfolding.{type_of, fields_over};
ghost use Rattle.ssz_value.specs.Standing.{value_of, is_byte, IsValue};
ghost use Rattle.ssz_value.specs.Shapes.{AreFields, IsSequence, parts_of};
ghost use Rattle.ssz_json_text.specs.Order.{IsOrder};
ghost use Rattle.ssz_json_text.specs.Text.{json, json_of, sequence_json, members_json};

use super::appending::append_value;
use super::order::{Row, member_at, row_of};
use super::putting::put_hex;
use ssz_schema::{Name, Schema, Ty, TypeId};
use ssz_value::Value;
use std::alloc::{AllocError, Global};

// Why bytes do not begin with a piece of a text.
#[derive(Clone, Copy, Debug, PartialEq, Eq)]
enum Unlike {
    // They are others.
    Bytes,
    // Want of memory.
    Memory,
}

impl From<AllocError> for Unlike {
    ghost use Rattle.std.specs.Prelude.{◌≡◌};
    ghost use Rattle.ssz_json_text.specs.declared.comparing.Unlike.TheVariants.{Memory};

    ghost from_gives = { λ _ e. e ≡ Memory };

    fn from(_error: AllocError) -> Self {
        Unlike::Memory
    }
}

/// What stands behind the text of the value, where the bytes are found to begin with it.
///
/// The text is made a piece at a time, and each is compared with the bytes before the next is made.
pub fn behind_text<'b>(
    alloc: Global,
    schema: &Schema,
    id: TypeId,
    value: &Value,
    bytes: &'b [u8],
) -> Result<Option<&'b [u8]>, AllocError>
    requires known { id < length schema.now.trees }
    requires value { IsValue (type_of schema.now id) value.now }
    ensures { let text = json (type_of schema.now id) (value_of value.now) in
        IfOk result (λ found. IfSome found (λ rest. bytes.now ≡ text ++ rest.now)) }
{
    let mut room = Vec::new(alloc);
    match after_value(schema, id, value, bytes, &mut room) {
        Ok(rest) => Ok(Some(rest)),
        Err(Unlike::Bytes) => Ok(None),
        Err(Unlike::Memory) => Err(AllocError),
    }
}

// The bytes behind this piece, where they begin with it.
fn after<'b>(bytes: &'b [u8], piece: &[u8]) -> Result<&'b [u8], Unlike>
    ensures { IfOk result (λ rest. bytes.now ≡ piece.now ++ rest.now) }
{
    if bytes.len() < piece.len() {
        return Err(Unlike::Bytes);
    }
    let (front, rest) = bytes.split_at(piece.len());
    if front == piece {
        Ok(rest)
    } else {
        Err(Unlike::Bytes)
    }
}

// The bytes behind the text of the value. `room` is for pieces of it.
#[cycle(after)]
fn after_value<'b>(
    schema: &Schema,
    id: TypeId,
    value: &Value,
    bytes: &'b [u8],
    room: &mut Vec<u8>,
) -> Result<&'b [u8], Unlike>
    requires known { id < length schema.now.trees }
    requires value { IsValue (type_of schema.now id) value.now }
    ensures { let text = json (type_of schema.now id) (value_of value.now) in
        IfOk result (λ rest. bytes.now ≡ text ++ rest.now) }
{
    match schema.ty(id) {
        Ty::Vector(elem, _) => after_sequence(schema, *elem, value, bytes, room),
        Ty::List(elem, _) => after_sequence(schema, *elem, value, bytes, room),
        Ty::Container(fields) => after_container(schema, id, fields.as_slice(), value, bytes, room),
        _ => after_whole(schema, id, value, bytes, room),
    }
}

// Of a value whose text is written whole.
fn after_whole<'b>(
    schema: &Schema,
    id: TypeId,
    value: &Value,
    bytes: &'b [u8],
    room: &mut Vec<u8>,
) -> Result<&'b [u8], Unlike>
    requires known { id < length schema.now.trees }
    requires value { IsValue (type_of schema.now id) value.now }
    ensures { let text = json (type_of schema.now id) (value_of value.now) in
        IfOk result (λ rest. bytes.now ≡ text ++ rest.now) }
{
    room.clear();
    append_value(schema, id, value, room)?;
    after(bytes, room.as_slice())
}

// Of elements of this type.
#[cycle(after)]
fn after_sequence<'b>(
    schema: &Schema,
    elem: TypeId,
    value: &Value,
    bytes: &'b [u8],
    room: &mut Vec<u8>,
) -> Result<&'b [u8], Unlike>
    requires known { elem < length schema.now.trees }
    requires value { IsSequence (type_of schema.now elem) value.now }
    ensures { let t = type_of schema.now elem in
        let text = compact_text
        (sequence_json (is_byte t) (json_of t) (parts_of (value_of value.now))) in
        IfOk result (λ rest. bytes.now ≡ text ++ rest.now) }
{
    match value {
        Value::Seq(parts) => after_elements(schema, elem, parts.as_slice(), bytes, room),
        Value::Bytes(run) => {
            room.clear();
            put_hex(run.as_slice(), room)?;
            after(bytes, room.as_slice())
        }
        _ => unreachable!(),
    }
}

#[cycle(after)]
fn after_elements<'b>(
    schema: &Schema,
    elem: TypeId,
    parts: &[Value],
    bytes: &'b [u8],
    room: &mut Vec<u8>,
) -> Result<&'b [u8], Unlike>
    requires known { elem < length schema.now.trees }
    requires parts { AllByRecursion (IsValue (type_of schema.now elem)) parts.now }
    ensures { let t = type_of schema.now elem in
        let text = compact_text (array (items_of (map (json_of t) (map value_of parts.now)))) in
        IfOk result (λ rest. bytes.now ≡ text ++ rest.now) }
{
    let mut rest = after(bytes, b"[")?;
    for (i, part) in parts.iter().enumerate() {
        rest = after_comma(i > 0, rest)?;
        rest = after_value(schema, elem, part, rest, room)?;
    }
    after(rest, b"]")
}

// The bytes behind the comma before all but the first.
fn after_comma(later: bool, bytes: &[u8]) -> Result<&[u8], Unlike>
    ensures { IfOk result (λ rest. bytes.now ≡ comma_if later ++ rest.now) }
{
    if later { after(bytes, b",") } else { Ok(bytes) }
}

// Of a container of these fields, whose types stand before id.
#[cycle(after)]
fn after_container<'b>(
    schema: &Schema,
    id: TypeId,
    fields: &[(Name, TypeId)],
    value: &Value,
    bytes: &'b [u8],
    room: &mut Vec<u8>,
) -> Result<&'b [u8], Unlike>
    requires known { id < length schema.now.trees }
    requires before { AllByRecursion (λ part. part.1 < id) fields.now }
    requires form { type_of schema.now id ≡ container (fields_over schema.now.trees fields.now) }
    requires legal { let fs = fields_over schema.now.trees fields.now in
        IsLegal schema.now.format (container fs) }
    requires value { IsValue (container (fields_over schema.now.trees fields.now)) value.now }
    ensures { let t = container (fields_over schema.now.trees fields.now) in
        IfOk result (λ rest. bytes.now ≡ json t (value_of value.now) ++ rest.now) }
{
    let row = row_of(schema, id, fields);
    after_row(schema, id, &row, value, bytes, room)
}

#[cycle(after)]
fn after_row<'b>(
    schema: &Schema,
    id: TypeId,
    row: &Row<'_>,
    value: &Value,
    bytes: &'b [u8],
    room: &mut Vec<u8>,
) -> Result<&'b [u8], Unlike>
    requires known { id < length schema.now.trees }
    requires before { AllByRecursion (λ part. part.1 < id) row.now.fields.now }
    requires ordered { IsOrder row.now.fields.now row.now.order.now }
    requires legal { let fs = fields_over schema.now.trees row.now.fields.now in
        IsLegal schema.now.format (container fs) }
    requires value { let t = container (fields_over schema.now.trees row.now.fields.now) in
        IsValue t value.now }
    ensures { let t = container (fields_over schema.now.trees row.now.fields.now) in
        IfOk result (λ rest. bytes.now ≡ json t (value_of value.now) ++ rest.now) }
{
    match value {
        Value::Seq(parts) => after_fields(schema, id, row, parts.as_slice(), bytes, room),
        Value::Bytes(_) => unreachable!(),
        _ => after(bytes, b"null"),
    }
}

// Members in byte order of their names.
#[cycle(after)]
fn after_fields<'b>(
    schema: &Schema,
    id: TypeId,
    row: &Row<'_>,
    parts: &[Value],
    bytes: &'b [u8],
    room: &mut Vec<u8>,
) -> Result<&'b [u8], Unlike>
    requires known { id < length schema.now.trees }
    requires before { AllByRecursion (λ part. part.1 < id) row.now.fields.now }
    requires ordered { IsOrder row.now.fields.now row.now.order.now }
    requires legal { let fs = fields_over schema.now.trees row.now.fields.now in
        IsLegal schema.now.format (container fs) }
    requires parts { AreFields (fields_over schema.now.trees row.now.fields.now) parts.now }
    ensures { let fs = fields_over schema.now.trees row.now.fields.now in
        let text = compact_text (object (members_json fs (map value_of parts.now))) in
        IfOk result (λ rest. bytes.now ≡ text ++ rest.now) }
{
    let mut rest = after(bytes, b"{")?;
    for i in 0..row.order.len() {
        let (name, number) = member_at(row, i);
        rest = after_key(i > 0, name, rest)?;
        rest = after_value(schema, row.fields[number].1, &parts[number], rest, room)?;
    }
    after(rest, b"}")
}

// The bytes behind the name of a member, with the comma before it and its colon.
fn after_key<'b>(later: bool, name: &[u8], bytes: &'b [u8]) -> Result<&'b [u8], Unlike>
    requires { IsName name.now }
    ensures { IfOk result
        (λ rest. bytes.now ≡ comma_if later ++ ((quoted name.now ++ 58 ∷ []) ++ rest.now)) }
{
    let rest = after_comma(later, bytes)?;
    let rest = after(rest, b"\"")?;
    let rest = after(rest, name)?;
    after(rest, b"\":")
}
