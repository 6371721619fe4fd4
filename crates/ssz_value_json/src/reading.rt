//! From the bytes of a text to its value.
ghost use Rattle.std.specs.Prelude.{◌≡◌, ◌<◌, length, map, Option, option_map, is_some, IfOk, IfSome};
ghost use Rattle.std.specs.List.{AllByRecursion, list_all};
ghost use Rattle.std.specs.Str.{bytes_eq};
ghost use Rattle.json.specs.Word.{is_space};
ghost use Rattle.serde_json.specs.Find.{get_member};
ghost use Rattle.serde_json.specs.View.{view, items_view};
ghost use Rattle.serde_json.specs.Events.{members_len};
ghost use Rattle.ssz_schema.specs.Types.{container, union};
ghost use Rattle.ssz_schema.specs.Legal.{IsLegal};
ghost use Rattle.ssz_schema.specs.Names.{IsName};
ghost use Rattle.ssz_schema.specs.Unfolding.{type_of, fields_over, options_over, IsBelow};
ghost use Rattle.ssz_value.specs.Standing.{value_of, is_byte, IsFormed, FieldsFormed, IsValue};
ghost use Rattle.ssz_json_text.specs.Text.{json};
ghost use Rattle.ssz_value_json.specs.Steps.{next};
ghost use Rattle.ssz_value_json.specs.Walk.{json_walk, byte_number, field_walked, sequence_at, elements_at, fields_at, none_at, selected, members_in, are_members};
ghost use Rattle.ssz_schema_json.specs.Schema.{json_read};
ghost use Rattle.ssz_value_json.specs.Answers.{WalksJson, ReadsTo, ReadsDraft, ReadsJson, IsJsonFaultOf, IsFormedSequence, IsFormedUnion};

use super::count::{Count, allows};
use super::fault::{JsonFault, JsonRead};
use super::strings::{bad, bits_in, bytes_in, flag_in, number_in};
use serde_json::Value as Json;
use ssz_json_draft::draft_of;
use ssz_json_text::{append_value, behind_text};
use ssz_schema::{Name, Schema, Ty, TypeId};
use ssz_value::{Value, fits, is_byte, option_at};
use std::alloc::{AllocError, Global};

/// The one value of the type whose JSON text the bytes are.
///
/// The answer is `Bad` with the first fault (J1 to J8) exactly where they are the text of no value
/// of the type, and `Memory` may come in place of any answer. The time is linear in the bytes, but
/// for the look-up of fields by their names. Bytes with a fault are mostly read twice, those of a
/// text with white space behind it once.
pub fn read_json(
    alloc: Global,
    schema: &Schema,
    id: TypeId,
    bytes: &[u8],
) -> Result<Value, JsonRead>
    requires { id < length schema.now.trees }
    ensures answer { ReadsTo (type_of schema.now id) bytes.now result }
    ensures fits { IfOk result (IsValue (type_of schema.now id)) }
{
    match read_draft(alloc, schema, id, bytes)? {
        Some(value) => Ok(value),
        None => read_whole(alloc, schema, id, bytes),
    }
}

// The same, where the draft of the value tells: the bytes are its text, or that and white space.
// Else nothing is known of the bytes.
#[tactic(auto, using(crate::proofs::Exact::blank_behind, crate::proofs::Exact::read_as))]
fn read_draft(
    alloc: Global,
    schema: &Schema,
    id: TypeId,
    bytes: &[u8],
) -> Result<Option<Value>, JsonRead>
    requires { id < length schema.now.trees }
    ensures answer { ReadsDraft (type_of schema.now id) bytes.now result }
    ensures fits { IfOk result (λ found. IfSome found (IsValue (type_of schema.now id))) }
{
    // By a legal type the text of a value is read as that value.
    let _legal = schema.ty(id);
    let Some(value) = draft_of(alloc, schema, id, bytes)? else {
        return Ok(None);
    };
    if !fits(schema, id, &value) {
        return Ok(None);
    }
    let Some(rest) = behind_text(alloc, schema, id, &value, bytes)? else {
        return Ok(None);
    };
    if rest.is_empty() {
        return Ok(Some(value));
    }
    if is_blank(rest) {
        return Err(bad(JsonFault::SPELLING, 0));
    }
    Ok(None)
}

// Whether each byte is white space of JSON.
fn is_blank(bytes: &[u8]) -> bool
    ensures { result ≡ list_all is_space bytes.now }
{
    bytes.iter().all(|byte| is_space(*byte))
}

fn is_space(byte: u8) -> bool
    ensures { result ≡ is_space byte }
{
    matches!(byte, b' ' | b'\t' | b'\n' | b'\r')
}

// The same as `read_json`, over the whole of the JSON that `serde_json` reads.
fn read_whole(alloc: Global, schema: &Schema, id: TypeId, bytes: &[u8]) -> Result<Value, JsonRead>
    requires { id < length schema.now.trees }
    ensures answer { ReadsTo (type_of schema.now id) bytes.now result }
    ensures fits { IfOk result (IsValue (type_of schema.now id)) }
{
    let json = json_of(alloc, bytes)?;
    let mut number = 0;
    let value = value_in(alloc, schema, id, &json, &mut number)?;
    if !is_text_of(alloc, schema, id, &value, bytes)? {
        return Err(bad(JsonFault::SPELLING, 0));
    }
    Ok(value)
}

// The JSON that `serde_json` reads.
fn json_of(alloc: Global, bytes: &[u8]) -> Result<Json, JsonRead>
    ensures { ReadsJson result (json_read bytes.now) }
{
    match Json::from_slice(alloc, bytes) {
        Ok(json) => Ok(json),
        Err(error) => Err(fault_of(&error)),
    }
}

// Want of memory is told apart from every other error of `serde_json`.
fn fault_of(error: &serde_json::Error) -> JsonRead
    ensures { IsJsonFaultOf error.now result }
{
    if error.is_memory() {
        JsonRead::Memory
    } else {
        bad(JsonFault::NOT_JSON, 0)
    }
}

// Whether the bytes are the text of the value.
fn is_text_of(
    alloc: Global,
    schema: &Schema,
    id: TypeId,
    value: &Value,
    bytes: &[u8],
) -> Result<bool, AllocError>
    requires known { id < length schema.now.trees }
    requires value { IsValue (type_of schema.now id) value.now }
    ensures { IfOk result
        (λ same. same ≡ bytes_eq (json (type_of schema.now id) (value_of value.now)) bytes.now) }
{
    let mut text = Vec::with_capacity(alloc, bytes.len())?;
    append_value(schema, id, value, &mut text)?;
    Ok(text.as_slice() == bytes)
}

// The number of this part, and from now on that of the next.
fn take_number(number: &mut u64) -> u64
    ensures here { result ≡ number.old }
    ensures behind { number.new ≡ next number.old }
{
    let here = *number;
    *number = here.saturating_add(1);
    here
}

// The value of the type that the part of this number is; the number becomes that of the next part.
#[cycle(walk)]
fn value_in(
    alloc: Global,
    schema: &Schema,
    id: TypeId,
    json: &Json,
    number: &mut u64,
) -> Result<Value, JsonRead>
    requires { id < length schema.now.trees }
    ensures { let t = type_of schema.now id in
        WalksJson value_of (IsFormed t) (json_walk t number.old (view json.now)) number.new result }
{
    match schema.ty(id) {
        Ty::Uint(width) => number_in(alloc, *width, json, take_number(number)),
        Ty::Boolean => flag_in(json, take_number(number)),
        Ty::Bitvector(length) => {
            bits_in(alloc, Count::Exactly(*length), json, take_number(number))
        }
        Ty::Bitlist(limit) => bits_in(alloc, Count::AtMost(*limit), json, take_number(number)),
        Ty::Vector(elem, length) => {
            sequence_in(alloc, schema, *elem, Count::Exactly(*length), json, number)
        }
        Ty::List(elem, limit) => {
            sequence_in(alloc, schema, *elem, Count::AtMost(*limit), json, number)
        }
        Ty::Union(options) => chosen_in(alloc, schema, id, options.as_slice(), json, number),
        Ty::Container(fields) => container_in(alloc, schema, id, fields.as_slice(), json, number),
    }
}

// The vector or list of elements of this type.
#[cycle(walk)]
fn sequence_in(
    alloc: Global,
    schema: &Schema,
    elem: TypeId,
    count: Count,
    json: &Json,
    number: &mut u64,
) -> Result<Value, JsonRead>
    requires { elem < length schema.now.trees }
    ensures { let t = type_of schema.now elem in
        WalksJson value_of (IsFormedSequence t)
        (sequence_at (is_byte t) (json_walk t) count number.old (view json.now)) number.new result }
{
    let here = take_number(number);
    if is_byte(schema, elem) {
        return bytes_in(alloc, count, json, here);
    }
    let Some(items) = json.as_array() else {
        return Err(bad(JsonFault::KIND, here));
    };
    if !allows(count, items.len()) {
        return Err(bad(JsonFault::COUNT, here));
    }
    let parts = elements_in(alloc, schema, elem, items.as_slice(), number)?;
    Ok(Value::Seq(parts))
}

#[cycle(walk)]
fn elements_in(
    alloc: Global,
    schema: &Schema,
    elem: TypeId,
    items: &[Json],
    number: &mut u64,
) -> Result<Vec<Value>, JsonRead>
    requires { elem < length schema.now.trees }
    ensures { let t = type_of schema.now elem in
        WalksJson (λ vs. map value_of vs.items) (λ vs. AllByRecursion (IsFormed t) vs.items)
        (elements_at (json_walk t) number.old (items_view items.now)) number.new result }
{
    let mut parts = Vec::with_capacity(alloc, items.len())?;
    for item in items {
        let part = value_in(alloc, schema, elem, item, number)?;
        parts.push(part)?;
    }
    Ok(parts)
}

// The union of these options, whose types stand before id.
#[cycle(walk)]
fn chosen_in(
    alloc: Global,
    schema: &Schema,
    id: TypeId,
    options: &[Option<TypeId>],
    json: &Json,
    number: &mut u64,
) -> Result<Value, JsonRead>
    requires known { id < length schema.now.trees }
    requires before { AllByRecursion (IsBelow id) options.now }
    ensures { let t = union (options_over schema.now.trees options.now) in
        WalksJson value_of (IsFormed t) (json_walk t number.old (view json.now)) number.new result }
{
    let here = take_number(number);
    let Some((selector, inner)) = selector_in(json) else {
        return Err(bad(JsonFault::KIND, here));
    };
    match option_at(options, selector) {
        None => Err(bad(JsonFault::SELECTOR, here)),
        Some(None) => none_in(selector, inner, number),
        Some(Some(option)) => {
            let inner = value_in(alloc, schema, option, inner, number)?;
            Ok(Value::Union {
                selector,
                inner: Some(Box::new(alloc, inner)?),
            })
        }
    }
}

// The selector and the JSON of the value, of an array of two whose first is a number of a byte.
fn selector_in(json: &Json) -> Option<(u8, &Json)>
    ensures { option_map (λ p. (p.0, view p.1.now)) result ≡ selected (view json.now) }
{
    let items = json.as_array()?;
    if items.len() != 2 {
        return None;
    }
    let selector = byte_of(items[0].as_u64()?)?;
    Some((selector, &items[1]))
}

fn byte_of(number: u64) -> Option<u8>
    ensures { result ≡ byte_number number }
{
    u8::try_from(number).ok()
}

// The option None.
fn none_in(selector: u8, inner: &Json, number: &mut u64) -> Result<Value, JsonRead>
    ensures { WalksJson value_of IsFormedUnion (none_at selector number.old (view inner.now))
        number.new result }
{
    let here = take_number(number);
    if !inner.is_null() {
        return Err(bad(JsonFault::KIND, here));
    }
    Ok(Value::Union {
        selector,
        inner: None,
    })
}

// The container of these fields, whose types stand before id.
#[cycle(walk)]
fn container_in(
    alloc: Global,
    schema: &Schema,
    id: TypeId,
    fields: &[(Name, TypeId)],
    json: &Json,
    number: &mut u64,
) -> Result<Value, JsonRead>
    requires known { id < length schema.now.trees }
    requires before { AllByRecursion (λ part. part.1 < id) fields.now }
    requires legal { let fs = fields_over schema.now.trees fields.now in
        IsLegal schema.now.format (container fs) }
    ensures { let t = container (fields_over schema.now.trees fields.now) in
        WalksJson value_of (IsFormed t) (json_walk t number.old (view json.now)) number.new result }
{
    let here = take_number(number);
    let Some(members) = json.as_object() else {
        return Err(bad(JsonFault::KIND, here));
    };
    if !are_fields(fields, members.len(), json) {
        return Err(bad(JsonFault::MEMBER, here));
    }
    let parts = fields_in(alloc, schema, id, fields, json, number)?;
    Ok(Value::Seq(parts))
}

// Whether there is a member for each field, and no other, among so many.
fn are_fields(fields: &[(Name, TypeId)], count: usize, json: &Json) -> bool
    requires count { count ≡ members_len (members_in (view json.now)) }
    requires names { AllByRecursion (λ part. IsName part.0) fields.now }
    ensures { result ≡ are_members (map (λ part. part.0) fields.now) (members_in (view json.now)) }
{
    if fields.len() != count {
        return false;
    }
    have_members(fields, json)
}

// Whether each field has a member.
fn have_members(fields: &[(Name, TypeId)], json: &Json) -> bool
    requires { AllByRecursion (λ part. IsName part.0) fields.now }
    ensures { result ≡ list_all (λ name. is_some (get_member name (members_in (view json.now))))
        (map (λ part. part.0) fields.now) }
{
    for field in fields {
        if member(json, &field.0).is_none() {
            return false;
        }
    }
    true
}

// The member of this name.
fn member<'a>(json: &'a Json, name: &Name) -> Option<&'a Json>
    requires { IsName name.now }
    ensures { option_map (λ value. view value.now) result
        ≡ get_member name.now (members_in (view json.now)) }
{
    match str::from_utf8(name.as_bytes()) {
        Ok(name) => json.get(name),
        Err(_) => None,
    }
}

#[cycle(walk)]
fn fields_in(
    alloc: Global,
    schema: &Schema,
    id: TypeId,
    fields: &[(Name, TypeId)],
    json: &Json,
    number: &mut u64,
) -> Result<Vec<Value>, JsonRead>
    requires known { id < length schema.now.trees }
    requires before { AllByRecursion (λ part. part.1 < id) fields.now }
    requires names { AllByRecursion (λ part. IsName part.0) fields.now }
    ensures { let fs = fields_over schema.now.trees fields.now in
        WalksJson (λ vs. map value_of vs.items) (λ vs. FieldsFormed fs vs.items)
        (fields_at fs number.old (members_in (view json.now))) number.new result }
{
    let mut parts = Vec::with_capacity(alloc, fields.len())?;
    for field in fields {
        let part = field_in(alloc, schema, field.1, member(json, &field.0), number)?;
        parts.push(part)?;
    }
    Ok(parts)
}

// The field of this type that a member is, where there is one.
#[cycle(walk)]
fn field_in(
    alloc: Global,
    schema: &Schema,
    id: TypeId,
    json: Option<&Json>,
    number: &mut u64,
) -> Result<Value, JsonRead>
    requires { id < length schema.now.trees }
    ensures { let t = type_of schema.now id in
        WalksJson value_of (IsFormed t)
        (field_walked (json_walk t) number.old (option_map (λ value. view value.now) json.entry))
        number.new result }
{
    match json {
        Some(json) => value_in(alloc, schema, id, json, number),
        None => Err(bad(JsonFault::MEMBER, *number)),
    }
}
