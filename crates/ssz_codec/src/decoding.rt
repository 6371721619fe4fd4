ghost use Rattle.std.specs.Prelude.{◌≡◌, ◌+◌, ◌<◌, ◌≤◌, ◌^◌, length, Some, None, Option, IfOk, OnOk, drop, vec_len, vec_capacity};
ghost use Rattle.std.specs.List.{AllByRecursion};
ghost use Rattle.ssz_schema.specs.Types.{container, vector, union};
ghost use Rattle.ssz_schema.specs.Sizes.{fixed_size, head_size, part_sizes};
ghost use Rattle.ssz_schema.specs.Unfolding.{type_of, fields_over, options_over, IsBelow};
ghost use Rattle.ssz_value.specs.Values.{sequence, values};
ghost use Rattle.ssz_value.specs.Encoding.{heads_length};
ghost use Rattle.ssz_value.specs.Faults.{first_fault, elements_fault};
ghost use Rattle.ssz_value.specs.Reading.{value_in};
ghost use Rattle.ssz_value.specs.Laws.{Encodes};
ghost use Rattle.ssz_value.specs.Standing.{value_of, IsValue, Stands};
ghost use Rattle.ssz_value.specs.Shapes.{StandAlike, StandsBehind};
ghost use Rattle.ssz_parts.specs.Ranges.{part_range};
ghost use Rattle.ssz_parts.specs.PartValues.{element_values, field_values};
ghost use Rattle.ssz_codec.specs.Answers.{AreFieldsRead, DecodesTo};

use super::basics::{
    bitlist, bitvector, boolean, bytes_run, number, numbers, put_bytes, put_number,
};
use super::fault::DecodeFault;
use ssz_checking::check;
use ssz_parts::{element_at, element_count, head_len, part_range};
use ssz_schema::{Name, Schema, Ty, TypeId};
use ssz_value::{Value, is_byte, option_at};
use std::alloc::{AllocError, Global};

/// The value whose encoding the bytes are. `Bad` holds their first fault, the one that `check`
/// answers; bytes that have one give no value. `Memory` comes for want of memory alone, and only
/// where they have none.
pub fn decode(
    alloc: Global,
    schema: &Schema,
    id: TypeId,
    bytes: &[u8],
) -> Result<Value, DecodeFault>
    requires known { id < length schema.now.trees }
    requires short { length bytes.now < 2 ^ 32 }
    ensures answer { DecodesTo (type_of schema.now id) 0 bytes.now result }
    ensures encoding { IfOk result (λ v. Encodes (type_of schema.now id) (value_of v) bytes.now) }
    ensures fits { IfOk result (IsValue (type_of schema.now id)) }
{
    // Every type of a schema is legal.
    let _legal = schema.ty(id);
    if let Some(fault) = check(schema, id, bytes) {
        return Err(DecodeFault::Bad(fault));
    }
    Ok(value(alloc, schema, id, bytes)?)
}

// The value of bytes that have no fault, as below of all bytes: what is read is not checked again.
#[cycle(value)]
fn value(alloc: Global, schema: &Schema, id: TypeId, bytes: &[u8]) -> Result<Value, AllocError>
    requires known { id < length schema.now.trees }
    requires short { length bytes.now < 2 ^ 32 }
    requires faultless { first_fault (type_of schema.now id) 0 bytes.now ≡ None }
    ensures { let t = type_of schema.now id in IfOk result (Stands t (value_in t bytes.now)) }
{
    match schema.ty(id) {
        Ty::Uint(width) => Ok(number(*width, bytes)),
        Ty::Boolean => Ok(boolean(bytes)),
        Ty::Bitvector(n) => bitvector(alloc, *n, bytes),
        Ty::Bitlist(limit) => bitlist(alloc, *limit, bytes),
        Ty::Vector(elem, count) => elements(alloc, schema, *elem, *count, bytes),
        Ty::List(elem, limit) => {
            let count = element_count(schema.fixed_size(*elem), *limit, bytes);
            elements(alloc, schema, *elem, count, bytes)
        }
        Ty::Union(options) => chosen(alloc, schema, id, options.as_slice(), bytes),
        Ty::Container(fields) => {
            let parts = container(alloc, schema, id, fields.as_slice(), bytes)?;
            Ok(Value::Seq(parts))
        }
    }
}

// Puts a container of these fields behind the others, for which there is room: built in its place
// without a call.
#[cycle(value)]
#[inline(always)]
fn put_container(
    alloc: Global,
    schema: &Schema,
    id: TypeId,
    fields: &[(Name, TypeId)],
    bytes: &[u8],
    parts: &mut Vec<Value>,
) -> Result<(), AllocError>
    requires known { id < length schema.now.trees }
    requires form { type_of schema.now id ≡ container (fields_over schema.now.trees fields.now) }
    requires before { AllByRecursion (λ part. part.1 < id) fields.now }
    requires short { length bytes.now < 2 ^ 32 }
    requires faultless { first_fault (type_of schema.now id) 0 bytes.now ≡ None }
    requires room { vec_len parts.old < vec_capacity parts.old }
    ensures put { let t = type_of schema.now id in
        OnOk result (StandsBehind t (value_in t bytes.now) parts.old.items parts.new.items) }
    ensures len { OnOk result (vec_len parts.new ≡ vec_len parts.old + 1) }
    ensures capacity { OnOk result (vec_capacity parts.new ≡ vec_capacity parts.old) }
{
    let fields = container(alloc, schema, id, fields, bytes)?;
    parts.push_reserved(Value::Seq(fields));
    Ok(())
}

// Puts the value of the bytes behind the others, for which there is room: numbers, booleans and
// bytes, the commonest, without a call.
#[cycle(value)]
#[inline(always)]
fn put_field(
    alloc: Global,
    schema: &Schema,
    id: TypeId,
    bytes: &[u8],
    parts: &mut Vec<Value>,
) -> Result<(), AllocError>
    requires known { id < length schema.now.trees }
    requires short { length bytes.now < 2 ^ 32 }
    requires faultless { first_fault (type_of schema.now id) 0 bytes.now ≡ None }
    requires room { vec_len parts.old < vec_capacity parts.old }
    ensures put { let t = type_of schema.now id in
        OnOk result (StandsBehind t (value_in t bytes.now) parts.old.items parts.new.items) }
    ensures len { OnOk result (vec_len parts.new ≡ vec_len parts.old + 1) }
    ensures capacity { OnOk result (vec_capacity parts.new ≡ vec_capacity parts.old) }
{
    match schema.ty(id) {
        Ty::Uint(width) => {
            put_number(*width, bytes, parts);
            Ok(())
        }
        Ty::Boolean => {
            parts.push_reserved(boolean(bytes));
            Ok(())
        }
        Ty::Vector(elem, _) => {
            if is_byte(schema, *elem) {
                return put_bytes(alloc, bytes, parts);
            }
            put_other(alloc, schema, id, bytes, parts)
        }
        Ty::List(elem, _) => {
            if is_byte(schema, *elem) {
                return put_bytes(alloc, bytes, parts);
            }
            put_other(alloc, schema, id, bytes, parts)
        }
        _ => put_other(alloc, schema, id, bytes, parts),
    }
}

// The same of any form.
#[cycle(value)]
#[inline(never)]
fn put_other(
    alloc: Global,
    schema: &Schema,
    id: TypeId,
    bytes: &[u8],
    parts: &mut Vec<Value>,
) -> Result<(), AllocError>
    requires known { id < length schema.now.trees }
    requires short { length bytes.now < 2 ^ 32 }
    requires faultless { first_fault (type_of schema.now id) 0 bytes.now ≡ None }
    requires room { vec_len parts.old < vec_capacity parts.old }
    ensures put { let t = type_of schema.now id in
        OnOk result (StandsBehind t (value_in t bytes.now) parts.old.items parts.new.items) }
    ensures len { OnOk result (vec_len parts.new ≡ vec_len parts.old + 1) }
    ensures capacity { OnOk result (vec_capacity parts.new ≡ vec_capacity parts.old) }
{
    let value = value(alloc, schema, id, bytes)?;
    parts.push_reserved(value);
    Ok(())
}

// Of count elements.
#[cycle(value)]
fn elements(
    alloc: Global,
    schema: &Schema,
    elem: TypeId,
    count: u64,
    bytes: &[u8],
) -> Result<Value, AllocError>
    requires known { elem < length schema.now.trees }
    requires few { count ≤ 2 ^ 32 }
    requires short { length bytes.now < 2 ^ 32 }
    requires faultless { let t = type_of schema.now elem in
        elements_fault (first_fault t) (fixed_size t) count 0 bytes.now ≡ None }
    ensures { let t = type_of schema.now elem in IfOk result
        (Stands (vector t count) (sequence (values (element_values t count bytes.now)))) }
{
    if is_byte(schema, elem) {
        return bytes_run(alloc, bytes);
    }
    let parts = parts_of(alloc, schema, elem, count, bytes)?;
    Ok(Value::Seq(parts))
}

// Of count elements, each a value of its own.
#[cycle(value)]
fn parts_of(
    alloc: Global,
    schema: &Schema,
    elem: TypeId,
    count: u64,
    bytes: &[u8],
) -> Result<Vec<Value>, AllocError>
    requires known { elem < length schema.now.trees }
    requires few { count ≤ 2 ^ 32 }
    requires short { length bytes.now < 2 ^ 32 }
    requires faultless { let t = type_of schema.now elem in
        elements_fault (first_fault t) (fixed_size t) count 0 bytes.now ≡ None }
    ensures { let t = type_of schema.now elem in
        IfOk result (λ parts. StandAlike t (element_values t count bytes.now) parts.items) }
{
    match schema.ty(elem) {
        Ty::Uint(width) => numbers(alloc, *width, count, bytes),
        Ty::Container(fields) => {
            containers(alloc, schema, elem, fields.as_slice(), count, bytes)
        }
        _ => others(alloc, schema, elem, count, bytes),
    }
}

// Of count elements that are neither numbers nor containers.
#[cycle(value)]
#[inline(never)]
fn others(
    alloc: Global,
    schema: &Schema,
    elem: TypeId,
    count: u64,
    bytes: &[u8],
) -> Result<Vec<Value>, AllocError>
    requires known { elem < length schema.now.trees }
    requires few { count ≤ 2 ^ 32 }
    requires short { length bytes.now < 2 ^ 32 }
    requires faultless { let t = type_of schema.now elem in
        elements_fault (first_fault t) (fixed_size t) count 0 bytes.now ≡ None }
    ensures { let t = type_of schema.now elem in
        IfOk result (λ parts. StandAlike t (element_values t count bytes.now) parts.items) }
{
    // Every type of a schema is legal.
    let _legal = schema.ty(elem);
    let size = schema.fixed_size(elem);
    let mut parts = Vec::with_capacity(alloc, count as usize)?;
    for i in 0..count {
        let part = element_at(size, count, i, bytes);
        put_field(alloc, schema, elem, part, &mut parts)?;
    }
    Ok(parts)
}

// Of count containers of these fields, which are looked up once for all.
#[cycle(value)]
#[inline(never)]
fn containers(
    alloc: Global,
    schema: &Schema,
    id: TypeId,
    fields: &[(Name, TypeId)],
    count: u64,
    bytes: &[u8],
) -> Result<Vec<Value>, AllocError>
    requires known { id < length schema.now.trees }
    requires form { type_of schema.now id ≡ container (fields_over schema.now.trees fields.now) }
    requires before { AllByRecursion (λ part. part.1 < id) fields.now }
    requires few { count ≤ 2 ^ 32 }
    requires short { length bytes.now < 2 ^ 32 }
    requires faultless { let t = type_of schema.now id in
        elements_fault (first_fault t) (fixed_size t) count 0 bytes.now ≡ None }
    ensures { let t = type_of schema.now id in
        IfOk result (λ parts. StandAlike t (element_values t count bytes.now) parts.items) }
{
    // Every type of a schema is legal.
    let _legal = schema.ty(id);
    let size = schema.fixed_size(id);
    let mut parts = Vec::with_capacity(alloc, count as usize)?;
    for i in 0..count {
        let inner = element_at(size, count, i, bytes);
        put_container(alloc, schema, id, fields, inner, &mut parts)?;
    }
    Ok(parts)
}

// Of a union of these options, whose types stand before id.
#[cycle(value)]
fn chosen(
    alloc: Global,
    schema: &Schema,
    id: TypeId,
    options: &[Option<TypeId>],
    bytes: &[u8],
) -> Result<Value, AllocError>
    requires known { id < length schema.now.trees }
    requires before { AllByRecursion (IsBelow id) options.now }
    requires short { length bytes.now < 2 ^ 32 }
    requires faultless { let t = union (options_over schema.now.trees options.now) in
        first_fault t 0 bytes.now ≡ None }
    ensures { let t = union (options_over schema.now.trees options.now) in
        IfOk result (Stands t (value_in t bytes.now)) }
{
    let selector = bytes[0];
    match option_at(options, selector) {
        Some(Some(option)) => {
            // Every type of a schema is legal.
            let _legal = schema.ty(option);
            let inner = value(alloc, schema, option, &bytes[1..])?;
            Ok(Value::Union {
                selector,
                inner: Some(Box::new(alloc, inner)?),
            })
        }
        Some(None) => Ok(Value::Union {
            selector,
            inner: None,
        }),
        None => unreachable!(),
    }
}

// The fields of a container of these, whose types stand before id.
#[cycle(value)]
#[inline(always)]
fn container(
    alloc: Global,
    schema: &Schema,
    id: TypeId,
    fields: &[(Name, TypeId)],
    bytes: &[u8],
) -> Result<Vec<Value>, AllocError>
    requires known { id < length schema.now.trees }
    requires before { AllByRecursion (λ part. part.1 < id) fields.now }
    requires short { length bytes.now < 2 ^ 32 }
    requires faultless { let t = container (fields_over schema.now.trees fields.now) in
        first_fault t 0 bytes.now ≡ None }
    ensures { let fs = fields_over schema.now.trees fields.now in
        IfOk result (λ parts. AreFieldsRead fs (field_values fs bytes.now) parts.items) }
{
    let mut parts = Vec::with_capacity(alloc, fields.len())?;
    let mut place = 0usize;
    for (i, field) in fields.iter().enumerate() {
        // Every type of a schema is legal.
        let _legal = schema.ty(field.1);
        let head = head_len(schema.fixed_size(field.1)) as usize;
        let (from, to) = field_range(schema, field.1, fields, i, place, bytes);
        put_field(alloc, schema, field.1, &bytes[from..to], &mut parts)?;
        place += head;
    }
    Ok(parts)
}

// Where the part of field i lies, from and to, whose fixed part is at place: of a part of fixed
// size without a call.
#[inline(always)]
fn field_range(
    schema: &Schema,
    field: TypeId,
    fields: &[(Name, TypeId)],
    i: usize,
    place: usize,
    bytes: &[u8],
) -> (usize, usize)
    requires field { field < length schema.now.trees }
    requires below { i < length fields.now }
    requires known { AllByRecursion (λ part. part.1 < length schema.now.trees) fields.now }
    requires room { place + head_size (fixed_size (type_of schema.now field))
        + heads_length (part_sizes (fields_over schema.now.trees (drop (i + 1) fields.now)))
        ≤ length bytes.now }
    requires short { length bytes.now < 2 ^ 32 }
    ensures { result ≡ part_range (fixed_size (type_of schema.now field))
        (part_sizes (fields_over schema.now.trees (drop (i + 1) fields.now))) place bytes.now }
{
    match schema.fixed_size(field) {
        Some(size) => (place, place + size as usize),
        None => part_range(schema, field, fields, i, place, bytes),
    }
}
