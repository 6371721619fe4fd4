//! From a text to the value that it may be the text of, by the type.
ghost use Rattle.std.specs.Prelude.{◌<◌, length};
ghost use Rattle.std.specs.List.{AllByRecursion};
ghost use Rattle.ssz_schema.specs.Unfolding.{IsBelow};

use super::fault::NoDraft;
use super::left::Left;
use super::strings::{bits_of, bytes_of, decimal_of, wide_of};
use ssz_bytes::BitRun;
use ssz_decimal::number_of_8_bits;
use ssz_schema::{Name, Schema, Ty, TypeId, Width};
use ssz_value::{Value, is_byte, option_at};
use std::alloc::{AllocError, Global};

/// The value of the type that the bytes may be the text of, or None where they are no value's.
///
/// It may be no value of the type, and the bytes need not be its text. The time is linear in the
/// bytes and in the fields of the containers that they begin.
pub fn draft_of(
    alloc: Global,
    schema: &Schema,
    id: TypeId,
    bytes: &[u8],
) -> Result<Option<Value>, AllocError>
    requires { id < length schema.now.trees }
{
    match value_of(alloc, schema, id, &mut Left::of(bytes)) {
        Ok(draft) => Ok(Some(draft)),
        Err(NoDraft::Form) => Ok(None),
        Err(NoDraft::Memory) => Err(AllocError),
    }
}

// Of the type.
#[cycle(draft)]
fn value_of(
    alloc: Global,
    schema: &Schema,
    id: TypeId,
    left: &mut Left<'_>,
) -> Result<Value, NoDraft>
    requires { id < length schema.now.trees }
{
    match schema.ty(id) {
        Ty::Uint(width) => number_in(*width, left),
        Ty::Boolean => flag_in(left),
        Ty::Bitvector(_) => bits_in(alloc, left),
        Ty::Bitlist(_) => bits_in(alloc, left),
        Ty::Vector(elem, _) => sequence_of(alloc, schema, *elem, left),
        Ty::List(elem, _) => sequence_of(alloc, schema, *elem, left),
        Ty::Union(options) => chosen_of(alloc, schema, id, options.as_slice(), left),
        Ty::Container(fields) => container_of(alloc, schema, id, fields.as_slice(), left),
    }
}

fn number_in(width: Width, left: &mut Left<'_>) -> Result<Value, NoDraft> {
    let text = left.string()?;
    match width {
        Width::W256 => wide_of(text),
        _ => Ok(Value::Uint(decimal_of(text))),
    }
}

fn flag_in(left: &mut Left<'_>) -> Result<Value, NoDraft> {
    if left.pass_all(b"true").is_ok() {
        return Ok(Value::Bool(true));
    }
    left.pass_all(b"false")?;
    Ok(Value::Bool(false))
}

fn bits_in(alloc: Global, left: &mut Left<'_>) -> Result<Value, NoDraft> {
    let digits = left.string()?;
    let bits = bits_of(alloc, digits)?;
    Ok(Value::Bits(BitRun::from_bits(bits)))
}

fn bytes_in(alloc: Global, left: &mut Left<'_>) -> Result<Value, NoDraft> {
    left.pass_all(b"\"0x")?;
    let digits = left.up_to(b'"')?;
    Ok(Value::Bytes(bytes_of(alloc, digits)?))
}

// Of elements of this type.
#[cycle(draft)]
fn sequence_of(
    alloc: Global,
    schema: &Schema,
    elem: TypeId,
    left: &mut Left<'_>,
) -> Result<Value, NoDraft>
    requires { elem < length schema.now.trees }
{
    if is_byte(schema, elem) {
        return bytes_in(alloc, left);
    }
    left.pass(b'[')?;
    Ok(Value::Seq(elements_of(alloc, schema, elem, left)?))
}

#[cycle(draft)]
fn elements_of(
    alloc: Global,
    schema: &Schema,
    elem: TypeId,
    left: &mut Left<'_>,
) -> Result<Vec<Value>, NoDraft>
    requires { elem < length schema.now.trees }
{
    let mut parts = Vec::new(alloc);
    for i in 0..u64::MAX {
        if !left.goes_on(i > 0)? {
            break;
        }
        let part = value_of(alloc, schema, elem, left)?;
        parts.push(part)?;
    }
    parts.shrink_to_fit();
    Ok(parts)
}

// Of a container of these fields, whose types stand before id. The members stand in byte order of
// their names, and each goes to the place of its field.
#[cycle(draft)]
fn container_of(
    alloc: Global,
    schema: &Schema,
    id: TypeId,
    fields: &[(Name, TypeId)],
    left: &mut Left<'_>,
) -> Result<Value, NoDraft>
    requires known { id < length schema.now.trees }
    requires before { AllByRecursion (λ part. part.1 < id) fields.now }
{
    left.pass(b'{')?;
    let mut parts = places(alloc, fields.len())?;
    for (i, number) in schema.field_order(id).iter().enumerate() {
        let number = *number;
        if number >= fields.len() {
            return Err(NoDraft::Form);
        }
        left.pass_key(i > 0, fields[number].0.as_bytes())?;
        let part = value_of(alloc, schema, fields[number].1, left)?;
        if let Some(place) = parts.get_mut(number) {
            *place = part;
        }
    }
    left.pass(b'}')?;
    Ok(Value::Seq(parts))
}

// Places for so many parts.
fn places(alloc: Global, count: usize) -> Result<Vec<Value>, AllocError> {
    let mut parts = Vec::with_capacity(alloc, count)?;
    for _ in 0..count {
        parts.push(Value::Bool(false))?;
    }
    Ok(parts)
}

// Of a union of these options, whose types stand before id.
#[cycle(draft)]
fn chosen_of(
    alloc: Global,
    schema: &Schema,
    id: TypeId,
    options: &[Option<TypeId>],
    left: &mut Left<'_>,
) -> Result<Value, NoDraft>
    requires known { id < length schema.now.trees }
    requires before { AllByRecursion (IsBelow id) options.now }
{
    left.pass(b'[')?;
    let Some(selector) = number_of_8_bits(left.up_to(b',')?) else {
        return Err(NoDraft::Form);
    };
    let inner = inner_of(alloc, schema, id, options, selector, left)?;
    left.pass(b']')?;
    Ok(Value::Union { selector, inner })
}

// What stands behind the selector.
#[cycle(draft)]
fn inner_of(
    alloc: Global,
    schema: &Schema,
    id: TypeId,
    options: &[Option<TypeId>],
    selector: u8,
    left: &mut Left<'_>,
) -> Result<Option<Box<Value>>, NoDraft>
    requires known { id < length schema.now.trees }
    requires before { AllByRecursion (IsBelow id) options.now }
{
    match option_at(options, selector) {
        Some(Some(option)) => {
            let inner = value_of(alloc, schema, option, left)?;
            Ok(Some(Box::new(alloc, inner)?))
        }
        Some(None) => {
            left.pass_all(b"null")?;
            Ok(None)
        }
        None => Err(NoDraft::Form),
    }
}
