// The values of rows, and their encodings.
ghost use Rattle.std.specs.Prelude.{◌<◌, ◌^◌, length, IfOk};
ghost use Rattle.ssz_schema.specs.Unfolding.{type_of};
ghost use Rattle.ssz_value.specs.Standing.{IsValue};

use super::showing::digits_of;
use super::spelled::{bytes_of, type_named};
use anyhow::{Context, Result, bail};
use ssz_codec::{decode, encode};
use ssz_schema::{Schema, TypeId};
use ssz_value::Value;
use std::alloc::Global;

/// A type, and bytes that may be a value of it.
#[derive(Drop)]
pub struct TypedBytes {
    pub id: TypeId,
    pub bytes: Vec<u8>,
}

/// What the row `NAME 0xDIGITS` has.
pub fn typed_bytes(alloc: Global, schema: &Schema, row: &str) -> Result<TypedBytes>
    ensures known { IfOk result (λ typed. typed.id < length schema.now.trees) }
    ensures short { IfOk result (λ typed. length typed.bytes.items < 2 ^ 32) }
{
    let (name, digits) = row.split_once(" 0x").context("no bytes")?;
    let id = type_named(schema, name)?;
    let bytes = bytes_of(alloc, digits)?;
    Ok(TypedBytes { id, bytes })
}

/// The value that the bytes encode.
pub fn value_in(alloc: Global, schema: &Schema, id: TypeId, bytes: &[u8]) -> Result<Value>
    requires known { id < length schema.now.trees }
    requires short { length bytes.now < 2 ^ 32 }
    ensures { IfOk result (IsValue (type_of schema.now id)) }
{
    match decode(alloc, schema, id, bytes) {
        Ok(value) => Ok(value),
        Err(_) => bail!("not decoded"),
    }
}

/// The value whose encoding has the digits.
pub fn value_of(alloc: Global, schema: &Schema, id: TypeId, digits: &str) -> Result<Value>
    requires { id < length schema.now.trees }
    ensures { IfOk result (IsValue (type_of schema.now id)) }
{
    let bytes = bytes_of(alloc, digits)?;
    value_in(alloc, schema, id, bytes.as_slice())
}

/// The bytes that encode the value.
pub fn encoding_of(alloc: Global, schema: &Schema, id: TypeId, value: &Value) -> Result<Vec<u8>>
    requires known { id < length schema.now.trees }
    requires value { IsValue (type_of schema.now id) value.now }
    ensures { IfOk result (λ bytes. length bytes.items < 2 ^ 32) }
{
    let mut bytes = Vec::new(alloc);
    if encode(schema, id, value, u32::MAX, &mut bytes).is_err() || bytes.len() > u32::MAX as usize {
        bail!("not encoded");
    }
    Ok(bytes)
}

/// `0x` and the digits of the value's encoding.
pub fn encoded_digits(alloc: Global, schema: &Schema, id: TypeId, value: &Value) -> Result<String>
    requires known { id < length schema.now.trees }
    requires value { IsValue (type_of schema.now id) value.now }
{
    let bytes = encoding_of(alloc, schema, id, value)?;
    Ok(digits_of(alloc, bytes.as_slice())?)
}
