// Values: types compared, bytes decoded, edited and encoded again, and JSON texts.
ghost use Rattle.std.specs.Prelude.{◌<◌, ◌^◌, length, IfOk};
ghost use Rattle.ssz_schema.specs.Unfolding.{type_of};
ghost use Rattle.ssz_value.specs.Standing.{IsValue};

use crate::answers::{say_bytes, say_text, told};
use crate::paths::to_field;
use crate::sample::Sample;
use anyhow::{Context, Result};
use ssz_codec::{decode, encode};
use ssz_forms::{plain_upgrade, same_type};
use ssz_plain::plain_set;
use ssz_schema::{PathStep, Schema, TypeId};
use ssz_value::Value;
use ssz_value_json::{read_json, write_json};
use std::alloc::Global;

/// The value of the bytes.
pub fn value_of(alloc: Global, schema: &Schema, id: TypeId, bytes: &[u8]) -> Result<Value>
    requires known { id < length schema.now.trees }
    requires short { length bytes.now < 2 ^ 32 }
    ensures { IfOk result (IsValue (type_of schema.now id)) }
{
    told(decode(alloc, schema, id, bytes))
}

// Puts the value of these bytes in the place of the part at the path.
fn set_part(
    alloc: Global,
    schema: &Schema,
    id: TypeId,
    value: &mut Value,
    path: &[PathStep],
    bytes: &[u8],
) -> Result<()>
    requires known { id < length schema.now.trees }
    requires value { IsValue (type_of schema.now id) value.old }
    requires short { length bytes.now < 2 ^ 32 }
    ensures { IsValue (type_of schema.now id) value.new }
{
    let part = schema.path_type(id, path).context("no such part")?;
    let new = value_of(alloc, schema, part, bytes)?;
    told(plain_set(schema, id, value, path, new))
}

// The encoding of a value.
fn encoding_of(alloc: Global, schema: &Schema, id: TypeId, value: &Value) -> Result<Vec<u8>>
    requires known { id < length schema.now.trees }
    requires value { IsValue (type_of schema.now id) value.now }
{
    let mut out = Vec::new(alloc);
    told(encode(schema, id, value, u32::MAX, &mut out))?;
    Ok(out)
}

// The JSON text of a value.
fn text_of(alloc: Global, schema: &Schema, id: TypeId, value: &Value) -> Result<Vec<u8>>
    requires known { id < length schema.now.trees }
    requires value { IsValue (type_of schema.now id) value.now }
{
    let mut out = Vec::new(alloc);
    told(write_json(alloc, schema, id, value, u32::MAX, &mut out))?;
    Ok(out)
}

// Whether the text is that of the value that it is read as.
fn is_read_again(alloc: Global, schema: &Schema, id: TypeId, text: &[u8]) -> Result<bool>
    requires { id < length schema.now.trees }
{
    let value = told(read_json(alloc, schema, id, text))?;
    let again = text_of(alloc, schema, id, &value);
    drop(value);
    Ok(again?.as_slice() == text)
}

// The value of another container: it takes the fields of equal names and types.
fn newer_of(alloc: Global, sample: &Sample, value: &Value) -> Result<Value>
    requires { IsValue (type_of sample.now.schema sample.now.id) value.now }
    ensures { IfOk result (IsValue (type_of sample.now.schema sample.now.newer)) }
{
    told(plain_upgrade(alloc, &sample.schema, sample.id, value, sample.newer))
}

// Sets the field `a`, and prints the encoding and the JSON text.
fn show_edited(rt: &HostRuntime, sample: &Sample, value: &mut Value) -> Result<()>
    requires { IsValue (type_of sample.now.schema sample.now.id) value.old }
    ensures { IsValue (type_of sample.now.schema sample.now.id) value.new }
{
    let (schema, id, alloc) = (&sample.schema, sample.id, rt.alloc());
    let path = to_field(alloc, "a")?;
    set_part(alloc, schema, id, value, path.as_slice(), &[0x07, 0x00])?;
    let bytes = encoding_of(alloc, schema, id, value)?;
    say_bytes(rt, "edited", bytes.as_slice())
}

// Prints the JSON text, and whether it is read as it was written.
fn show_text(rt: &HostRuntime, schema: &Schema, id: TypeId, value: &Value) -> Result<()>
    requires known { id < length schema.now.trees }
    requires value { IsValue (type_of schema.now id) value.now }
{
    let text = text_of(rt.alloc(), schema, id, value)?;
    let same = is_read_again(rt.alloc(), schema, id, text.as_slice())?;
    say_text(rt, "json", text.as_slice())?;
    println!(rt; "read again: {same}")?;
    Ok(())
}

fn show_newer(rt: &HostRuntime, sample: &Sample, value: &Value) -> Result<()>
    requires { IsValue (type_of sample.now.schema sample.now.id) value.now }
{
    let newer = newer_of(rt.alloc(), sample, value)?;
    show_text(rt, &sample.schema, sample.newer, &newer)
}

/// Whether the two types are equal, and a value edited, as a text, and as one of the other type.
pub fn show(rt: &HostRuntime, sample: &Sample) -> Result<()> {
    let (schema, id, alloc) = (&sample.schema, sample.id, rt.alloc());
    let same = same_type(alloc, schema, id, sample.newer)?;
    println!(rt; "equal types: {same}")?;
    let mut value = value_of(alloc, schema, id, sample.bytes.as_slice())?;
    show_edited(rt, sample, &mut value)?;
    show_newer(rt, sample, &value)
}
