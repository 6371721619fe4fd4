// Values of numbers, for parts of any type.
ghost use Rattle.std.specs.Prelude.{◌<◌, length, IfOk, IfSome};
ghost use Rattle.ssz_schema.specs.Paths.{path_type};
ghost use Rattle.ssz_schema.specs.Unfolding.{type_of};
ghost use Rattle.ssz_value.specs.Standing.{IsValue};
ghost use Rattle.ssz_value.specs.Suiting.{IsElement};

use anyhow::{Result, bail};
use ssz_codec::decode;
use ssz_schema::{PathStep, Schema, Ty, TypeId};
use ssz_value::Value;
use std::alloc::Global;

// The value of eight bytes, those of this number.
fn value_of_type(alloc: Global, schema: &Schema, id: TypeId, number: u64) -> Result<Value>
    requires { id < length schema.now.trees }
    ensures { IfOk result (IsValue (type_of schema.now id)) }
{
    match decode(alloc, schema, id, &number.to_le_bytes()) {
        Ok(value) => Ok(value),
        Err(fault) => bail!("{fault:?}"),
    }
}

/// The value of the part at the path, or any where there is no such part.
pub fn value_at(
    alloc: Global,
    schema: &Schema,
    id: TypeId,
    path: &[PathStep],
    number: u64,
) -> Result<Value>
    requires { id < length schema.now.trees }
    ensures { IfOk result (λ value. IfSome (path_type (type_of schema.now id) path.now)
        (λ u. IsValue u value)) }
{
    match schema.path_type(id, path) {
        Some(part) => value_of_type(alloc, schema, part, number),
        None => Ok(Value::Bool(false)),
    }
}

/// The value of an element of the part at the path, or any where there is no such part.
pub fn element_at(
    alloc: Global,
    schema: &Schema,
    id: TypeId,
    path: &[PathStep],
    number: u64,
) -> Result<Value>
    requires { id < length schema.now.trees }
    ensures { IfOk result (λ value. IfSome (path_type (type_of schema.now id) path.now)
        (λ u. IsElement u value)) }
{
    let Some(part) = schema.path_type(id, path) else {
        return Ok(Value::Bool(false));
    };
    match schema.ty(part) {
        Ty::List(elem, _) => value_of_type(alloc, schema, *elem, number),
        _ => Ok(Value::Bool(number % 2 == 1)),
    }
}
