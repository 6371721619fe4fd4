// The values that edits put in.
ghost use Rattle.std.specs.Prelude.{◌<◌, length, IfOk};
ghost use Rattle.std.specs.Option.{ForSome};
ghost use Rattle.ssz_schema.specs.Unfolding.{type_of};
ghost use Rattle.ssz_value.specs.Standing.{IsValue};
ghost use Rattle.ssz_value.specs.Suiting.{IsElement, IsInner};

use super::values::value_of;
use anyhow::Result;
use ssz_schema::{PathStep, Schema, Ty, TypeId};
use ssz_value::Value;
use std::alloc::Global;

/// The value of a part, or any where the path leads to none.
pub fn part_value(
    alloc: Global,
    schema: &Schema,
    part: Option<TypeId>,
    digits: &str,
) -> Result<Value>
    requires { ForSome part (λ id. id < length schema.now.trees) }
    ensures { IfOk result (λ value. ForSome part (λ id. IsValue (type_of schema.now id) value)) }
{
    match part {
        Some(id) => value_of(alloc, schema, id, digits),
        None => Ok(Value::Bool(false)),
    }
}

/// The value of an element of a part, or any where the part has no elements.
pub fn element_value(
    alloc: Global,
    schema: &Schema,
    part: Option<TypeId>,
    digits: &str,
) -> Result<Value>
    requires { ForSome part (λ id. id < length schema.now.trees) }
    ensures { IfOk result (λ value. ForSome part (λ id. IsElement (type_of schema.now id) value)) }
{
    let Some(id) = part else {
        return Ok(Value::Bool(false));
    };
    match schema.ty(id) {
        Ty::List(elem, _) => value_of(alloc, schema, *elem, digits),
        _ => Ok(Value::Bool(digits == "01")),
    }
}

/// The value of the option of a part with this number: none where there is no such option, or it
/// is None.
pub fn option_value(
    alloc: Global,
    schema: &Schema,
    part: Option<TypeId>,
    selector: u8,
    digits: &str,
) -> Result<Option<Value>>
    requires { ForSome part (λ id. id < length schema.now.trees) }
    ensures { IfOk result (λ inner. ForSome part (λ id.
        IsInner (type_of schema.now id) selector inner)) }
{
    let Some(id) = part else {
        return Ok(None);
    };
    match schema.step_type(id, &PathStep::Option(selector)) {
        Some(option) => Ok(Some(value_of(alloc, schema, option, digits)?)),
        None => Ok(None),
    }
}
