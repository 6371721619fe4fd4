// Edits of a value in place.
ghost use Rattle.std.specs.Prelude.{◌<◌, length};
ghost use Rattle.ssz_schema.specs.Unfolding.{type_of};
ghost use Rattle.ssz_value.specs.Standing.{IsValue};

use anyhow::{Result, bail};
use row_parts::{element_value, option_value, part_value};
use ssz_plain::{plain_append, plain_choose, plain_pop, plain_set};
use ssz_schema::{PathStep, Schema, TypeId};
use ssz_value::{EditFault, Value};
use std::alloc::Global;

/// What a row asks for: the name of an edit, and what it puts in.
#[derive(Clone, Copy)]
pub struct Asked<'a> {
    pub word: &'a str,
    pub selector: u8,
    pub digits: &'a str,
}

/// Edits the value, or answers why it is not edited.
pub fn edit(
    alloc: Global,
    schema: &Schema,
    id: TypeId,
    value: &mut Value,
    path: &[PathStep],
    asked: &Asked<'_>,
) -> Result<std::result::Result<(), EditFault>>
    requires known { id < length schema.now.trees }
    requires value { IsValue (type_of schema.now id) value.old }
    ensures { IsValue (type_of schema.now id) value.new }
{
    let part = schema.path_type(id, path);
    match asked.word {
        "set" => {
            let new = part_value(alloc, schema, part, asked.digits)?;
            Ok(plain_set(schema, id, value, path, new))
        }
        "append" => {
            let new = element_value(alloc, schema, part, asked.digits)?;
            Ok(plain_append(schema, id, value, path, new))
        }
        "pop" => Ok(plain_pop(schema, id, value, path)),
        "choose" => {
            let inner = option_value(alloc, schema, part, asked.selector, asked.digits)?;
            let selector = asked.selector;
            Ok(plain_choose(alloc, schema, id, value, path, selector, inner))
        }
        _ => bail!("no edit"),
    }
}
