ghost use Rattle.std.specs.Prelude.{◌≡◌, ◌<◌, ◌++◌, length, OnOk, OnErr};
ghost use Rattle.ssz_schema.specs.Unfolding.{type_of};
ghost use Rattle.ssz_value.specs.Standing.{value_of, IsValue};
ghost use Rattle.ssz_json_text.specs.Text.{json};
ghost use Rattle.ssz_value.specs.Written.{Appends};

use super::fault::JsonWrite;
use ssz_json_text::{append_value, text_len};
use ssz_schema::{Schema, TypeId};
use ssz_value::Value;
use std::alloc::{AllocError, Global};

/// Appends the one JSON text of a value of the type to `out`, where it has at most max bytes.
///
/// The text is this project's form, which docs/formats.md has for each type, and not the standard's
/// JSON mapping. The answer is `TooLong` exactly where the text has more than max bytes, and
/// `Memory` only where it has not; after both `out` is as before. The length is taken first, with
/// no memory, so that `out` grows once, and nothing else is taken: `alloc` is not asked.
pub fn write_json(
    alloc: Global,
    schema: &Schema,
    id: TypeId,
    value: &Value,
    max: u32,
    out: &mut Vec<u8>,
) -> Result<(), JsonWrite>
    requires known { id < length schema.now.trees }
    requires value { IsValue (type_of schema.now id) value.now }
    ensures { let text = json (type_of schema.now id) (value_of value.now) in
        Appends text max out.old.items out.new.items result }
{
    let len = text_len(schema, id, value);
    if len > u64::from(max) {
        return Err(JsonWrite::TooLong);
    }
    out.reserve(len as usize)?;
    append_whole(schema, id, value, out)?;
    Ok(())
}

// Appends the text, or nothing.
fn append_whole(
    schema: &Schema,
    id: TypeId,
    value: &Value,
    out: &mut Vec<u8>,
) -> Result<(), AllocError>
    requires known { id < length schema.now.trees }
    requires value { IsValue (type_of schema.now id) value.now }
    ensures text { OnOk result
        (out.new.items ≡ out.old.items ++ json (type_of schema.now id) (value_of value.now)) }
    ensures same { OnErr result (out.new.items ≡ out.old.items) }
{
    let before = out.len();
    match append_value(schema, id, value, out) {
        Ok(()) => Ok(()),
        Err(error) => {
            out.truncate(before);
            Err(error)
        }
    }
}
