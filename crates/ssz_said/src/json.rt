// The JSON text of bytes, bytes for a JSON text, and the bytes of a default.
ghost use Rattle.std.specs.Prelude.{◌≡◌, ◌<◌, ◌^◌, length};
ghost use Rattle.std.specs.Result.{result_map_both};
ghost use Rattle.ssz_schema.specs.Unfolding.{type_of};
ghost use Rattle.ssz_value.specs.Encoding.{serialize};
ghost use Rattle.ssz_value.specs.Standing.{IsValue, value_of};
ghost use Rattle.ssz_said.specs.declared.status.TheConstants.{MOST_SHOWN, TOO_LONG};
ghost use Rattle.ssz_said.specs.Json.{bad_json, default_said, encoding_said, text_said};
ghost use Rattle.ssz_said.specs.Outcome.{IsUnlessMemory, at_most};

use super::fault::SszFault;
use super::status;
use ssz_codec::{DecodeFault, decode, encode};
use ssz_schema::{Schema, TypeId};
use ssz_value::{EncodeFault, Value, default_of};
use ssz_value_json::{JsonFault, JsonRead, read_json, write_json};
use std::alloc::Global;

// The first fault of a text, as C reads it.
fn bad_json(fault: JsonFault) -> SszFault
    ensures { result ≡ bad_json fault }
{
    SszFault {
        status: status::BAD_JSON,
        code: u32::from(fault.code),
        position: fault.number,
    }
}

// The encoding of a value.
fn bytes_of_value(
    alloc: Global,
    schema: &Schema,
    id: TypeId,
    value: &Value,
) -> Result<Vec<u8>, SszFault>
    requires known { id < length schema.now.trees }
    requires value { IsValue (type_of schema.now id) value.now }
    ensures { IsUnlessMemory (result_map_both (λ bytes. bytes.items) (λ fault. fault) result)
        (at_most TOO_LONG MOST_SHOWN (serialize (type_of schema.now id) (value_of value.now))) }
{
    let mut bytes = Vec::new(alloc);
    match encode(schema, id, value, status::MOST_SHOWN, &mut bytes) {
        Ok(()) => Ok(bytes),
        Err(EncodeFault::TooLong) => Err(SszFault::of(status::TOO_LONG)),
        Err(EncodeFault::Memory) => Err(SszFault::of(status::NO_MEMORY)),
    }
}

/// The encoding of the value of a type whose text some bytes are.
pub fn bytes_of_text(
    alloc: Global,
    schema: &Schema,
    id: TypeId,
    text: &[u8],
) -> Result<Vec<u8>, SszFault>
    requires { id < length schema.now.trees }
    ensures { IsUnlessMemory (result_map_both (λ bytes. bytes.items) (λ fault. fault) result)
        (encoding_said (type_of schema.now id) text.now) }
{
    let _legal = schema.ty(id);
    match read_json(alloc, schema, id, text) {
        Ok(value) => bytes_of_value(alloc, schema, id, &value),
        Err(JsonRead::Bad(fault)) => Err(bad_json(fault)),
        Err(JsonRead::Memory) => Err(SszFault::of(status::NO_MEMORY)),
    }
}

/// The JSON text of the value of a type that some bytes encode.
pub fn text_of_bytes(
    alloc: Global,
    schema: &Schema,
    id: TypeId,
    bytes: &[u8],
) -> Result<Vec<u8>, SszFault>
    requires known { id < length schema.now.trees }
    requires short { length bytes.now < 2 ^ 32 }
    ensures { IsUnlessMemory (result_map_both (λ text. text.items) (λ fault. fault) result)
        (text_said (type_of schema.now id) bytes.now) }
{
    let value = match decode(alloc, schema, id, bytes) {
        Ok(value) => value,
        Err(DecodeFault::Bad(fault)) => return Err(SszFault::invalid(fault)),
        Err(DecodeFault::Memory) => return Err(SszFault::of(status::NO_MEMORY)),
    };
    let mut text = Vec::new(alloc);
    match write_json(alloc, schema, id, &value, status::MOST_SHOWN, &mut text) {
        Ok(()) => Ok(text),
        Err(EncodeFault::TooLong) => Err(SszFault::of(status::TOO_LONG)),
        Err(EncodeFault::Memory) => Err(SszFault::of(status::NO_MEMORY)),
    }
}

/// The encoding of the default of a type.
pub fn default_bytes(alloc: Global, schema: &Schema, id: TypeId) -> Result<Vec<u8>, SszFault>
    requires { id < length schema.now.trees }
    ensures { IsUnlessMemory (result_map_both (λ bytes. bytes.items) (λ fault. fault) result)
        (default_said (type_of schema.now id)) }
{
    let _legal = schema.ty(id);
    let value = default_of(alloc, schema, id)?;
    bytes_of_value(alloc, schema, id, &value)
}
