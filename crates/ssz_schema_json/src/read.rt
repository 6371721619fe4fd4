//! From the bytes of a file to a schema.
ghost use Rattle.std.specs.Prelude.{◌≡◌};
ghost use Rattle.serde_json.specs.View.{view};
ghost use Rattle.ssz_schema_json.specs.Schema.{ReadsSchema, json_read, schema_of_document, schema_of_bytes};
ghost use Rattle.ssz_schema_json.specs.Views.{document_view, ReadsSchemaJson, IsSchemaFaultOf};

use super::document::{Definitions, definitions_of};
use super::fault::SchemaRead;
use serde_json::Value;
use ssz_schema::{Schema, SchemaError};
use std::alloc::Global;

/// The schema that the bytes of a schema file define.
///
/// The answer is `NotJson` (S1) exactly where `serde_json` reads no value from the bytes, `Shape`
/// (S2) where that value is no document, wherever in it this shows, and `Def` (S3 to S14) with the
/// first fault of the definitions in their order. `Memory` may come in place of any answer.
pub fn read_schema(alloc: Global, bytes: &[u8]) -> Result<Schema, SchemaRead>
    ensures { ReadsSchema result (schema_of_bytes bytes.now) }
{
    let value = value_of(alloc, bytes)?;
    let definitions = definitions_of(alloc, value)?;
    schema_of(alloc, definitions)
}

// The value that `serde_json` reads.
fn value_of(alloc: Global, bytes: &[u8]) -> Result<Value, SchemaRead>
    ensures { ReadsSchemaJson result (json_read bytes.now) }
{
    match Value::from_slice(alloc, bytes) {
        Ok(value) => Ok(value),
        Err(error) => Err(fault_of(&error)),
    }
}

// Want of memory is told apart from every other error of `serde_json`.
fn fault_of(error: &serde_json::Error) -> SchemaRead
    ensures { IsSchemaFaultOf error.now result }
{
    if error.is_memory() {
        SchemaRead::Memory
    } else {
        SchemaRead::NotJson
    }
}

// The schema of the definitions, added in order.
fn schema_of(alloc: Global, definitions: Definitions) -> Result<Schema, SchemaRead>
    ensures { ReadsSchema result (schema_of_document (document_view definitions)) }
{
    let mut schema = Schema::empty_for(alloc, definitions.format)?;
    let mut number = 0;
    for (name, form) in definitions.items {
        match schema.add(&name, &form) {
            Ok(_) => {}
            Err(SchemaError::Fault(fault)) => return Err(SchemaRead::Def { number, fault }),
            Err(SchemaError::Memory) => return Err(SchemaRead::Memory),
        }
        number += 1;
    }
    Ok(schema)
}
