// A value in bytes: a schema, two types of it, and the bytes of a file.
ghost use Rattle.std.specs.Prelude.{◌≡◌, ◌<◌, ◌^◌, None, length};
ghost use Rattle.ssz_schema.specs.Unfolding.{type_of};
ghost use Rattle.ssz_value.specs.Faults.{first_fault};

use crate::answers::told;
use anyhow::{Context, Result, bail};
use ssz_codec::check;
use ssz_schema::{Schema, TypeId};
use ssz_schema_json::read_schema;
use std::fs;

/// Bytes that encode a value of a type, and another type of the same schema.
#[derive(Drop)]
pub struct Sample {
    pub schema: Schema,
    pub id: TypeId,
    pub newer: TypeId,
    pub bytes: Vec<u8>,
    pub ghost known: { id < length schema.trees },
    pub ghost newer_known: { newer < length schema.trees },
    pub ghost short: { length bytes.items < 2 ^ 32 },
    pub ghost faultless: { first_fault (type_of schema id) 0 bytes.items ≡ None },
}

/// The schema of a file.
pub fn read_types(rt: &HostRuntime, path: &str) -> Result<Schema> {
    let text = fs::read(rt, path)?;
    told(read_schema(rt.alloc(), text.as_slice()))
}

/// T and Newer, and bytes that encode a value of T: they are refused where they have a fault, of
/// which the code is 1 to 11 for F1 to F11 and the position is the byte.
pub fn sample_of(schema: Schema, bytes: Vec<u8>) -> Result<Sample> {
    let id = schema.find("T").context("no such type")?;
    let newer = schema.find("Newer").context("no such type")?;
    if bytes.len() > u32::MAX as usize {
        bail!("too long");
    }
    if let Some(fault) = check(&schema, id, bytes.as_slice()) {
        bail!("F{} at byte {}", fault.code, fault.position);
    }
    Ok(Sample {
        schema,
        id,
        newer,
        bytes,
    })
}

/// The same of files.
pub fn read_sample(rt: &HostRuntime, schema: &str, file: &str) -> Result<Sample> {
    let bytes = fs::read(rt, file)?;
    let schema = read_types(rt, schema)?;
    sample_of(schema, bytes)
}
