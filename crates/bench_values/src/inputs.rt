// What works are given: numbers, types and files.
ghost use Rattle.std.specs.Prelude.{◌≡◌, ◌<◌, ◌^◌, None, length, OnOk};
ghost use Rattle.ssz_schema.specs.Unfolding.{type_of};
ghost use Rattle.ssz_value.specs.Faults.{first_fault};

use anyhow::{Context, Result, bail};
use ssz_codec::check;
use ssz_schema::{Schema, TypeId};
use ssz_schema_json::read_schema;
use std::fs;

/// A type of a schema.
#[derive(Drop)]
pub struct Typed {
    pub schema: Schema,
    pub id: TypeId,
    pub ghost known: { id < length schema.trees },
}

/// A type of a schema, and the bytes of a file.
#[derive(Drop)]
pub struct Sample {
    pub schema: Schema,
    pub id: TypeId,
    pub bytes: Vec<u8>,
    pub ghost known: { id < length schema.trees },
    pub ghost short: { length bytes.items < 2 ^ 32 },
}

/// The number that a word says, below 2^64.
pub fn large_number(word: &str) -> Result<u64> {
    Ok(word.parse()?)
}

/// The same, below 2^32.
pub fn number(word: &str) -> Result<u32> {
    let number = large_number(word)?;
    if number > u64::from(u32::MAX) {
        bail!("too large");
    }
    Ok(number as u32)
}

fn read_types(rt: &HostRuntime, path: &str) -> Result<Schema> {
    let text = fs::read(rt, path)?;
    match read_schema(rt.alloc(), text.as_slice()) {
        Ok(schema) => Ok(schema),
        Err(fault) => bail!("{fault:?}"),
    }
}

/// The type of this name of a schema file.
pub fn read_type(rt: &HostRuntime, path: &str, name: &str) -> Result<Typed> {
    let schema = read_types(rt, path)?;
    let id = schema.find(name).context("no such type")?;
    Ok(Typed { schema, id })
}

/// A type, and less than 2^32 bytes.
pub fn sample_of(typed: Typed, bytes: Vec<u8>) -> Result<Sample> {
    if bytes.len() > u32::MAX as usize {
        bail!("too long");
    }
    let Typed { schema, id } = typed;
    Ok(Sample { schema, id, bytes })
}

/// The type of this name of a schema file, and the bytes of a file of less than 2^32.
pub fn read_sample(rt: &HostRuntime, schema: &str, name: &str, file: &str) -> Result<Sample> {
    let bytes = fs::read(rt, file)?;
    let typed = read_type(rt, schema, name)?;
    sample_of(typed, bytes)
}

/// Fails where the bytes encode no value of the type.
pub fn faultless(sample: &Sample) -> Result<()>
    ensures { OnOk result (let typed = sample.now in
        first_fault (type_of typed.schema typed.id) 0 typed.bytes.items ≡ None) }
{
    match check(&sample.schema, sample.id, sample.bytes.as_slice()) {
        Some(fault) => bail!("{fault:?}"),
        None => Ok(()),
    }
}
