// Reads a file's JSON text as a value, or reads it once and writes it, so many times:
// read|write SCHEMA TYPE FILE TIMES.
ghost use Rattle.std.specs.Prelude.{◌<◌, length, IfOk};
ghost use Rattle.ssz_schema.specs.Unfolding.{type_of};
ghost use Rattle.ssz_value.specs.Standing.{IsValue};

use super::inputs::Sample;
use anyhow::{Result, bail};
use ssz_schema::{Schema, TypeId};
use ssz_value::Value;
use ssz_value_json::{read_json, write_json};
use std::alloc::Global;

const USAGE: &str = "usage: bench json read|write SCHEMA TYPE FILE TIMES";

fn value_of(alloc: Global, sample: &Sample) -> Result<Value>
    ensures { IfOk result (IsValue (type_of sample.now.schema sample.now.id)) }
{
    match read_json(alloc, &sample.schema, sample.id, sample.bytes.as_slice()) {
        Ok(value) => Ok(value),
        Err(fault) => bail!("{fault:?}"),
    }
}

fn reads(alloc: Global, sample: &Sample, times: u32) -> Result<()> {
    for _ in 0..times {
        drop(value_of(alloc, sample)?);
    }
    Ok(())
}

// The text of the value, written so many times.
fn text_of(alloc: Global, schema: &Schema, id: TypeId, value: &Value, times: u32) -> Result<Vec<u8>>
    requires known { id < length schema.now.trees }
    requires value { IsValue (type_of schema.now id) value.now }
{
    let mut out = Vec::new(alloc);
    for _ in 0..times {
        out.clear();
        if write_json(alloc, schema, id, value, u32::MAX, &mut out).is_err() {
            bail!("not written");
        }
    }
    Ok(out)
}

fn writes(alloc: Global, sample: &Sample, times: u32) -> Result<()> {
    let value = value_of(alloc, sample)?;
    let text = text_of(alloc, &sample.schema, sample.id, &value, times);
    drop(value);
    if text?.as_slice() != sample.bytes.as_slice() {
        bail!("another text");
    }
    Ok(())
}

/// Does one of these.
pub fn work(alloc: Global, what: &str, sample: &Sample, times: u32) -> Result<()> {
    match what {
        "read" => reads(alloc, sample, times),
        "write" => writes(alloc, sample, times),
        _ => bail!(USAGE),
    }
}
