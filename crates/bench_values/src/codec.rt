// Copies, checks, decodes or encodes the value of a file so many times:
// copy|check|decode|encode SCHEMA TYPE FILE TIMES.
ghost use Rattle.std.specs.Prelude.{◌<◌, length, IfOk};
ghost use Rattle.ssz_schema.specs.Unfolding.{type_of};
ghost use Rattle.ssz_value.specs.Standing.{IsValue};

use super::inputs::Sample;
use anyhow::{Result, bail};
use ssz_codec::{check, decode, encode};
use ssz_schema::{Schema, TypeId};
use ssz_value::Value;
use std::alloc::Global;

const USAGE: &str = "usage: bench codec copy|check|decode|encode SCHEMA TYPE FILE TIMES";

fn copies(alloc: Global, bytes: &[u8], times: u32) -> Result<()> {
    let mut out = Vec::new(alloc);
    for _ in 0..times {
        out.clear();
        out.extend_from_slice(bytes)?;
    }
    Ok(())
}

// Says a fault at the end alone: what it takes to find one is measured, too.
fn checks(sample: &Sample, times: u32) -> Result<()> {
    let mut found = None;
    for _ in 0..times {
        found = check(&sample.schema, sample.id, sample.bytes.as_slice());
    }
    match found {
        None => Ok(()),
        Some(fault) => bail!("{fault:?}"),
    }
}

fn decoded(alloc: Global, sample: &Sample) -> Result<Value>
    ensures { IfOk result (IsValue (type_of sample.now.schema sample.now.id)) }
{
    match decode(alloc, &sample.schema, sample.id, sample.bytes.as_slice()) {
        Ok(value) => Ok(value),
        Err(_) => bail!("not decoded"),
    }
}

/// Decodes the value so many times.
pub fn decodes(alloc: Global, sample: &Sample, times: u32) -> Result<()> {
    for _ in 0..times {
        drop(decoded(alloc, sample)?);
    }
    Ok(())
}

fn writes(alloc: Global, schema: &Schema, id: TypeId, value: &Value, times: u32) -> Result<()>
    requires known { id < length schema.now.trees }
    requires value { IsValue (type_of schema.now id) value.now }
{
    let mut out = Vec::new(alloc);
    for _ in 0..times {
        out.clear();
        if encode(schema, id, value, u32::MAX, &mut out).is_err() {
            bail!("not encoded");
        }
    }
    Ok(())
}

/// Decodes the value, and encodes it so many times.
pub fn encodes(alloc: Global, sample: &Sample, times: u32) -> Result<()> {
    let value = decoded(alloc, sample)?;
    let written = writes(alloc, &sample.schema, sample.id, &value, times);
    drop(value);
    written
}

/// Does one of these.
pub fn work(alloc: Global, what: &str, sample: &Sample, times: u32) -> Result<()> {
    match what {
        "copy" => copies(alloc, sample.bytes.as_slice(), times),
        "check" => checks(sample, times),
        "decode" => decodes(alloc, sample, times),
        "encode" => encodes(alloc, sample, times),
        _ => bail!(USAGE),
    }
}
