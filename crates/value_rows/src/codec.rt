//! The first fault of bytes by `check` and by `decode`, or the length of the value's encoding and
//! the encoding again.
//!
//! A row is `NAME 0xDIGITS`. The faults wanted follow from the rules of simple-serialize.md by
//! hand; an accepted row's encoding is the row's own bytes.
ghost use Rattle.std.specs.Prelude.{◌<◌, ◌^◌, length};
ghost use Rattle.ssz_schema.specs.Unfolding.{type_of};
ghost use Rattle.ssz_value.specs.Standing.{IsValue};

use anyhow::{Result, bail};
use row_parts::{TypedBytes, encoded_digits, read_table, typed_bytes};
use ssz_bytes::Fault;
use ssz_codec::{DecodeFault, check, decode, encoded_len};
use ssz_schema::{Schema, TypeId};
use ssz_value::Value;

fn print_checked(rt: &HostRuntime, row: &str, fault: Option<Fault>) -> Result<()> {
    match fault {
        Some(fault) => print!(rt; "{row}: check F{} {}", fault.code, fault.position)?,
        None => print!(rt; "{row}: check none")?,
    }
    Ok(())
}

fn print_value(rt: &HostRuntime, schema: &Schema, id: TypeId, value: &Value) -> Result<()>
    requires known { id < length schema.now.trees }
    requires value { IsValue (type_of schema.now id) value.now }
{
    let len = encoded_len(schema, id, value);
    let again = encoded_digits(rt.alloc(), schema, id, value)?;
    println!(rt; ", decode {len} {again}")?;
    Ok(())
}

fn print_decoded(rt: &HostRuntime, schema: &Schema, id: TypeId, bytes: &[u8]) -> Result<()>
    requires known { id < length schema.now.trees }
    requires short { length bytes.now < 2 ^ 32 }
{
    match decode(rt.alloc(), schema, id, bytes) {
        Ok(value) => {
            let printed = print_value(rt, schema, id, &value);
            drop(value);
            printed
        }
        Err(DecodeFault::Bad(fault)) => {
            println!(rt; ", decode F{} {}", fault.code, fault.position)?;
            Ok(())
        }
        Err(DecodeFault::Memory) => bail!("no memory"),
    }
}

fn print_answers(rt: &HostRuntime, schema: &Schema, row: &str, typed: &TypedBytes) -> Result<()>
    requires known { typed.now.id < length schema.now.trees }
    requires short { length typed.now.bytes.items < 2 ^ 32 }
{
    let bytes = typed.bytes.as_slice();
    print_checked(rt, row, check(schema, typed.id, bytes))?;
    print_decoded(rt, schema, typed.id, bytes)
}

fn print_row(rt: &HostRuntime, schema: &Schema, row: &str) -> Result<()> {
    let typed = typed_bytes(rt.alloc(), schema, row)?;
    let printed = print_answers(rt, schema, row, &typed);
    drop(typed);
    printed
}

fn print_all(rt: &HostRuntime, schema: &Schema, rows: &str) -> Result<()> {
    for row in rows.lines() {
        print_row(rt, schema, row)?;
    }
    Ok(())
}

/// Prints what comes of each row of codec.txt.
pub fn print_rows(rt: &HostRuntime) -> Result<()> {
    let table = read_table(rt, "codec.json", "codec.txt")?;
    let printed = print_all(rt, &table.schema, table.rows.as_str());
    drop(table);
    printed
}
