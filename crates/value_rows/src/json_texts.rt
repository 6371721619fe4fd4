//! The first fault of a JSON text; or the encoding of the value read, the text that is written for
//! the value of that encoding, and the answer where it is a byte too long.
//!
//! A row is `NAME TEXT`, or `NAME 0xDIGITS` of the text's bytes. rows/text_rows.py makes the rows,
//! and what must be printed, by Python's json and the rules of simple-serialize.md.
ghost use Rattle.std.specs.Prelude.{◌<◌, ◌^◌, length};
ghost use Rattle.ssz_schema.specs.Unfolding.{type_of};
ghost use Rattle.ssz_value.specs.Standing.{IsValue};

use anyhow::{Context, Result, bail};
use row_parts::{bytes_of, digits_of, encoding_of, read_table, type_named, value_in};
use ssz_schema::{Schema, TypeId};
use ssz_value::Value;
use ssz_value_json::{JsonRead, JsonWrite, read_json, write_json};

fn print_text(rt: &HostRuntime, text: &[u8]) -> Result<()> {
    let text = str::from_utf8(text)?;
    print!(rt; ", {text}")?;
    Ok(())
}

// Prints that the text is too long. Nothing may be left of it behind `json `.
fn print_refusal(rt: &HostRuntime, fault: JsonWrite, left: &[u8]) -> Result<()> {
    if fault != JsonWrite::TooLong || left != b"json ".as_slice() {
        bail!("not written");
    }
    print!(rt; ", too long")?;
    Ok(())
}

// Prints `json ` and the text of the value, or that it has more bytes than max.
fn print_written(
    rt: &HostRuntime,
    schema: &Schema,
    id: TypeId,
    value: &Value,
    max: u32,
) -> Result<()>
    requires known { id < length schema.now.trees }
    requires value { IsValue (type_of schema.now id) value.now }
{
    let mut out = b"json ".to_vec(rt.alloc())?;
    match write_json(rt.alloc(), schema, id, value, max, &mut out) {
        Ok(()) => print_text(rt, out.as_slice()),
        Err(fault) => print_refusal(rt, fault, out.as_slice()),
    }
}

// Prints the text of the value, for which so many bytes are enough, and the answer where it is a
// byte too long.
fn print_texts(
    rt: &HostRuntime,
    schema: &Schema,
    id: TypeId,
    value: &Value,
    enough: u32,
) -> Result<()>
    requires known { id < length schema.now.trees }
    requires value { IsValue (type_of schema.now id) value.now }
{
    print_written(rt, schema, id, value, enough)?;
    print_written(rt, schema, id, value, enough.saturating_sub(1))?;
    println!(rt)?;
    Ok(())
}

fn print_digits(rt: &HostRuntime, bytes: &[u8]) -> Result<()> {
    let digits = digits_of(rt.alloc(), bytes)?;
    print!(rt; "{digits}")?;
    Ok(())
}

// Prints the encoding, and the texts of its value.
fn print_encoded(
    rt: &HostRuntime,
    schema: &Schema,
    id: TypeId,
    bytes: &[u8],
    enough: u32,
) -> Result<()>
    requires known { id < length schema.now.trees }
    requires short { length bytes.now < 2 ^ 32 }
{
    print_digits(rt, bytes)?;
    let value = value_in(rt.alloc(), schema, id, bytes)?;
    let printed = print_texts(rt, schema, id, &value, enough);
    drop(value);
    printed
}

// Prints the encoding of the value of a text with so many bytes, and its text again.
fn print_value(
    rt: &HostRuntime,
    schema: &Schema,
    id: TypeId,
    value: &Value,
    len: usize,
) -> Result<()>
    requires known { id < length schema.now.trees }
    requires value { IsValue (type_of schema.now id) value.now }
{
    let enough = u32::try_from(len)?;
    let bytes = encoding_of(rt.alloc(), schema, id, value)?;
    print_encoded(rt, schema, id, bytes.as_slice(), enough)
}

fn print_answer(rt: &HostRuntime, schema: &Schema, id: TypeId, text: &[u8]) -> Result<()>
    requires { id < length schema.now.trees }
{
    match read_json(rt.alloc(), schema, id, text) {
        Ok(value) => {
            let printed = print_value(rt, schema, id, &value, text.len());
            drop(value);
            printed
        }
        Err(JsonRead::Bad(fault)) => {
            println!(rt; "J{} {}", fault.code, fault.number)?;
            Ok(())
        }
        Err(JsonRead::Memory) => bail!("no memory"),
    }
}

fn print_row(rt: &HostRuntime, schema: &Schema, row: &str) -> Result<()> {
    let (name, text) = row.split_once(' ').context("no row")?;
    let id = type_named(schema, name)?;
    print!(rt; "{row}: ")?;
    match text.strip_prefix("0x") {
        Some(digits) => {
            let bytes = bytes_of(rt.alloc(), digits)?;
            print_answer(rt, schema, id, bytes.as_slice())
        }
        None => print_answer(rt, schema, id, text.as_bytes()),
    }
}

fn print_all(rt: &HostRuntime, schema: &Schema, rows: &str) -> Result<()> {
    for row in rows.lines() {
        print_row(rt, schema, row)?;
    }
    Ok(())
}

/// Prints what comes of each row of json.txt.
pub fn print_rows(rt: &HostRuntime) -> Result<()> {
    let table = read_table(rt, "json.json", "json.txt")?;
    let printed = print_all(rt, &table.schema, table.rows.as_str());
    drop(table);
    printed
}
