//! Edits of a value in place, and its parts.
//!
//! Blocks are parted by an empty line. The first row of one is `NAME 0xDIGITS`; the others edit the
//! value or ask for a part. A line has the encoding of the part, or of the value afterwards, which
//! a refusal must leave as it was. rows/text_rows.py makes the rows, and what must be printed, from
//! the rules of simple-serialize.md alone.
ghost use Rattle.std.specs.Prelude.{◌<◌, length};
ghost use Rattle.ssz_plain.specs.Lent.{IsPartOf};
ghost use Rattle.ssz_schema.specs.Unfolding.{type_of};
ghost use Rattle.ssz_value.specs.Standing.{IsValue};

mod edits;

use anyhow::{Context, Result};
use edits::{Asked, edit};
use row_parts::{encoded_digits, path_of, read_table, type_named, value_of};
use ssz_decimal::number_of_8_bits;
use ssz_plain::{PartRef, part};
use ssz_schema::{PathStep, Schema, TypeId};
use ssz_value::{EditFault, PathFault, Value};

fn print_encoding(rt: &HostRuntime, schema: &Schema, id: TypeId, value: &Value) -> Result<()>
    requires known { id < length schema.now.trees }
    requires value { IsValue (type_of schema.now id) value.now }
{
    let encoding = encoded_digits(rt.alloc(), schema, id, value)?;
    println!(rt; "{encoding}")?;
    Ok(())
}

// Prints the encoding of a part of this type.
fn print_found(rt: &HostRuntime, schema: &Schema, kind: TypeId, found: &PartRef<'_>) -> Result<()>
    requires known { kind < length schema.now.trees }
    requires part { IsPartOf (type_of schema.now kind) found.now }
{
    let copy = found.to_value(rt.alloc())?;
    let printed = print_encoding(rt, schema, kind, &copy);
    drop(copy);
    printed
}

fn print_fault(rt: &HostRuntime, fault: PathFault) -> Result<()> {
    println!(rt; "{fault:?}")?;
    Ok(())
}

// Prints the encoding of the part at the path, or why there is none.
fn print_part(
    rt: &HostRuntime,
    schema: &Schema,
    id: TypeId,
    value: &Value,
    path: &[PathStep],
) -> Result<()>
    requires known { id < length schema.now.trees }
    requires value { IsValue (type_of schema.now id) value.now }
{
    match part(schema, id, value, path) {
        Ok(found) => {
            let kind = schema.path_type(id, path).context("no type")?;
            print_found(rt, schema, kind, &found)
        }
        Err(fault) => print_fault(rt, fault),
    }
}

fn print_refusal(rt: &HostRuntime, answer: std::result::Result<(), EditFault>) -> Result<()> {
    if let Err(fault) = answer {
        print!(rt; "{fault:?}, ")?;
    }
    Ok(())
}

// Edits the value, and prints why not, and its encoding afterwards.
fn print_edit(
    rt: &HostRuntime,
    schema: &Schema,
    id: TypeId,
    value: &mut Value,
    path: &[PathStep],
    asked: &Asked<'_>,
) -> Result<()>
    requires known { id < length schema.now.trees }
    requires value { IsValue (type_of schema.now id) value.old }
    ensures { IsValue (type_of schema.now id) value.new }
{
    let answer = edit(rt.alloc(), schema, id, value, path, asked)?;
    print_refusal(rt, answer)?;
    print_encoding(rt, schema, id, value)
}

// The words of a row: an edit or `part`, a path, and what is put in.
fn asked_by(row: &str) -> Result<(Asked<'_>, &str)> {
    let (word, rest) = row.split_once(' ').context("no row")?;
    let (place, digits) = rest.split_once(" 0x").unwrap_or((rest, ""));
    let (path, selector) = place.split_once(' ').unwrap_or((place, "0"));
    let selector = number_of_8_bits(selector.as_bytes()).context("no selector")?;
    Ok((
        Asked {
            word,
            selector,
            digits,
        },
        path,
    ))
}

// Prints what a row makes of the value, or its part.
fn print_asked(
    rt: &HostRuntime,
    schema: &Schema,
    id: TypeId,
    value: &mut Value,
    path: &[PathStep],
    asked: &Asked<'_>,
) -> Result<()>
    requires known { id < length schema.now.trees }
    requires value { IsValue (type_of schema.now id) value.old }
    ensures { IsValue (type_of schema.now id) value.new }
{
    if asked.word == "part" {
        return print_part(rt, schema, id, value, path);
    }
    print_edit(rt, schema, id, value, path, asked)
}

fn print_row(
    rt: &HostRuntime,
    schema: &Schema,
    id: TypeId,
    value: &mut Value,
    row: &str,
) -> Result<()>
    requires known { id < length schema.now.trees }
    requires value { IsValue (type_of schema.now id) value.old }
    ensures { IsValue (type_of schema.now id) value.new }
{
    let (asked, word) = asked_by(row)?;
    print!(rt; "{row}: ")?;
    let path = path_of(rt.alloc(), word)?;
    let printed = print_asked(rt, schema, id, value, path.as_slice(), &asked);
    drop(path);
    printed
}

// Prints a value, and what its rows make of it.
fn print_value(
    rt: &HostRuntime,
    schema: &Schema,
    id: TypeId,
    value: &mut Value,
    rows: &str,
) -> Result<()>
    requires known { id < length schema.now.trees }
    requires value { IsValue (type_of schema.now id) value.old }
{
    print_encoding(rt, schema, id, value)?;
    for row in rows.lines() {
        print_row(rt, schema, id, value, row)?;
    }
    Ok(())
}

fn print_block(rt: &HostRuntime, schema: &Schema, block: &str) -> Result<()> {
    let (first, rows) = block.split_once('\n').unwrap_or((block, ""));
    let (name, digits) = first.split_once(" 0x").context("no value")?;
    print!(rt; "{name}: ")?;
    let id = type_named(schema, name)?;
    let mut value = value_of(rt.alloc(), schema, id, digits)?;
    let printed = print_value(rt, schema, id, &mut value, rows);
    drop(value);
    printed
}

fn print_all(rt: &HostRuntime, schema: &Schema, rows: &str) -> Result<()> {
    for block in rows.split("\n\n") {
        print_block(rt, schema, block)?;
    }
    Ok(())
}

/// Prints what comes of each block of plain.txt.
pub fn print_rows(rt: &HostRuntime) -> Result<()> {
    let table = read_table(rt, "plain.json", "plain.txt")?;
    let printed = print_all(rt, &table.schema, table.rows.as_str());
    drop(table);
    printed
}
