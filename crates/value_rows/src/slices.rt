//! What slices of encoded bytes answer.
//!
//! Blocks are parted by an empty line. The first row of one is `NAME 0xDIGITS`; the others are
//! `at PATH`, by one call, or `steps PATH`, by a call a step. rows/text_rows.py makes the rows, and
//! what must be printed, from the rules of simple-serialize.md alone.
ghost use Rattle.std.specs.Prelude.{◌<◌, ◌^◌, length};

use anyhow::{Context, Result, bail};
use row_parts::{TypedBytes, digits_of, path_of, read_table, typed_bytes};
use ssz_schema::{PathStep, Schema};
use ssz_slices::Slice;
use ssz_value::PathFault;
use std::slice;

// The part that a step leads to, by the call for such a step.
fn next<'s, 'b>(
    part: &Slice<'s, 'b>,
    step: &PathStep,
) -> std::result::Result<Slice<'s, 'b>, PathFault> {
    match step {
        PathStep::Field(name) => match str::from_utf8(name.as_bytes()) {
            Ok(name) => part.field(name),
            Err(_) => Err(PathFault::BadPath),
        },
        PathStep::Index(i) => part.item(*i),
        PathStep::Option(selector) => part.option(*selector),
        PathStep::Len => part.at(slice::from_ref(step)),
        PathStep::Selector => part.at(slice::from_ref(step)),
    }
}

// Each step by its own call.
fn stepped<'s, 'b>(
    whole: &Slice<'s, 'b>,
    path: &[PathStep],
) -> std::result::Result<Slice<'s, 'b>, PathFault> {
    let mut part = whole.at(&[])?;
    for step in path {
        part = next(&part, step)?;
    }
    Ok(part)
}

fn print_bytes(rt: &HostRuntime, bytes: Option<&[u8]>) -> Result<()> {
    match bytes {
        Some(bytes) => {
            let digits = digits_of(rt.alloc(), bytes)?;
            print!(rt; "{digits}")?;
        }
        None => print!(rt; "None")?,
    }
    Ok(())
}

// What each call answers of a slice.
fn print_answers(rt: &HostRuntime, row: &str, part: &Slice<'_, '_>) -> Result<()> {
    let start = part.start();
    print!(rt; "{row}: start {start:?}, bytes ")?;
    print_bytes(rt, part.bytes())?;
    let (len, selector) = (part.len(), part.selector());
    let (uint, boolean) = (part.uint(), part.boolean());
    println!(rt; ", len {len:?}, selector {selector:?}, uint {uint:?}, boolean {boolean:?}")?;
    Ok(())
}

fn print_fault(rt: &HostRuntime, row: &str, fault: PathFault) -> Result<()> {
    println!(rt; "{row}: {fault:?}")?;
    Ok(())
}

// Prints what a row's call answers.
fn print_found(
    rt: &HostRuntime,
    row: &str,
    found: std::result::Result<Slice<'_, '_>, PathFault>,
) -> Result<()> {
    match found {
        Ok(part) => print_answers(rt, row, &part),
        Err(fault) => print_fault(rt, row, fault),
    }
}

fn print_path(
    rt: &HostRuntime,
    whole: &Slice<'_, '_>,
    row: &str,
    call: &str,
    path: &[PathStep],
) -> Result<()> {
    match call {
        "at" => print_found(rt, row, whole.at(path)),
        "steps" => print_found(rt, row, stepped(whole, path)),
        _ => bail!("no call"),
    }
}

fn print_row(rt: &HostRuntime, whole: &Slice<'_, '_>, row: &str) -> Result<()> {
    let (call, word) = row.split_once(' ').context("no path")?;
    let path = path_of(rt.alloc(), word)?;
    let printed = print_path(rt, whole, row, call, path.as_slice());
    drop(path);
    printed
}

fn print_paths(rt: &HostRuntime, whole: &Slice<'_, '_>, rows: &str) -> Result<()> {
    for row in rows.lines() {
        print_row(rt, whole, row)?;
    }
    Ok(())
}

// Prints what comes of paths into the value that the bytes encode, or the bytes' first fault.
fn print_typed(
    rt: &HostRuntime,
    schema: &Schema,
    typed: &TypedBytes,
    first: &str,
    rows: &str,
) -> Result<()>
    requires known { typed.now.id < length schema.now.trees }
    requires short { length typed.now.bytes.items < 2 ^ 32 }
{
    match Slice::new(schema, typed.id, typed.bytes.as_slice()) {
        Ok(whole) => {
            println!(rt; "{first}")?;
            print_paths(rt, &whole, rows)
        }
        Err(fault) => {
            println!(rt; "{first}: fault {} at {}", fault.code, fault.position)?;
            Ok(())
        }
    }
}

// A type and bytes, and paths into the value that they encode.
fn print_block(rt: &HostRuntime, schema: &Schema, block: &str) -> Result<()> {
    let (first, rows) = block.split_once('\n').unwrap_or((block, ""));
    let typed = typed_bytes(rt.alloc(), schema, first)?;
    let printed = print_typed(rt, schema, &typed, first, rows);
    drop(typed);
    printed
}

fn print_all(rt: &HostRuntime, schema: &Schema, rows: &str) -> Result<()> {
    for block in rows.split("\n\n") {
        print_block(rt, schema, block)?;
    }
    Ok(())
}

/// Prints what comes of each block of slices.txt.
pub fn print_rows(rt: &HostRuntime) -> Result<()> {
    let table = read_table(rt, "slices.json", "slices.txt")?;
    let printed = print_all(rt, &table.schema, table.rows.as_str());
    drop(table);
    printed
}
