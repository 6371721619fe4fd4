//! What is read off types, and what is wrong with schema documents.
//!
//! A row is `schema DOCUMENT`, of which the others then speak, `type NAME`, `path NAME PATH`,
//! `index NAME PATH` or `helpers INDEX..`. Each prints a line. The wanted lines follow by hand from
//! the limits of docs/formats.md and from merkle-proofs.md.
mod facts;
mod indices;

use anyhow::{Context, Result, bail};
use facts::{print_facts, print_part};
use indices::{print_helpers, print_index};
use ssz_schema::Schema;
use ssz_schema_json::{SchemaRead, read_schema};
use std::{fs, mem};

// Prints what is wrong with a document, by its code.
fn print_fault(rt: &HostRuntime, fault: SchemaRead) -> Result<()> {
    match fault {
        SchemaRead::NotJson => println!(rt; "S1")?,
        SchemaRead::Shape => println!(rt; "S2")?,
        SchemaRead::Def { number, fault } => {
            let code = fault.code();
            println!(rt; "S{code} in definition {number}")?;
        }
        SchemaRead::Memory => bail!("want of memory"),
    }
    Ok(())
}

// Takes the schema of the document in the place of the one before, or prints what is wrong with it.
fn take_schema(rt: &HostRuntime, schema: &mut Schema, document: &str) -> Result<()> {
    match read_schema(rt.alloc(), document.as_bytes()) {
        Ok(next) => {
            drop(mem::replace(schema, next));
            println!(rt; "accepted")?;
            Ok(())
        }
        Err(fault) => print_fault(rt, fault),
    }
}

// Prints the answer to a row that asks about types.
fn print_answer(rt: &HostRuntime, schema: &Schema, kind: &str, names: &str) -> Result<()> {
    if kind == "type" {
        return print_facts(rt, schema, names);
    }
    if kind == "helpers" {
        return print_helpers(rt, names);
    }
    let (name, path) = names.split_once(' ').context("two words")?;
    match kind {
        "path" => print_part(rt, schema, name, path),
        "index" => print_index(rt, schema, name, path),
        _ => bail!("no such row"),
    }
}

fn print_row(rt: &HostRuntime, schema: &mut Schema, row: &str) -> Result<()> {
    let (kind, rest) = row.split_once(' ').context("a word and what it is of")?;
    if kind == "schema" {
        return take_schema(rt, schema, rest);
    }
    print_answer(rt, schema, kind, rest)
}

fn print_all(rt: &HostRuntime, schema: &mut Schema, rows: &str) -> Result<()> {
    for row in rows.lines() {
        print_row(rt, schema, row)?;
    }
    Ok(())
}

/// Prints what comes of each row of schema.txt.
pub fn print_rows(rt: &HostRuntime) -> Result<()> {
    let rows = fs::read_to_string(rt, "schema.txt")?;
    let mut schema = Schema::empty(rt.alloc())?;
    let printed = print_all(rt, &mut schema, rows.as_str());
    drop(schema);
    printed
}
