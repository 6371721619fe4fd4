//! What partial trees of proofs answer, for rows of a proof and of calls on its tree.
ghost use Rattle.std.specs.Prelude.{◌≡◌, ◌<◌, length, IfOk};
ghost use Rattle.ssz_schema.specs.Unfolding.{type_of};
ghost use Rattle.ssz_value.specs.Standing.{value_of};
ghost use Rattle.ssz_partial.specs.Partial.{FitsAt};

use anyhow::{Result, bail};
use row_parts::{Digits, cut, parted, path_of, read_table, type_named, value_of};
use ssz_chunk::ShaPair;
use ssz_partial::Partial;
use ssz_proof::{Proof, read_proof};
use ssz_schema::{PathStep, Schema, TypeId};
use ssz_value::Value;
use std::alloc::Global;

fn print_root(rt: &HostRuntime, partial: &Partial) -> Result<()> {
    let root = partial.root(&mut ShaPair::new());
    println!(rt; "root: 0x{}", Digits(root.0.as_slice()))?;
    Ok(())
}

fn print_part(rt: &HostRuntime, schema: &Schema, partial: &Partial, path: &[PathStep]) -> Result<()>
    requires { partial.now.id < length schema.now.trees }
{
    match partial.get(schema, path) {
        Ok(piece) => {
            let chunk = Digits(piece.bytes.0.as_slice());
            println!(rt; "len {}, chunk 0x{chunk}", piece.len)?;
        }
        Err(fault) => println!(rt; "{fault:?}")?,
    }
    Ok(())
}

// The value of the type at the path that the digits encode, or any where the path fits none.
fn value_at(
    alloc: Global,
    schema: &Schema,
    id: TypeId,
    path: &[PathStep],
    digits: &str,
) -> Result<Value>
    requires { id < length schema.now.trees }
    ensures { IfOk result (λ value.
        FitsAt (type_of schema.now id) path.now (value_of value)) }
{
    let Some(part) = schema.path_type(id, path) else {
        return Ok(Value::Bool(false));
    };
    if schema.basic_size(part).is_none() {
        return Ok(Value::Bool(false));
    }
    value_of(alloc, schema, part, digits)
}

fn print_set(
    rt: &HostRuntime,
    schema: &Schema,
    id: TypeId,
    partial: &mut Partial,
    path: &[PathStep],
    digits: &str,
) -> Result<()>
    requires known { id < length schema.now.trees }
    requires same { partial.old.id ≡ id }
    ensures { partial.new.id ≡ id }
{
    let value = value_at(rt.alloc(), schema, id, path, digits)?;
    match partial.set(schema, path, &value) {
        Ok(()) => println!(rt; "ok")?,
        Err(fault) => println!(rt; "{fault:?}")?,
    }
    Ok(())
}

// One call, and what it answers.
fn print_call(
    rt: &HostRuntime,
    schema: &Schema,
    id: TypeId,
    partial: &mut Partial,
    row: &str,
) -> Result<()>
    requires known { id < length schema.now.trees }
    requires same { partial.old.id ≡ id }
    ensures { partial.new.id ≡ id }
{
    if row == "root" {
        return print_root(rt, partial);
    }
    let (call, rest) = parted(row, ' ')?;
    let (word, digits) = cut(rest);
    let path = path_of(rt.alloc(), word)?;
    print!(rt; "{row}: ")?;
    match call {
        "get" => print_part(rt, schema, partial, path.as_slice()),
        "set" => print_set(rt, schema, id, partial, path.as_slice(), digits),
        _ => bail!("no call"),
    }
}

fn proof_of(alloc: Global, row: &str) -> Result<Proof> {
    match read_proof(alloc, row.as_bytes()) {
        Ok(proof) => Ok(proof),
        Err(_) => bail!("no proof"),
    }
}

// The tree of which the proof is known.
fn tree_of_proof(alloc: Global, id: TypeId, row: &str) -> Result<Partial>
    ensures { IfOk result (λ partial. partial.id ≡ id) }
{
    let proof = proof_of(alloc, row)?;
    Ok(Partial::from_proof(alloc, id, &proof)?)
}

// A type, the proof of a value of it, and calls on the tree of which the proof is known.
fn print_block(rt: &HostRuntime, schema: &Schema, block: &str) -> Result<()> {
    let (name, rest) = parted(block, '\n')?;
    let (proof, rows) = parted(rest, '\n')?;
    let id = type_named(schema, name)?;
    let mut partial = tree_of_proof(rt.alloc(), id, proof)?;
    println!(rt; "{name}")?;
    for row in rows.lines() {
        print_call(rt, schema, id, &mut partial, row)?;
    }
    Ok(())
}

fn print_blocks(rt: &HostRuntime, schema: &Schema, rows: &str) -> Result<()> {
    for block in rows.split("\n\n") {
        print_block(rt, schema, block)?;
    }
    Ok(())
}

/// Prints what trees answer for the rows of partial.txt.
pub fn print_subject(rt: &HostRuntime) -> Result<()> {
    let table = read_table(rt, "partial_schema.json", "partial.txt")?;
    print_blocks(rt, &table.schema, table.rows.as_str())
}
