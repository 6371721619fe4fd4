// Reads or sets elements all over a list of numbers of which a proof is known, so many times:
// SCHEMA TYPE PROOF LENGTH get|set TIMES.
ghost use Rattle.std.specs.Prelude.{◌≡◌, ◌<◌, length, IfOk};
ghost use Rattle.ssz_schema.specs.Unfolding.{type_of};
ghost use Rattle.ssz_value.specs.Standing.{value_of};
ghost use Rattle.ssz_partial.specs.Partial.{FitsAt};

use anyhow::{Context, Result, bail};
use bench_values::inputs::{Typed, large_number, number, read_type};
use bench_values::paths::nth_element;
use ssz_codec::decode;
use ssz_partial::Partial;
use ssz_proof::{Proof, read_proof};
use ssz_schema::{PathStep, Schema, TypeId};
use ssz_value::Value;
use std::alloc::Global;
use std::{fs, slice};

const USAGE: &str = "usage: bench partial SCHEMA TYPE PROOF LENGTH get|set TIMES";

// The uint64 of this number, for a path that leads to one; any value for another path.
fn value_at(
    alloc: Global,
    schema: &Schema,
    id: TypeId,
    path: &[PathStep],
    number: u64,
) -> Result<Value>
    requires { id < length schema.now.trees }
    ensures { IfOk result (λ value. FitsAt (type_of schema.now id) path.now (value_of value)) }
{
    let Some(part) = schema.path_type(id, path) else {
        return Ok(Value::Bool(false));
    };
    if schema.basic_size(part).is_none() {
        return Ok(Value::Bool(false));
    }
    let Ok(value) = decode(alloc, schema, part, &number.to_le_bytes()) else {
        bail!("no uint64");
    };
    Ok(value)
}

// The first byte of the part at the path.
fn first_byte(typed: &Typed, partial: &Partial, path: &[PathStep]) -> Result<u8>
    requires { partial.now.id ≡ typed.now.id }
{
    match partial.get(&typed.schema, path) {
        Ok(piece) => Ok(piece.bytes.0[0]),
        Err(fault) => bail!("{fault:?}"),
    }
}

// Sets the part at the path to this number.
fn set_number(
    alloc: Global,
    typed: &Typed,
    partial: &mut Partial,
    path: &[PathStep],
    number: u64,
) -> Result<()>
    requires { partial.old.id ≡ typed.now.id }
    ensures { partial.new.id ≡ typed.now.id }
{
    let value = value_at(alloc, &typed.schema, typed.id, path, number)?;
    let answer = partial.set(&typed.schema, path, &value);
    drop(value);
    match answer {
        Ok(()) => Ok(()),
        Err(fault) => bail!("{fault:?}"),
    }
}

// The sum of the first bytes of so many elements.
fn gets(typed: &Typed, partial: &Partial, len: u64, times: u32) -> Result<u64>
    requires same { partial.now.id ≡ typed.now.id }
    requires some { 0 < len }
{
    let mut sum = 0u64;
    for i in 0..times {
        let step = PathStep::Index(nth_element(i, len));
        let read = first_byte(typed, partial, slice::from_ref(&step))?;
        sum = sum.wrapping_add(u64::from(read));
    }
    Ok(sum)
}

// Sets so many elements.
fn sets(alloc: Global, typed: &Typed, partial: &mut Partial, len: u64, times: u32) -> Result<()>
    requires same { partial.old.id ≡ typed.now.id }
    requires some { 0 < len }
{
    for i in 0..times {
        let step = PathStep::Index(nth_element(i, len));
        let number = u64::from(i);
        set_number(alloc, typed, partial, slice::from_ref(&step), number)?;
    }
    Ok(())
}

// So many calls; the sum of what was read.
fn calls(
    alloc: Global,
    typed: &Typed,
    partial: &mut Partial,
    len: u64,
    what: &str,
    times: u32,
) -> Result<u64>
    requires { partial.old.id ≡ typed.now.id }
{
    if len == 0 {
        bail!("no elements");
    }
    if what == "set" {
        sets(alloc, typed, partial, len, times)?;
        return Ok(0);
    }
    gets(typed, partial, len, times)
}

fn proof_in(rt: &HostRuntime, path: &str) -> Result<Proof> {
    let text = fs::read(rt, path)?;
    match read_proof(rt.alloc(), text.as_slice()) {
        Ok(proof) => Ok(proof),
        Err(_) => bail!("no proof"),
    }
}

// The tree of the proof of a file.
fn partial_in(rt: &HostRuntime, id: TypeId, path: &str) -> Result<Partial>
    ensures { IfOk result (λ partial. partial.id ≡ id) }
{
    let proof = proof_in(rt, path)?;
    Ok(Partial::from_proof(rt.alloc(), id, &proof)?)
}

// The same with the tree of the proof of a file.
fn work(
    rt: &HostRuntime,
    typed: &Typed,
    proof: &str,
    len: u64,
    what: &str,
    times: u32,
) -> Result<u64> {
    let mut partial = partial_in(rt, typed.id, proof)?;
    let sum = calls(rt.alloc(), typed, &mut partial, len, what, times);
    drop(partial);
    sum
}

/// Does the work of the words, and says the sum of what was read.
pub fn run(rt: &HostRuntime, words: &[String]) -> Result<()> {
    let [schema, name, proof, len, what, times] = words else {
        bail!(USAGE);
    };
    let (len, times) = (large_number(len)?, number(times)?);
    let typed = read_type(rt, schema, name)?;
    let sum = work(rt, &typed, proof, len, what, times);
    drop(typed);
    println!(rt; "{}", sum?)?;
    Ok(())
}
