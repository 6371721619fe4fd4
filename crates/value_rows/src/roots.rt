//! The roots of values of every form of a type.
//!
//! A row is `NAME 0xDIGITS`. Its line has the root, which must come out alike from the bytes and
//! from the value, and the pairs that were hashed for it. The wanted lines come from hashlib of
//! Python, over the definition of hash_tree_root in simple-serialize.md.
ghost use Rattle.std.specs.Prelude.{◌≡◌, ◌<◌, ◌^◌, None, length};
ghost use Rattle.ssz_schema.specs.Unfolding.{type_of};
ghost use Rattle.ssz_value.specs.Faults.{first_fault};

use anyhow::{Result, bail};
use row_parts::{TypedBytes, read_table, typed_bytes, value_in};
use ssz_chunk::{Chunk, PairHash, ShaPair, ZeroTable};
use ssz_codec::check;
use ssz_roots::{root_of_bytes, root_of_value};
use ssz_schema::{Schema, TypeId};

// The root of the value that the bytes encode.
fn value_root(
    rt: &HostRuntime,
    schema: &Schema,
    typed: &TypedBytes,
    zeros: &ZeroTable<ShaPair>,
    hasher: &mut ShaPair,
) -> Result<Chunk>
    requires known { typed.now.id < length schema.now.trees }
    requires short { length typed.now.bytes.items < 2 ^ 32 }
{
    let value = value_in(rt.alloc(), schema, typed.id, typed.bytes.as_slice())?;
    Ok(root_of_value(schema, typed.id, &value, zeros, hasher))
}

fn print_root(rt: &HostRuntime, name: &str, root: &Chunk, pairs: u64) -> Result<()> {
    let digits = hex::encode(rt.alloc(), root.0.as_slice())?;
    println!(rt; "{name} {digits} {pairs}")?;
    Ok(())
}

fn print_answer(
    rt: &HostRuntime,
    schema: &Schema,
    row: &str,
    typed: &TypedBytes,
    zeros: &ZeroTable<ShaPair>,
    hasher: &mut ShaPair,
) -> Result<()>
    requires known { typed.now.id < length schema.now.trees }
    requires short { length typed.now.bytes.items < 2 ^ 32 }
{
    let bytes = typed.bytes.as_slice();
    if check(schema, typed.id, bytes).is_some() {
        bail!("a fault");
    }
    let before = hasher.count();
    let root = root_of_bytes(schema, typed.id, bytes, zeros, hasher);
    let pairs = hasher.count().saturating_sub(before);
    if value_root(rt, schema, typed, zeros, hasher)? != root {
        bail!("the value has another root than its bytes");
    }
    let name = row.split(' ').next().unwrap_or(row);
    print_root(rt, name, &root, pairs)
}

fn print_row(
    rt: &HostRuntime,
    schema: &Schema,
    row: &str,
    zeros: &ZeroTable<ShaPair>,
    hasher: &mut ShaPair,
) -> Result<()> {
    let typed = typed_bytes(rt.alloc(), schema, row)?;
    let printed = print_answer(rt, schema, row, &typed, zeros, hasher);
    drop(typed);
    printed
}

fn print_all(rt: &HostRuntime, schema: &Schema, rows: &str) -> Result<()> {
    let mut hasher = ShaPair::new();
    let zeros = ZeroTable::new(&mut hasher);
    for row in rows.lines() {
        print_row(rt, schema, row, &zeros, &mut hasher)?;
    }
    Ok(())
}

/// Prints what comes of each row of roots.txt.
pub fn print_rows(rt: &HostRuntime) -> Result<()> {
    let table = read_table(rt, "roots.json", "roots.txt")?;
    let printed = print_all(rt, &table.schema, table.rows.as_str());
    drop(table);
    printed
}
