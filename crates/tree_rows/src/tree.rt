//! What is made for values of every form of a type.
//!
//! A row is the name of a type and the bytes of a value of it, or `default` and the name of a type.
//! Its line has the root of the node, how many nodes were added for it, and how many pairs were
//! hashed for the root; all three must come out alike from the bytes and from the value.
ghost use Rattle.std.specs.Prelude.{◌<◌, ◌^◌, length};
ghost use Rattle.ssz_schema.specs.Unfolding.{type_of};
ghost use Rattle.ssz_value.specs.Standing.{IsValue};
ghost use Rattle.ssz_arena.specs.Content.{IsNodeOf};

use anyhow::{Result, bail};
use row_parts::{Digits, bytes_of, cut, parted, read_table, type_named, value_of};
use ssz_arena::{Arena, NodeId};
use ssz_chunk::{Chunk, PairHash, ShaPair};
use ssz_codec::check;
use ssz_schema::{Schema, TypeId};
use ssz_tree::{build, build_bytes, build_default, nodes_needed, reserve_nodes, value_node};
use ssz_value::Value;
use std::alloc::Global;

// What a line says of a node.
#[derive(Clone, Copy, PartialEq)]
struct Made {
    root: Chunk,
    nodes: usize,
    pairs: u64,
}

// Of a node that was made when the arena had so many nodes.
fn asked<H: PairHash>(arena: &mut Arena<H>, before: usize, node: NodeId, hasher: &mut H) -> Made
    requires { IsNodeOf arena.old node }
{
    let nodes = arena.len().saturating_sub(before);
    let count = hasher.count();
    let root = arena.root(node, hasher);
    Made {
        root,
        nodes,
        pairs: hasher.count().saturating_sub(count),
    }
}

// Of the node of bytes.
fn of_bytes<H: PairHash>(
    arena: &mut Arena<H>,
    schema: &Schema,
    id: TypeId,
    bytes: &[u8],
    hasher: &mut H,
) -> Result<Made>
    requires known { id < length schema.now.trees }
    requires short { length bytes.now < 2 ^ 32 }
{
    if let Some(fault) = check(schema, id, bytes) {
        bail!("{fault:?}");
    }
    let before = arena.len();
    let node = build_bytes(arena, schema, id, bytes)?;
    Ok(asked(arena, before, node, hasher))
}

// Of the node of a value, which that made in room that is there already must equal.
fn of_value<H: PairHash>(
    arena: &mut Arena<H>,
    schema: &Schema,
    id: TypeId,
    value: &Value,
    hasher: &mut H,
) -> Result<Made>
    requires known { id < length schema.now.trees }
    requires value { IsValue (type_of schema.now id) value.now }
{
    let before = arena.len();
    let node = build(arena, schema, id, value)?;
    let from_value = asked(arena, before, node, hasher);
    let needed = nodes_needed(schema, id, value);
    reserve_nodes(arena, needed as u64)?;
    let before = arena.len();
    let node = value_node(arena, schema, id, value);
    if asked(arena, before, node, hasher) != from_value {
        bail!("another node in room that is there");
    }
    if needed < from_value.nodes {
        bail!("more nodes than are needed");
    }
    Ok(from_value)
}

// Of the node of the value that the digits encode.
fn of_decoded<H: PairHash>(
    alloc: Global,
    arena: &mut Arena<H>,
    schema: &Schema,
    id: TypeId,
    digits: &str,
    hasher: &mut H,
) -> Result<Made>
    requires { id < length schema.now.trees }
{
    let value = value_of(alloc, schema, id, digits)?;
    of_value(arena, schema, id, &value, hasher)
}

// Of the node of the bytes of the digits.
fn of_encoded<H: PairHash>(
    alloc: Global,
    arena: &mut Arena<H>,
    schema: &Schema,
    id: TypeId,
    digits: &str,
    hasher: &mut H,
) -> Result<Made>
    requires { id < length schema.now.trees }
{
    let bytes = bytes_of(alloc, digits)?;
    of_bytes(arena, schema, id, bytes.as_slice(), hasher)
}

// Of both, which must be alike.
fn of_digits<H: PairHash>(
    alloc: Global,
    arena: &mut Arena<H>,
    schema: &Schema,
    id: TypeId,
    digits: &str,
    hasher: &mut H,
) -> Result<Made>
    requires { id < length schema.now.trees }
{
    let made = of_encoded(alloc, arena, schema, id, digits, hasher)?;
    if of_decoded(alloc, arena, schema, id, digits, hasher)? != made {
        bail!("the value has another node than its bytes");
    }
    Ok(made)
}

// Of the node of the default of the type.
fn of_default<H: PairHash>(
    arena: &mut Arena<H>,
    schema: &Schema,
    id: TypeId,
    hasher: &mut H,
) -> Result<Made>
    requires { id < length schema.now.trees }
{
    let before = arena.len();
    let node = build_default(arena, schema, id)?;
    Ok(asked(arena, before, node, hasher))
}

// Of a row: a type and bytes, or `default` and a type.
fn of_row<H: PairHash>(
    alloc: Global,
    arena: &mut Arena<H>,
    schema: &Schema,
    row: &str,
    hasher: &mut H,
) -> Result<Made> {
    let (first, second) = parted(row, ' ')?;
    if first == "default" {
        return of_default(arena, schema, type_named(schema, second)?, hasher);
    }
    let id = type_named(schema, first)?;
    let Some(digits) = second.strip_prefix("0x") else {
        bail!("no bytes");
    };
    of_digits(alloc, arena, schema, id, digits, hasher)
}

fn print_made(rt: &HostRuntime, words: &str, made: &Made) -> Result<()> {
    let root = Digits(made.root.0.as_slice());
    println!(rt; "{words} {root} {} {}", made.nodes, made.pairs)?;
    Ok(())
}

// Prints a line for each row.
fn print_rows(rt: &HostRuntime, schema: &Schema, rows: &str) -> Result<()> {
    let mut hasher = ShaPair::new();
    let mut arena = Arena::start(rt.alloc(), &mut hasher)?;
    for row in rows.lines() {
        let made = of_row(rt.alloc(), &mut arena, schema, row, &mut hasher)?;
        print_made(rt, cut(row).0, &made)?;
    }
    Ok(())
}

/// Prints what is made for the rows of tree.txt.
pub fn print_subject(rt: &HostRuntime) -> Result<()> {
    let table = read_table(rt, "tree_schema.json", "tree.txt")?;
    print_rows(rt, &table.schema, table.rows.as_str())
}
