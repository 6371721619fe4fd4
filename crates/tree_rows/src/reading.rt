//! What is read of nodes, for rows of a tree and calls on it: the length, the value and the
//! encoding of the whole, and the answers of a view's calls on its parts.
ghost use Rattle.std.specs.Prelude.{◌<◌, length, IfOk};
ghost use Rattle.ssz_arena.specs.Content.{IsNodeOf};

use super::node_text::read_tree;
use super::reading_parts::print_part;
use anyhow::{Result, bail};
use row_parts::{Digits, parted, read_table, type_named};
use ssz_arena::{Arena, NodeId};
use ssz_chunk::{PairHash, XorPair};
use ssz_reading::read_value;
use ssz_schema::{Schema, TypeId};
use ssz_views::View;
use ssz_writing::{part_len, write_encoding};
use std::alloc::Global;

fn print_value<H: PairHash>(
    rt: &HostRuntime,
    schema: &Schema,
    arena: &Arena<H>,
    id: TypeId,
    node: NodeId,
) -> Result<()>
    requires known { id < length schema.now.trees }
    requires node { IsNodeOf arena.now node }
{
    let value = read_value(rt.alloc(), arena, schema, id, node)?;
    println!(rt; "value: {value:?}")?;
    Ok(())
}

// Appends the encoding behind one byte.
fn print_encoding<H: PairHash>(
    rt: &HostRuntime,
    schema: &Schema,
    arena: &Arena<H>,
    id: TypeId,
    node: NodeId,
    max: u32,
) -> Result<()>
    requires known { id < length schema.now.trees }
    requires node { IsNodeOf arena.now node }
{
    let mut out = Vec::new(rt.alloc());
    out.push(7)?;
    let written = write_encoding(arena, schema, id, node, max, &mut out);
    println!(rt; "encoding {max}: {written:?}, 0x{}", Digits(out.as_slice()))?;
    Ok(())
}

// One call on the node of a value of the type.
fn print_row<H: PairHash>(
    rt: &HostRuntime,
    schema: &Schema,
    arena: &Arena<H>,
    id: TypeId,
    node: NodeId,
    row: &str,
) -> Result<()>
    requires known { id < length schema.now.trees }
    requires node { IsNodeOf arena.now node }
{
    if row == "length" {
        let len = part_len(arena, schema, id, node);
        println!(rt; "length: {len}")?;
        return Ok(());
    }
    if row == "value" {
        return print_value(rt, schema, arena, id, node);
    }
    let (call, word) = parted(row, ' ')?;
    if call == "encoding" {
        return print_encoding(rt, schema, arena, id, node, word.parse()?);
    }
    print_part(rt, &View::new(arena, schema, id, node), call, word)
}

// The node of the one tree that the text spells.
fn whole_tree<H: PairHash>(alloc: Global, arena: &mut Arena<H>, text: &str) -> Result<NodeId>
    ensures { IfOk result (IsNodeOf arena.new) }
{
    let (node, rest) = read_tree(alloc, arena, text, 100)?;
    if !rest.is_empty() {
        bail!("more than a tree");
    }
    Ok(node)
}

// A type and the tree of a value of it, and calls on its node.
fn print_block(rt: &HostRuntime, schema: &Schema, block: &str) -> Result<()> {
    let (first, rows) = parted(block, '\n')?;
    let (name, tree) = parted(first, ' ')?;
    let id = type_named(schema, name)?;
    let mut arena = Arena::start(rt.alloc(), &mut XorPair::new())?;
    let node = whole_tree(rt.alloc(), &mut arena, tree)?;
    println!(rt; "{name}")?;
    for row in rows.lines() {
        print_row(rt, schema, &arena, id, node, row)?;
    }
    Ok(())
}

fn print_blocks(rt: &HostRuntime, schema: &Schema, rows: &str) -> Result<()> {
    for block in rows.split("\n\n") {
        print_block(rt, schema, block)?;
    }
    Ok(())
}

/// Prints what is read for the rows of reading.txt.
pub fn print_subject(rt: &HostRuntime) -> Result<()> {
    let table = read_table(rt, "reading_schema.json", "reading.txt")?;
    print_blocks(rt, &table.schema, table.rows.as_str())
}
