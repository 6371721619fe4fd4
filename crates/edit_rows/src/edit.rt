//! Edits of values of every form on nodes.
//!
//! `new` names a type and has the bytes of its value; the other rows edit the value at hand, `keep`
//! keeps the one at hand and `swap` exchanges it with the one that was kept. A row's line has the
//! root of the value afterwards, or why it was not edited. The wanted root is always that of the
//! whole value made anew.
ghost use Rattle.std.specs.Prelude.{◌≡◌, ◌<◌, length, IfOk, IfSome};
ghost use Rattle.ssz_arena.specs.Content.{IsNodeOf, node_count};
ghost use Rattle.edit_rows.specs.Versions.{AreRowVersions};

use super::edit_calls::edited;
use anyhow::{Result, bail};
use row_parts::{Digits, cut, read_table, type_named, value_of};
use ssz_arena::{Arena, NodeId};
use ssz_chunk::{PairHash, ShaPair};
use ssz_schema::{Schema, TypeId};
use ssz_tree::build;
use std::alloc::Global;

/// The type of a value, its node, and the one that was kept.
#[derive(Clone, Copy, Debug)]
pub struct Versions {
    pub id: TypeId,
    pub now: NodeId,
    pub kept: NodeId,
}

// A new value, which is kept too, by the row `new TYPE BYTES`.
fn started<H: PairHash>(
    alloc: Global,
    arena: &mut Arena<H>,
    schema: &Schema,
    row: &str,
) -> Result<Versions>
    ensures { IfOk result (AreRowVersions schema.now arena.new) }
{
    let (words, digits) = cut(row);
    let id = new_type(schema, words)?;
    let node = built(alloc, arena, schema, id, digits)?;
    Ok(Versions {
        id,
        now: node,
        kept: node,
    })
}

// The type of the words `new TYPE`.
fn new_type(schema: &Schema, words: &str) -> Result<TypeId>
    ensures { IfOk result (λ id. id < length schema.now.trees) }
{
    match words.strip_prefix("new ") {
        Some(name) => type_named(schema, name),
        None => bail!("no name"),
    }
}

// The node of the value that the digits encode.
fn built<H: PairHash>(
    alloc: Global,
    arena: &mut Arena<H>,
    schema: &Schema,
    id: TypeId,
    digits: &str,
) -> Result<NodeId>
    requires { id < length schema.now.trees }
    ensures { IfOk result (IsNodeOf arena.new) }
{
    let value = value_of(alloc, schema, id, digits)?;
    Ok(build(arena, schema, id, &value)?)
}

// Prints the words of a row with the root of a node.
fn print_root<H: PairHash>(
    rt: &HostRuntime,
    arena: &mut Arena<H>,
    hasher: &mut H,
    row: &str,
    node: NodeId,
) -> Result<()>
    requires { IsNodeOf arena.old node }
    ensures { node_count arena.new ≡ node_count arena.old }
{
    let root = arena.root(node, hasher);
    println!(rt; "{} {}", cut(row).0, Digits(root.0.as_slice()))?;
    Ok(())
}

// The versions after an edit of the one at hand, with its line.
fn after_edit<H: PairHash>(
    rt: &HostRuntime,
    arena: &mut Arena<H>,
    schema: &Schema,
    hasher: &mut H,
    old: &Versions,
    row: &str,
) -> Result<Versions>
    requires { AreRowVersions schema.now arena.old old.now }
    ensures { IfOk result (AreRowVersions schema.now arena.new) }
{
    match edited(rt.alloc(), arena, schema, old, row)? {
        Ok(made) => {
            print_root(rt, arena, hasher, row, made)?;
            Ok(Versions {
                id: old.id,
                now: made,
                kept: old.kept,
            })
        }
        Err(fault) => {
            println!(rt; "{} {fault:?}", cut(row).0)?;
            Ok(Versions {
                id: old.id,
                now: old.now,
                kept: old.kept,
            })
        }
    }
}

// What a row makes of the versions, with its line.
fn step<H: PairHash>(
    rt: &HostRuntime,
    arena: &mut Arena<H>,
    schema: &Schema,
    hasher: &mut H,
    versions: Option<Versions>,
    row: &str,
) -> Result<Versions>
    requires { IfSome versions (AreRowVersions schema.now arena.old) }
    ensures { IfOk result (AreRowVersions schema.now arena.new) }
{
    if row.starts_with("new ") {
        let new = started(rt.alloc(), arena, schema, row)?;
        print_root(rt, arena, hasher, row, new.now)?;
        return Ok(new);
    }
    let Some(old) = versions else {
        bail!("no value yet");
    };
    if row == "keep" {
        return Ok(Versions {
            id: old.id,
            now: old.now,
            kept: old.now,
        });
    }
    if row == "swap" {
        print_root(rt, arena, hasher, row, old.kept)?;
        return Ok(Versions {
            id: old.id,
            now: old.kept,
            kept: old.now,
        });
    }
    after_edit(rt, arena, schema, hasher, &old, row)
}

// Prints a line for each row.
fn print_rows(rt: &HostRuntime, schema: &Schema, rows: &str) -> Result<()> {
    let mut hasher = ShaPair::new();
    let mut arena = Arena::start(rt.alloc(), &mut hasher)?;
    let mut versions = None;
    for row in rows.lines() {
        versions = Some(step(rt, &mut arena, schema, &mut hasher, versions, row)?);
    }
    Ok(())
}

/// Prints what the edits of the rows of edit.txt lead to.
pub fn print_subject(rt: &HostRuntime) -> Result<()> {
    let table = read_table(rt, "edit_schema.json", "edit.txt")?;
    print_rows(rt, &table.schema, table.rows.as_str())
}
