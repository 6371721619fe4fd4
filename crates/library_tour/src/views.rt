// What a tree holds: single parts by views, and the whole value's encoding.
ghost use Rattle.ssz_arena.specs.Content.{IsNodeOf};

use crate::answers::{say_bytes, told};
use crate::sample::Sample;
use anyhow::{Context, Result};
use ssz_arena::{Arena, NodeId};
use ssz_chunk::ShaPair;
use ssz_views::View;
use ssz_writing::{part_len, write_encoding};

// A view reads single parts, and makes no value. While it lives, its arena stays as it is.
fn show_parts(rt: &HostRuntime, view: &View<'_, ShaPair>) -> Result<()> {
    let list = told(view.field("b"))?;
    let count = list.len().context("no list")?;
    let last = told(list.item(4))?.uint().context("no number")?;
    println!(rt; "b has {count} elements, element 4 is {last}")?;
    Ok(())
}

// The encoding straight from the nodes, and its length.
fn show_encoding(
    rt: &HostRuntime,
    arena: &Arena<ShaPair>,
    sample: &Sample,
    node: NodeId,
) -> Result<()>
    requires { IsNodeOf arena.now node }
{
    let len = part_len(arena, &sample.schema, sample.newer, node);
    let mut out = Vec::new(rt.alloc());
    let (schema, id) = (&sample.schema, sample.newer);
    told(write_encoding(arena, schema, id, node, u32::MAX, &mut out))?;
    println!(rt; "its encoding has {len} bytes")?;
    say_bytes(rt, "encoding", out.as_slice())
}

/// Parts and encoding of the node of a value of the type Newer.
pub fn show(rt: &HostRuntime, arena: &Arena<ShaPair>, sample: &Sample, node: NodeId) -> Result<()>
    requires { IsNodeOf arena.now node }
{
    let view = View::new(arena, &sample.schema, sample.newer, node);
    show_parts(rt, &view)?;
    show_encoding(rt, arena, sample, node)
}
