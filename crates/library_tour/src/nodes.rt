// Trees that share nodes: built from bytes, edited, upgraded and proved.
ghost use Rattle.std.specs.Prelude.{◌<◌, ◌^◌, length, IfOk};
ghost use Rattle.ssz_arena.specs.Content.{IsNodeOf, KeepsNodes};

use crate::answers::{say_bytes, say_text, told};
use crate::paths::{to_element, to_length};
use crate::sample::Sample;
use crate::values::value_of;
use crate::{versions, views};
use anyhow::{Context, Result};
use ssz_arena::{Arena, NodeId};
use ssz_chunk::ShaPair;
use ssz_edit::set;
use ssz_gindex::Gindex;
use ssz_proof::{proof_text, verify};
use ssz_prove::prove;
use ssz_schema::PathStep;
use ssz_tree::build_bytes;
use ssz_upgrade::upgrade;
use std::alloc::Global;

// The node of the value in which the part at the path has the value of these bytes. An edit makes
// the pairs on its way and shares the rest; the node before it stays as it was.
fn with_part(
    alloc: Global,
    arena: &mut Arena<ShaPair>,
    sample: &Sample,
    node: NodeId,
    path: &[PathStep],
    bytes: &[u8],
) -> Result<NodeId>
    requires node { IsNodeOf arena.old node }
    requires short { length bytes.now < 2 ^ 32 }
    ensures node { IfOk result (IsNodeOf arena.new) }
    ensures keeps { KeepsNodes arena.old arena.new }
{
    let (schema, id) = (&sample.schema, sample.id);
    let part = schema.path_type(id, path).context("no such part")?;
    let value = value_of(alloc, schema, part, bytes)?;
    let answer = set(arena, schema, id, node, path, &value);
    drop(value);
    told(answer)
}

// A proof of the length of `b`, and whether it leads to the root. The node stays one of the arena.
fn show_proof(
    rt: &HostRuntime,
    arena: &mut Arena<ShaPair>,
    sample: &Sample,
    node: NodeId,
    hasher: &mut ShaPair,
) -> Result<()>
    requires { IsNodeOf arena.old node }
    ensures { KeepsNodes arena.old arena.new }
{
    let path = to_length(rt.alloc(), "b")?;
    let index = Gindex::of_path(&sample.schema, sample.id, path.as_slice());
    let index = index.context("no such path")?;
    let root = arena.root(node, hasher);
    let proof = told(prove(arena, node, &[index], hasher))?;
    let text = proof_text(rt.alloc(), &proof)?;
    say_text(rt, "the length of b has the", text.as_slice())?;
    println!(rt; "it leads to the root: {}", verify(&proof, &root, hasher))?;
    Ok(())
}

// The node of the value in which element 4 of `b` is 9. A root hashes the pairs that have none yet.
fn edited(
    rt: &HostRuntime,
    arena: &mut Arena<ShaPair>,
    sample: &Sample,
    old: NodeId,
    hasher: &mut ShaPair,
) -> Result<NodeId>
    requires { IsNodeOf arena.old old }
    ensures node { IfOk result (IsNodeOf arena.new) }
    ensures keeps { KeepsNodes arena.old arena.new }
{
    let path = to_element(rt.alloc(), "b", 4)?;
    let nine = 9u64.to_le_bytes();
    let new = with_part(rt.alloc(), arena, sample, old, path.as_slice(), &nine)?;
    let root = arena.root(new, hasher);
    say_bytes(rt, "edited root", &root.0)?;
    Ok(new)
}

// The node of a value of another container. It shares the nodes of the fields that it takes; the
// others are defaults.
fn upgraded(arena: &mut Arena<ShaPair>, sample: &Sample, node: NodeId) -> Result<NodeId>
    requires { IsNodeOf arena.old node }
    ensures { IfOk result (IsNodeOf arena.new) }
{
    told(upgrade(arena, &sample.schema, sample.id, node, sample.newer))
}

// The edits, and what is read of the result.
fn show_edits(
    rt: &HostRuntime,
    arena: &mut Arena<ShaPair>,
    sample: &Sample,
    old: NodeId,
    hasher: &mut ShaPair,
) -> Result<()>
    requires { IsNodeOf arena.old old }
{
    let new = edited(rt, arena, sample, old, hasher)?;
    show_proof(rt, arena, sample, old, hasher)?;
    versions::show(rt, sample.id, old, new)?;
    let newer = upgraded(arena, sample, new)?;
    let root = arena.root(newer, hasher);
    say_bytes(rt, "upgraded root", &root.0)?;
    views::show(rt, arena, sample, newer)
}

/// The nodes of the value, with no value made; its proof, an edit, and what is read of that.
pub fn show(rt: &HostRuntime, sample: &Sample) -> Result<()> {
    let mut hasher = ShaPair::new();
    let mut arena = Arena::start(rt.alloc(), &mut hasher)?;
    let bytes = sample.bytes.as_slice();
    let old = build_bytes(&mut arena, &sample.schema, sample.id, bytes)?;
    show_edits(rt, &mut arena, sample, old, &mut hasher)
}
