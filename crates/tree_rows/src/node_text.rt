ghost use Rattle.std.specs.Prelude.{◌≤◌, IfOk};
ghost use Rattle.ssz_arena.specs.Content.{IsNodeOf, node_count};

use anyhow::{Result, bail};
use row_parts::bytes_of;
use ssz_arena::{Arena, NodeId};
use ssz_chunk::{Chunk, LEVELS, PairHash};
use std::alloc::Global;

/// The node of the tree that the text begins with, and the rest of the text. A tree is the bytes
/// that a leaf begins with, the others zero; or zD, the zero tree of depth D; or + before two
/// trees. It is at most so deep.
pub fn read_tree<'a, H: PairHash>(
    alloc: Global,
    arena: &mut Arena<H>,
    text: &'a str,
    depth: u32,
) -> Result<(NodeId, &'a str)>
    ensures node { IfOk result (λ read. IsNodeOf arena.new read.0) }
    ensures more { IfOk result (λ _. node_count arena.old ≤ node_count arena.new) }
{
    let (word, rest) = text.split_once(' ').unwrap_or((text, ""));
    if word != "+" {
        return Ok((read_end(alloc, arena, word)?, rest));
    }
    if depth == 0 {
        bail!("too deep");
    }
    let (left, rest) = read_tree(alloc, arena, rest, depth - 1)?;
    let (right, rest) = read_tree(alloc, arena, rest, depth - 1)?;
    Ok((paired(arena, left, right)?, rest))
}

// The node of a pair, in room that is made for it.
fn paired<H: PairHash>(arena: &mut Arena<H>, left: NodeId, right: NodeId) -> Result<NodeId>
    requires left { IsNodeOf arena.old left }
    requires right { IsNodeOf arena.old right }
    ensures node { IfOk result (IsNodeOf arena.new) }
    ensures more { IfOk result (λ _. node_count arena.old ≤ node_count arena.new) }
{
    arena.reserve(1)?;
    Ok(arena.pair(left, right))
}

// A zero tree or a leaf.
fn read_end<H: PairHash>(alloc: Global, arena: &mut Arena<H>, word: &str) -> Result<NodeId>
    ensures node { IfOk result (IsNodeOf arena.new) }
    ensures more { IfOk result (λ _. node_count arena.old ≤ node_count arena.new) }
{
    if let Some(digits) = word.strip_prefix("z") {
        return zero_tree(arena, digits.parse()?);
    }
    let chunk = chunk_of(alloc, word)?;
    arena.reserve(1)?;
    Ok(arena.leaf(chunk))
}

// The chunk that begins with the bytes of the digits.
fn chunk_of(alloc: Global, word: &str) -> Result<Chunk> {
    let Some(digits) = word.strip_prefix("0x") else {
        bail!("no tree");
    };
    let bytes = bytes_of(alloc, digits)?;
    if bytes.len() > 32 {
        bail!("no chunk");
    }
    let mut chunk = [0; 32];
    chunk[..bytes.len()].copy_from_slice(bytes.as_slice());
    Ok(Chunk(chunk))
}

fn zero_tree<H: PairHash>(arena: &Arena<H>, depth: u32) -> Result<NodeId>
    ensures { IfOk result (IsNodeOf arena.now) }
{
    if depth > LEVELS {
        bail!("too deep");
    }
    Ok(arena.zero(depth))
}
