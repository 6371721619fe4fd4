//! The bytes of chunks, appended.
ghost use Rattle.std.specs.Prelude.{ℕ, ◌≡◌, ◌<◌, ◌≤◌, ◌+◌, ◌*◌, ◌++◌, All, List, drop, length, take, OnOk};
ghost use Rattle.ssz_chunk.specs.Tree.{leaf};
ghost use Rattle.ssz_arena.specs.Content.{IsNodeOf, tree_of};
ghost use Rattle.ssz_nodes.specs.Shown.{AreChunksFrom, ArePacked, ExtendsBytes};

use super::nodes::chunk_of;
use super::places::{Places, Top, node_of_place};
use ssz_arena::{Arena, NodeId};
use ssz_chunk::PairHash;
use std::alloc::AllocError;

// So many chunks are copied at once: few enough that the room for them is still near when they are.
const AT_ONCE: usize = 32;

/// Appends the first len bytes of the chunks at the places of a full tree.
pub fn append_chunks<H: PairHash>(
    arena: &Arena<H>,
    top: Top,
    len: u128,
    out: &mut Vec<u8>,
) -> Result<(), AllocError>
    requires depth { top.depth < 64 }
    requires node { IsNodeOf arena.now top.node }
    ensures kept { ExtendsBytes out.old.items out.new.items }
    ensures long { OnOk result (length out.new.items ≡ length out.old.items + len) }
    ensures bytes { (bytes : List ℕ) → ArePacked top.depth len bytes (tree_of arena.now top.node)
        → OnOk result (out.new.items ≡ out.old.items ++ bytes) }
{
    if len <= 32 {
        let first = node_of_place(arena, top, 0);
        return append_leaf(arena, len as usize, first, out);
    }
    append_many(arena, top, len, out)
}

// The same of more than a chunk. It is a function of its own, so that room for the places to come
// is made only here.
fn append_many<H: PairHash>(
    arena: &Arena<H>,
    top: Top,
    len: u128,
    out: &mut Vec<u8>,
) -> Result<(), AllocError>
    requires depth { top.depth < 64 }
    requires node { IsNodeOf arena.now top.node }
    ensures kept { ExtendsBytes out.old.items out.new.items }
    ensures long { OnOk result (length out.new.items ≡ length out.old.items + len) }
    ensures bytes { (bytes : List ℕ) → ArePacked top.depth len bytes (tree_of arena.now top.node)
        → OnOk result (out.new.items ≡ out.old.items ++ bytes) }
{
    let mut places = Places::new(top);
    let mut left = len;
    while left > 32 {
        places.refill(arena);
        let row = places.row();
        let most = (left / 32).min(AT_ONCE as u128) as usize;
        let chunks = row.len().min(most);
        append_row(arena, &row[..chunks], out)?;
        places.skip(chunks);
        left -= 32 * chunks as u128;
    }
    if left == 0 {
        return Ok(());
    }
    append_leaf(arena, left as usize, places.next(arena), out)
}

// Appends the chunks of a row. Room for all of them is made at once, so that each is no more than
// copied.
#[inline(always)]
fn append_row<H: PairHash>(
    arena: &Arena<H>,
    row: &[NodeId],
    out: &mut Vec<u8>,
) -> Result<(), AllocError>
    requires few { length row.now ≤ 32 }
    requires nodes { All (IsNodeOf arena.now) row.now }
    ensures kept { ExtendsBytes out.old.items out.new.items }
    ensures long { OnOk result
        (length out.new.items ≡ length out.old.items + 32 * length row.now) }
    ensures bytes { (bytes : List ℕ) (j : ℕ) → AreChunksFrom arena.now bytes j row.now
        → 32 * (j + length row.now) ≤ length bytes
        → OnOk result (out.new.items
        ≡ out.old.items ++ take (32 * length row.now) (drop (32 * j) bytes)) }
{
    let start = out.len();
    out.resize(start + 32 * row.len(), 0)?;
    copy_row(arena, row, &mut out[start..]);
    Ok(())
}

// Copies the chunks of a row into the room for them.
#[inline(always)]
fn copy_row<H: PairHash>(arena: &Arena<H>, row: &[NodeId], room: &mut [u8])
    requires nodes { All (IsNodeOf arena.now) row.now }
    requires room { length room.old ≡ 32 * length row.now }
    ensures long { length room.new ≡ length room.old }
    ensures bytes { (bytes : List ℕ) (j : ℕ) → AreChunksFrom arena.now bytes j row.now
        → 32 * (j + length row.now) ≤ length bytes
        → room.new ≡ take (32 * length row.now) (drop (32 * j) bytes) }
{
    for (i, node) in row.iter().enumerate() {
        room[32 * i..32 * i + 32].copy_from_slice(&chunk_of(arena, *node).0);
    }
}

/// The first len bytes of the chunks at the places of a full tree, where the first has them all.
pub fn few_bytes<H: PairHash>(arena: &Arena<H>, top: Top, len: usize) -> &[u8]
    requires depth { top.depth < 64 }
    requires node { IsNodeOf arena.now top.node }
    requires few { len ≤ 32 }
    ensures { (bytes : List ℕ) → ArePacked top.depth len bytes (tree_of arena.now top.node)
        → result.now ≡ bytes }
{
    let first = node_of_place(arena, top, 0);
    let chunk = chunk_of(arena, first);
    &chunk.0[..len]
}

/// Appends the first len bytes of the chunk of a leaf. The whole chunk is copied, and the others of
/// its bytes taken away again, since the compiler then knows how many bytes it copies.
#[inline(always)]
pub fn append_leaf<H: PairHash>(
    arena: &Arena<H>,
    len: usize,
    node: NodeId,
    out: &mut Vec<u8>,
) -> Result<(), AllocError>
    requires len { len ≤ 32 }
    requires node { IsNodeOf arena.now node }
    ensures kept { ExtendsBytes out.old.items out.new.items }
    ensures long { OnOk result (length out.new.items ≡ length out.old.items + len) }
    ensures bytes { (chunk : List ℕ) → tree_of arena.now node ≡ leaf chunk
        → OnOk result (out.new.items ≡ out.old.items ++ take len chunk) }
{
    let chunk = chunk_of(arena, node);
    let end = out.len() + len;
    out.extend_from_slice(&chunk.0)?;
    out.truncate(end);
    Ok(())
}
