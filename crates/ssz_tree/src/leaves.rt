ghost use Rattle.std.specs.Prelude.{◌<◌, ◌≡◌, bytes_eq};
ghost use Rattle.ssz_chunk.specs.Chunk.{zero_chunk};
ghost use Rattle.ssz_merkle.specs.Packing.{padded};
ghost use Rattle.ssz_tree.specs.Added.{MakesNode};
ghost use Rattle.ssz_making.specs.Parts.{chunk_part};

use ssz_arena::{Arena, NodeId};
use ssz_chunk::{Chunk, PairHash};
use ssz_merkle::chunk_at;

// Whether it is the zero chunk. Most others differ in the first byte, and `==` calls a function.
#[inline(always)]
fn is_zero(chunk: &Chunk) -> bool
    ensures { result ≡ bytes_eq chunk.now.0 zero_chunk }
{
    if chunk.0[0] != 0 {
        return false;
    }
    *chunk == Chunk::ZERO
}

/// The node of a chunk: a new leaf, or the arena's own where the chunk is zero.
#[inline(always)]
pub fn leaf_node<H: PairHash>(arena: &mut Arena<H>, chunk: &Chunk) -> NodeId
    requires { 0 < arena.old.spare }
    ensures { MakesNode arena.old arena.new (chunk_part chunk.now.0) result }
{
    if is_zero(chunk) {
        return arena.zero(0);
    }
    arena.leaf(*chunk)
}

/// The node of the first chunk of the bytes. Most chunks are whole, and are read where they lie.
#[inline(always)]
pub fn front_node<H: PairHash>(arena: &mut Arena<H>, bytes: &[u8]) -> NodeId
    requires { 0 < arena.old.spare }
    ensures { MakesNode arena.old arena.new (chunk_part (padded bytes.now)) result }
{
    match bytes.first_chunk::<32>() {
        Some(whole) => leaf_node(arena, &Chunk(*whole)),
        None => leaf_node(arena, &chunk_at(bytes, 0)),
    }
}
