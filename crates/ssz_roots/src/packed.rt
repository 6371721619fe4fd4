ghost use Rattle.std.specs.Prelude.{◌≡◌, ◌+◌, ◌/◌, ◌^◌, ◌≤◌, length};
ghost use Rattle.ssz_chunk.specs.Chunk.{CountsUp};
ghost use Rattle.ssz_chunk.specs.Tree.{root, merkle_tree, merkle_pairs};
ghost use Rattle.ssz_merkle.specs.Frontier.{leaves};
ghost use Rattle.ssz_value.specs.Trees.{pack};

use super::rows::push_chunk_rows;
use ssz_chunk::{Chunk, PairHash, ZeroTable};
use ssz_merkle::{Accumulator, chunk_at};

/// The root of the full tree of this depth over the bytes in chunks.
pub fn packed_root<H: PairHash>(
    depth: u32,
    bytes: &[u8],
    zeros: &ZeroTable<H>,
    hasher: &mut H,
) -> Chunk
    requires depth { depth ≤ 126 }
    requires few { (length bytes.now + 31) / 32 ≤ 2 ^ depth }
    ensures root { result.0 ≡ root H.pair_of (merkle_tree depth (leaves (pack bytes.now))) }
    ensures counts { CountsUp (merkle_pairs depth ((length bytes.now + 31) / 32))
        (H.pairs hasher.old)
        (H.pairs hasher.new) }
{
    if depth == 0 {
        return chunk_at(bytes, 0);
    }
    let count = (bytes.len() + 31) / 32;
    let mut chunks = Accumulator::new(zeros, depth);
    let done = push_chunk_rows(&mut chunks, bytes, count, hasher);
    for i in done..count {
        chunks.push(&chunk_at(bytes, i), hasher);
    }
    chunks.finish(hasher)
}
