ghost use Rattle.std.specs.Prelude.{◌≡◌, ◌-◌, ◌^◌, length};
ghost use Rattle.ssz_chunk.specs.Chunk.{CountsUp};
ghost use Rattle.ssz_chunk.specs.Tree.{root, merkle_tree};
ghost use Rattle.ssz_merkle.specs.Frontier.{chunk_bytes, leaves};

use ssz_chunk::{Chunk, PairHash};

/// The root of the full tree of a row of 2^level chunks, which is used up. The pairs of each level
/// are made together.
pub fn row_root<H: PairHash>(chunks: &mut [Chunk], level: u32, hasher: &mut H) -> Chunk
    requires { length chunks.old ≡ 2 ^ level }
    ensures root { result.0 ≡ root H.pair_of (merkle_tree level (leaves (chunk_bytes chunks.old))) }
    ensures counts { CountsUp (2 ^ level - 1) (H.pairs hasher.old) (H.pairs hasher.new) }
{
    let mut len = chunks.len();
    'levels: for k in 0..level {
        hasher.halve(&mut chunks[..len]);
        len /= 2;
    }
    chunks[0]
}
