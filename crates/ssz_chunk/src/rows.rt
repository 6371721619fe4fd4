// Pairs of SHA-256, made in the lanes of vectors.
ghost use Rattle.std.specs.Prelude.{◌≡◌, ℕ, ◌+◌, ◌*◌, ◌<◌, ◌≤◌, List, length};
ghost use Rattle.ssz_chunk.specs.declared.Chunk.{Chunk};
ghost use Rattle.ssz_chunk.specs.Chunk.{sha_pair};
ghost use Rattle.ssz_chunk.specs.Rows.{HalvesUpTo, chunk_in_row};
ghost use Rattle.ssz_lanes.specs.Lanes.{lane_bytes};

use super::Chunk;
use ssz_lanes::{LANES, sha256_pairs};

// So many chunks from a place on, with zeros behind them in the row.
#[inline(always)]
fn row_of(chunks: &[Chunk], from: usize, count: usize) -> [[u8; 32]; 2 * LANES]
    requires few { count ≤ 16 }
    requires inside { from + count ≤ length chunks.now }
    ensures { (i : ℕ) → i < count → lane_bytes result i ≡ chunk_in_row chunks.now (from + i) }
{
    let mut row = [[0; 32]; 2 * LANES];
    for i in 0..count {
        row[i] = chunks[from + i].0;
    }
    row
}

// Makes the next n pairs at once.
#[inline(always)]
pub(crate) fn make_some(chunks: &mut [Chunk], made: usize, n: usize)
    requires few { n ≤ 8 }
    requires inside { 2 * (made + n) ≤ length chunks.old }
    ensures { (first : List Chunk) → HalvesUpTo sha_pair made first chunks.old
        → HalvesUpTo sha_pair (made + n) first chunks.new }
{
    let digests = sha256_pairs(&row_of(chunks, 2 * made, 2 * n));
    for j in 0..n {
        chunks[made + j] = Chunk(digests[j]);
    }
}
