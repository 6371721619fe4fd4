// Eight values side by side: columns of eight chunks, one of each lane, and the trees over them.
ghost use Rattle.std.specs.Prelude.{◌≡◌, ℕ, ◌+◌, ◌-◌, ◌*◌, ◌/◌, ◌<◌, ◌≤◌, ◌^◌, length, drop, min, slice_index};
ghost use Rattle.ssz_chunk.specs.Chunk.{CountsUp};
ghost use Rattle.ssz_chunk.specs.Rows.{chunk_in_row};
ghost use Rattle.ssz_chunk.specs.Tree.{root, merkle_tree, merkle_pairs, zero_tree};
ghost use Rattle.ssz_value.specs.Trees.{chunks};
ghost use Rattle.ssz_merkle.specs.Frontier.{leaves};
ghost use Rattle.ssz_merkle.specs.Packing.{packed_chunk};
ghost use Rattle.ssz_roots.specs.Eights.{AreRoots, lane_range};

use ssz_chunk::{Chunk, PairHash, ZeroTable};
use ssz_merkle::chunk_at;
use ssz_schema::Schema;

/// How many lanes there are.
pub(crate) const WIDE: usize = 8;

/// A chunk of each lane.
pub(crate) type Column = [Chunk; WIDE];

/// The bytes of eight values of one type, which begin a stride apart, and what makes their roots.
#[derive(Drop)]
pub(crate) struct Lanes<'a, H: PairHash> {
    pub(crate) schema: &'a Schema,
    pub(crate) bytes: &'a [u8],
    pub(crate) stride: usize,
    pub(crate) zeros: &'a ZeroTable<H>,
    pub(crate) ghost are_bytes: { (i : ℕ) → slice_index bytes.now i < 256 },
    pub(crate) ghost short: { length bytes.now < 2 ^ 32 },
}

/// Where a value lies in lane 0: from a byte on, and how many it has. In the other lanes it lies so
/// many strides further on.
#[derive(Clone, Copy)]
pub(crate) struct Span {
    pub(crate) from: usize,
    pub(crate) size: usize,
}

// The chunks of two columns, those of each lane side by side.
fn woven(left: &Column, right: &Column) -> [Chunk; 2 * WIDE]
    ensures left { (j : ℕ) → j < 8 → chunk_in_row result (2 * j) ≡ chunk_in_row left.now j }
    ensures right { (j : ℕ) → j < 8 → chunk_in_row result (2 * j + 1) ≡ chunk_in_row right.now j }
{
    let mut row = [Chunk::ZERO; 2 * WIDE];
    for j in 0..WIDE {
        row[2 * j] = left[j];
        row[2 * j + 1] = right[j];
    }
    row
}

// The first half of a row.
fn first_half(row: &[Chunk; 2 * WIDE]) -> Column
    ensures { (j : ℕ) → j < 8 → chunk_in_row result j ≡ chunk_in_row row.now j }
{
    let mut column = [Chunk::ZERO; WIDE];
    for j in 0..WIDE {
        column[j] = row[j];
    }
    column
}

/// The chunks of the pairs of each lane.
pub(crate) fn pair_columns<H: PairHash>(left: &Column, right: &Column, hasher: &mut H) -> Column
    ensures value { (j : ℕ) → j < 8
        → chunk_in_row result j ≡ H.pair_of (chunk_in_row left.now j) (chunk_in_row right.now j) }
    ensures counts { CountsUp 8 (H.pairs hasher.old) (H.pairs hasher.new) }
{
    let mut row = woven(left, right);
    hasher.halve(&mut row);
    first_half(&row)
}

/// The root of the full tree of zero chunks of this depth, in each lane.
pub(crate) fn zero_column<H: PairHash>(depth: u32, zeros: &ZeroTable<H>) -> Column
    requires { depth ≤ 126 }
    ensures { AreRoots H.pair_of result (λ j. zero_tree depth) }
{
    let mut column = [Chunk::ZERO; WIDE];
    for j in 0..WIDE {
        column[j] = *zeros.get(depth);
    }
    column
}

// The bytes of the value in lane j.
fn lane<'a, H: PairHash>(lanes: &Lanes<'a, H>, span: Span, j: usize) -> &'a [u8]
    requires below { j < 8 }
    requires room { span.from + 7 * lanes.now.stride + span.size ≤ length lanes.now.bytes.now }
    ensures { result.now ≡ lane_range span.from lanes.now.stride span.size lanes.now.bytes.now j }
{
    let start = span.from + j * lanes.stride;
    let part = &lanes.bytes[start..start + span.size];
    part
}

/// Chunk i of the value in each lane.
pub(crate) fn chunk_column<H: PairHash>(lanes: &Lanes<'_, H>, span: Span, i: usize) -> Column
    requires room { span.from + 7 * lanes.now.stride + span.size ≤ length lanes.now.bytes.now }
    ensures { (j : ℕ) → j < 8 → chunk_in_row result j
        ≡ packed_chunk (lane_range span.from lanes.now.stride span.size lanes.now.bytes.now j) i }
{
    let mut column = [Chunk::ZERO; WIDE];
    for j in 0..WIDE {
        column[j] = chunk_at(lane(lanes, span, j), i);
    }
    column
}

/// How many of so many places are in the left half of a tree with two halves of this depth.
pub(crate) fn left_of(depth: u32, count: u64) -> u64
    requires { depth ≤ 62 }
    ensures { result ≡ min (2 ^ depth) count }
{
    (1u64 << depth).min(count)
}

/// The roots of the full trees over so many chunks of the value in each lane, from one on.
#[cycle(packed)]
pub(crate) fn chunks_of_eight<H: PairHash>(
    lanes: &Lanes<'_, H>,
    depth: u32,
    span: Span,
    first: u64,
    count: u64,
    hasher: &mut H,
) -> Column
    requires depth { depth ≤ 62 }
    requires room { span.from + 7 * lanes.now.stride + span.size ≤ length lanes.now.bytes.now }
    requires few { count ≤ 2 ^ depth }
    requires small { first + count < 2 ^ 60 }
    ensures roots { AreRoots H.pair_of result (λ j. merkle_tree depth (leaves (chunks count
        (drop (32 * first) (lane_range span.from lanes.now.stride span.size lanes.now.bytes.now
        j))))) }
    ensures counts { CountsUp (8 * merkle_pairs depth count) (H.pairs hasher.old)
        (H.pairs hasher.new) }
{
    if count == 0 {
        return zero_column(depth, lanes.zeros);
    }
    if depth == 0 {
        return chunk_column(lanes, span, first as usize);
    }
    let half = left_of(depth - 1, count);
    let rest = count - half;
    let left = chunks_of_eight(lanes, depth - 1, span, first, half, hasher);
    let right = chunks_of_eight(lanes, depth - 1, span, first + half, rest, hasher);
    pair_columns(&left, &right, hasher)
}
