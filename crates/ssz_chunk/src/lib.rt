//! Chunks of 32 bytes, hashers that make one chunk of a pair, and the roots of full zero trees.
//!
//! What a tree of chunks is, and what stands where in it, is defined in `specs/` for all crates
//! above: `Tree` (trees, roots, full trees, the pairs above their first places), `Index`
//! (generalized indices) and `Rows` (chunks side by side, of which pairs are made together).
//! Here only chunks are kept. No call takes memory.
#![tactic(auto)]

ghost use Rattle.std.specs.Prelude.{◌≡◌, ℕ, ◌+◌, ◌/◌, ◌<◌, ◌≤◌, List, [], length, slice_index_or};
ghost use Rattle.ssz_chunk.specs.declared.TheConstants.{ZERO_TREES};
ghost use Rattle.ssz_chunk.specs.Chunk.{CountsUp, IsChunk, sha_pair, xor_pair};
ghost use Rattle.ssz_chunk.specs.ChunkLaws.{IsChunk-sha_pair, IsChunk-xor_pair};
ghost use Rattle.ssz_chunk.specs.Rows.{IsHalved};
ghost use Rattle.ssz_chunk.specs.Tree.{root, zero_tree};

use crate::rows::make_some;
use ssz_lanes::{LANES, sha256_pair};
use std::marker::{Model, PhantomData};

mod laws;
mod rows;

pub use laws::trees_have_places;

/// How many levels a tree may have below its root.
pub const LEVELS: u32 = 126;

// The full trees of zero chunks: of depth 0 to LEVELS.
const ZERO_TREES: usize = LEVELS as usize + 1;

/// 32 bytes: a leaf of a tree, or the root of one (simple-serialize.md, Merkleization).
#[derive(Clone, Copy, Debug, PartialEq, Eq)]
pub struct Chunk(pub [u8; 32]);

impl Chunk {
    /// 32 zero bytes.
    pub const ZERO: Chunk = Chunk([0; 32]);
}

/// A hasher: makes one chunk of two, by a function that belongs to the type, and counts how often.
pub trait PairHash {
    // The chunk of a pair, left then right. Only its answers at two chunks are ever made.
    ghost pair_of: { List ℕ → List ℕ → List ℕ };

    // How many pairs were made, up to the greatest u64.
    ghost pairs: { Self → ℕ };

    // The chunk of two chunks is a chunk.
    ghost makes_chunk: { (left right : List ℕ) → IsChunk left → IsChunk right
        → IsChunk (pair_of left right) };

    /// The chunk of a pair, which is counted.
    fn pair(&mut self, left: &Chunk, right: &Chunk) -> Chunk
        ensures value { result.0 ≡ pair_of left.now.0 right.now.0 }
        ensures counts { CountsUp 1 (pairs self.old) (pairs self.new) };

    /// The chunks of a row of pairs, each of two chunks that stand side by side: chunk j becomes
    /// that of 2 * j and 2 * j + 1. Each pair is counted; what stands behind the first half is used
    /// up.
    fn halve(&mut self, chunks: &mut [Chunk])
        ensures value { IsHalved pair_of chunks.old chunks.new }
        ensures counts { CountsUp (length chunks.old / 2) (pairs self.old) (pairs self.new) }
    {
        'pairs: for j in 0..chunks.len() / 2 {
            chunks[j] = self.pair(&chunks[2 * j], &chunks[2 * j + 1]);
        }
    }

    /// How many pairs were made, or the greatest u64 where they were more.
    fn count(&self) -> u64
        ensures { result ≡ pairs self.now };
}

/// The hasher of SSZ: SHA-256 of the 64 bytes of a pair.
#[derive(Debug, Drop)]
pub struct ShaPair {
    pairs: u64,
}

// The number of pairs.
impl Model for ShaPair {
    ghost Value = { ℕ };

    ghost view = { λ hasher. hasher.pairs };
}

impl ShaPair {
    /// A hasher that has made no pair.
    pub fn new() -> Self
        ensures { result ≡ 0 }
    {
        ShaPair { pairs: 0 }
    }
}

// Fewer pairs than these are made one by one: a row of lanes takes as long, however many it has.
const FEW: usize = 3;

// The chunk of one pair.
fn sha_of(left: &Chunk, right: &Chunk) -> Chunk
    ensures { result.0 ≡ sha_pair left.now.0 right.now.0 }
{
    Chunk(sha256_pair(&left.0, &right.0))
}

impl PairHash for ShaPair {
    ghost pair_of = { sha_pair };

    ghost pairs = { λ pairs. pairs };

    ghost makes_chunk = { IsChunk-sha_pair };

    fn pair(&mut self, left: &Chunk, right: &Chunk) -> Chunk {
        self.pairs = self.pairs.saturating_add(1);
        sha_of(left, right)
    }

    // As many at a time as there are lanes; that all are filled stands apart, so that their copies
    // have a length that the compiler knows.
    #[inline(always)]
    fn halve(&mut self, chunks: &mut [Chunk]) {
        let count = chunks.len() / 2;
        let mut made = 0;
        'pairs: while made < count {
            let n = LANES.min(count - made);
            if n == LANES {
                make_some(chunks, made, LANES);
                made += LANES;
            } else if n < FEW {
                chunks[made] = sha_of(&chunks[2 * made], &chunks[2 * made + 1]);
                made += 1;
            } else {
                make_some(chunks, made, n);
                made += n;
            }
        }
        self.pairs = self.pairs.saturating_add(count as u64);
    }

    fn count(&self) -> u64 {
        self.pairs
    }
}

/// A cheap hasher for tests: byte i is `left[(i + 1) % 32] ^ right[i]`.
#[derive(Debug, Drop)]
pub struct XorPair {
    pairs: u64,
}

// The number of pairs.
impl Model for XorPair {
    ghost Value = { ℕ };

    ghost view = { λ hasher. hasher.pairs };
}

impl XorPair {
    /// A hasher that has made no pair.
    pub fn new() -> Self
        ensures { result ≡ 0 }
    {
        XorPair { pairs: 0 }
    }
}

impl PairHash for XorPair {
    ghost pair_of = { xor_pair };

    ghost pairs = { λ pairs. pairs };

    ghost makes_chunk = { IsChunk-xor_pair };

    fn pair(&mut self, left: &Chunk, right: &Chunk) -> Chunk {
        self.pairs = self.pairs.saturating_add(1);
        let mut bytes = [0; 32];
        for i in 0..32 {
            bytes[i] = left.0[(i + 1) % 32] ^ right.0[i];
        }
        Chunk(bytes)
    }

    fn count(&self) -> u64 {
        self.pairs
    }
}

/// The roots Z0 to Z126 of the full trees of zero chunks, by depth.
#[derive(Debug, Drop)]
pub struct ZeroTable<H: PairHash> {
    roots: [Chunk; ZERO_TREES],
    hasher: PhantomData<H>,
    ghost each: { (d : ℕ) → d < ZERO_TREES
        → (slice_index_or roots d (record { 0 = [] })).0 ≡ root H.pair_of (zero_tree d) },
}

impl<H: PairHash> ZeroTable<H> {
    /// Makes the table with LEVELS pairs.
    pub fn new(hasher: &mut H) -> Self
        ensures { CountsUp LEVELS (H.pairs hasher.old) (H.pairs hasher.new) }
    {
        let mut roots = [Chunk::ZERO; ZERO_TREES];
        for d in 0..LEVELS as usize {
            roots[d + 1] = hasher.pair(&roots[d], &roots[d]);
        }
        ZeroTable {
            roots,
            hasher: PhantomData,
        }
    }

    /// The root of the full tree of zero chunks of depth d, which is at most LEVELS.
    pub fn get(&self, d: u32) -> &Chunk
        requires { d ≤ LEVELS }
        ensures { result.now.0 ≡ root H.pair_of (zero_tree d) }
    {
        &self.roots[d as usize]
    }
}
