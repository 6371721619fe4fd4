ghost use Rattle.std.specs.Prelude.{◌≡◌, ◌+◌, ◌-◌, ◌%◌, ◌^◌, ◌<◌, ◌≤◌, ℕ, List, [], ◌∷◌, ◌++◌, length};
ghost use Rattle.ssz_chunk.specs.declared.TheConstants.{LEVELS};
ghost use Rattle.ssz_chunk.specs.Chunk.{CountsUp};
ghost use Rattle.ssz_chunk.specs.Tree.{root, merkle_tree};
ghost use Rattle.ssz_merkle.specs.Frontier.{FrontierHolds, chunk_bytes, finish_pairs, leaves, push_pairs, whole_pairs};

use super::rows::row_root;
use ssz_chunk::{Chunk, LEVELS, PairHash, ZeroTable};
use std::marker::Model;

// A root for each level, the tree's own included.
const ROOTS: usize = LEVELS as usize + 1;

/// The chunks that were pushed so far on a full tree of chunks, by the roots of the whole subtrees
/// that they make: one for each binary digit 1 of their number.
#[derive(Drop)]
pub struct Accumulator<'a, H: PairHash> {
    zeros: &'a ZeroTable<H>,
    depth: u32,
    pushed: u128,
    roots: [Chunk; ROOTS],
}

// The depth of the tree, how many chunks were pushed, and a root for each level.
impl<'a, H: PairHash> Model for Accumulator<'a, H> {
    ghost use Rattle.std.specs.Prelude.{◌≡◌, ◌^◌, ◌≤◌, length};
    ghost use Rattle.ssz_merkle.specs.Frontier.{Frontier};

    ghost Value = { Frontier };

    ghost view = { λ stack.
        record { depth = stack.depth; pushed = stack.pushed; roots = stack.roots } };

    ghost invariant = { λ stack. (stack.depth ≤ 126) × (stack.pushed ≤ 2 ^ stack.depth)
        × (length stack.roots ≡ 127) };
}

// How many chunks a subtree of this height has.
fn places(level: u32) -> u128
    requires { level ≤ LEVELS }
    ensures { result ≡ 2 ^ level }
{
    1 << level
}

impl<'a, H: PairHash> Accumulator<'a, H> {
    /// For the full tree of this depth, which is at most LEVELS: merkleize with the limit 2^depth.
    #[inline(always)]
    pub fn new(zeros: &'a ZeroTable<H>, depth: u32) -> Self
        requires { depth ≤ LEVELS }
        ensures depth { result.depth ≡ depth }
        ensures pushed { result.pushed ≡ 0 }
        ensures holds { FrontierHolds H.pair_of [] result }
    {
        Accumulator {
            zeros,
            depth,
            pushed: 0,
            roots: [Chunk::ZERO; ROOTS],
        }
    }

    /// The table of zero trees that it was made with.
    pub fn zeros(&self) -> &'a ZeroTable<H> {
        self.zeros
    }

    /// Takes one more chunk: fewer than 2^depth were pushed so far.
    /// Hashes the pairs of which the chunk is the last one.
    pub fn push(&mut self, chunk: &Chunk, hasher: &mut H)
        requires { self.old.pushed < 2 ^ self.old.depth }
        ensures depth { self.new.depth ≡ self.old.depth }
        ensures pushed { self.new.pushed ≡ self.old.pushed + 1 }
        ensures holds { (chunks : List (List ℕ)) → FrontierHolds H.pair_of chunks self.old
            → FrontierHolds H.pair_of (chunks ++ chunk.now.0 ∷ []) self.new }
        ensures counts { CountsUp (push_pairs self.old.depth self.old.pushed)
            (H.pairs hasher.old) (H.pairs hasher.new) }
    {
        self.push_root(0, chunk, hasher);
    }

    /// Takes a subtree of 2^level chunks by its root, where a multiple of as many were pushed so
    /// far. Hashes the pairs above it of which its last chunk is the last one: with the pairs of
    /// the subtree, these are those that as many pushes hash.
    pub fn push_root(&mut self, level: u32, chunk: &Chunk, hasher: &mut H)
        requires level { level ≤ self.old.depth }
        requires whole { self.old.pushed % 2 ^ level ≡ 0 }
        requires room { self.old.pushed + 2 ^ level ≤ 2 ^ self.old.depth }
        ensures depth { self.new.depth ≡ self.old.depth }
        ensures pushed { self.new.pushed ≡ self.old.pushed + 2 ^ level }
        ensures holds { (chunks row : List (List ℕ)) → FrontierHolds H.pair_of chunks self.old
            → length row ≡ 2 ^ level → chunk.now.0 ≡ root H.pair_of (merkle_tree level (leaves row))
            → FrontierHolds H.pair_of (chunks ++ row) self.new }
        ensures counts { (start : ℕ) → CountsUp (2 ^ level - 1) start (H.pairs hasher.old)
            → CountsUp (whole_pairs self.old.depth (self.old.pushed + 2 ^ level)
            - whole_pairs self.old.depth self.old.pushed) start (H.pairs hasher.new) }
    {
        let pushed = self.pushed;
        let width = places(level);
        let last = pushed + (width - 1);
        let whole = last.trailing_ones();
        let mut carry = *chunk;
        'levels: for k in level..whole {
            let left = self.roots[k as usize];
            carry = hasher.pair(&left, &carry);
        }
        self.roots[whole as usize] = carry;
        self.pushed = pushed + width;
    }

    /// Takes a row of 2^level chunks, which is used up, where a multiple of as many were pushed so
    /// far. Hashes the pairs that as many pushes hash, those of each level of the row together.
    pub fn push_row(&mut self, level: u32, chunks: &mut [Chunk], hasher: &mut H)
        requires level { level ≤ self.old.depth }
        requires count { length chunks.old ≡ 2 ^ level }
        requires whole { self.old.pushed % 2 ^ level ≡ 0 }
        requires room { self.old.pushed + 2 ^ level ≤ 2 ^ self.old.depth }
        ensures depth { self.new.depth ≡ self.old.depth }
        ensures pushed { self.new.pushed ≡ self.old.pushed + 2 ^ level }
        ensures holds { (before : List (List ℕ)) → FrontierHolds H.pair_of before self.old
            → FrontierHolds H.pair_of (before ++ chunk_bytes chunks.old) self.new }
        ensures counts { CountsUp (whole_pairs self.old.depth (self.old.pushed + 2 ^ level)
            - whole_pairs self.old.depth self.old.pushed)
            (H.pairs hasher.old) (H.pairs hasher.new) }
    {
        let root = row_root(chunks, level, hasher);
        self.push_root(level, &root, hasher);
    }

    /// The root of the full tree of the chunks that were pushed, with zero chunks behind them.
    /// Hashes the pairs that are not whole, one a level, each with a zero subtree from the table or
    /// with the root to its left.
    #[inline(always)]
    pub fn finish(self, hasher: &mut H) -> Chunk
        ensures root { (chunks : List (List ℕ)) → FrontierHolds H.pair_of chunks self.entry
            → result.0 ≡ root H.pair_of (merkle_tree self.entry.depth (leaves chunks)) }
        ensures counts { CountsUp (finish_pairs self.entry.depth self.entry.pushed)
            (H.pairs hasher.old) (H.pairs hasher.new) }
    {
        self.root(hasher)
    }

    // The same of a lent accumulator, so that finish moves none of its 4 KiB.
    fn root(&self, hasher: &mut H) -> Chunk
        ensures root { (chunks : List (List ℕ)) → FrontierHolds H.pair_of chunks self.now
            → result.0 ≡ root H.pair_of (merkle_tree self.now.depth (leaves chunks)) }
        ensures counts { CountsUp (finish_pairs self.now.depth self.now.pushed)
            (H.pairs hasher.old) (H.pairs hasher.new) }
    {
        if self.pushed == 0 {
            return *self.zeros.get(self.depth);
        }
        let last = self.pushed - 1;
        let first = self.pushed.trailing_zeros();
        let mut root = self.roots[first as usize];
        for level in first..self.depth {
            if (last >> level) % 2 == 1 {
                let left = self.roots[level as usize];
                root = hasher.pair(&left, &root);
            } else {
                root = hasher.pair(&root, self.zeros.get(level));
            }
        }
        root
    }
}
