ghost use Rattle.std.specs.Prelude.{◌≡◌, ℕ, ◌+◌, ◌++◌, ◌<◌, ◌≤◌, ◌↔◌, IsTrue, option_map, sum_by};
ghost use Rattle.ssz_chunk.specs.Index.{levels};
ghost use Rattle.ssz_proof.specs.Calculation.{calculate_root, chunk_at, indices_of};
ghost use Rattle.ssz_proof.specs.Multiproof.{IsOrdered, known_of};
ghost use Rattle.ssz_proof.specs.Descent.{IsAscending, IsDescending, IsReached, levels_below};

use crate::entry::Entry;
use crate::places::{ascending_place, descending_place};
use crate::proof::Proof;
use crate::rows::calculate;
use ssz_chunk::{Chunk, PairHash};

/// The root that a proof leads to (calculate_multi_merkle_root): what pair_of gives from the root
/// down to the chunks that are known. It hashes at most as many pairs as its leaves have levels
/// together.
pub fn calc<H: PairHash>(proof: &Proof, hasher: &mut H) -> Chunk
    ensures value { result.0 ≡ calculate_root H.pair_of (known_of proof.now) 1 }
    ensures rises { H.pairs hasher.old ≤ H.pairs hasher.new }
    ensures pairs { H.pairs hasher.new
        ≤ H.pairs hasher.old + sum_by levels (indices_of proof.now.leaves) }
{
    match chunk_of(proof.leaves(), proof.nodes(), 1) {
        Some(chunk) => chunk,
        None => calculate(proof.leaves(), proof.nodes(), 1, hasher),
    }
}

/// Whether a proof leads to this root (verify_merkle_multiproof). It hashes at most as many pairs
/// as its leaves have levels together.
pub fn verify<H: PairHash>(proof: &Proof, root: &Chunk, hasher: &mut H) -> bool
    ensures value { IsTrue result ↔ (calculate_root H.pair_of (known_of proof.now) 1 ≡ root.now.0) }
    ensures rises { H.pairs hasher.old ≤ H.pairs hasher.new }
    ensures pairs { H.pairs hasher.new
        ≤ H.pairs hasher.old + sum_by levels (indices_of proof.now.leaves) }
{
    calc(proof, hasher) == *root
}

// The chunk at an index, of a leaf or a node.
pub(crate) fn chunk_of(leaves: &[Entry], nodes: &[Entry], index: u128) -> Option<Chunk>
    requires { IsOrdered (record { leaves = leaves.now; nodes = nodes.now }) }
    ensures { option_map (λ chunk. chunk.0) result ≡ chunk_at (leaves.now ++ nodes.now) index }
{
    if let Some(chunk) = find(leaves, index) {
        return Some(chunk);
    }
    find_descending(nodes, index)
}

// The chunk at an index, of entries in ascending order.
fn find(entries: &[Entry], index: u128) -> Option<Chunk>
    requires { IsAscending (indices_of entries.now) }
    ensures { option_map (λ chunk. chunk.0) result ≡ chunk_at entries.now index }
{
    let place = ascending_place(entries, index)?;
    Some(entries[place].chunk)
}

// The chunk at an index, of entries in descending order.
fn find_descending(entries: &[Entry], index: u128) -> Option<Chunk>
    requires { IsDescending (indices_of entries.now) }
    ensures { option_map (λ chunk. chunk.0) result ≡ chunk_at entries.now index }
{
    let place = descending_place(entries, index)?;
    Some(entries[place].chunk)
}
