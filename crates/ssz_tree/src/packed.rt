ghost use Rattle.std.specs.Prelude.{◌≡◌, ◌+◌, ◌/◌, ◌^◌, ◌<◌, ◌≤◌, length, map};
ghost use Rattle.ssz_chunk.specs.declared.TheConstants.{LEVELS};
ghost use Rattle.ssz_chunk.specs.Tree.{merkle_pairs};
ghost use Rattle.ssz_bytes.specs.Faults.{last_byte};
ghost use Rattle.ssz_value.specs.Trees.{chunks, pack};
ghost use Rattle.ssz_packing.specs.Bits.{undelimited};
ghost use Rattle.ssz_tree.specs.Added.{MakesNode};
ghost use Rattle.ssz_making.specs.Parts.{whole_of, chunk_part};

use super::builder::{Builder, beside_zeros};
use super::leaves::{front_node, leaf_node};
use ssz_arena::{Arena, NodeId};
use ssz_chunk::PairHash;
use ssz_merkle::chunk_at;
use ssz_packing::bit_chunk_at;

/// The full tree of this depth over the bytes in chunks.
pub fn packed_node<H: PairHash>(arena: &mut Arena<H>, depth: u32, bytes: &[u8]) -> NodeId
    requires depth { depth ≤ LEVELS }
    requires few { (length bytes.now + 31) / 32 ≤ 2 ^ depth }
    requires room { let chunks = (length bytes.now + 31) / 32 in
        merkle_pairs depth chunks + chunks ≤ arena.old.spare }
    ensures { MakesNode arena.old arena.new
        (whole_of depth (map chunk_part (pack bytes.now))) result }
{
    // One chunk needs no builder; nor do two.
    let chunks = (bytes.len() + 31) / 32;
    if chunks == 1 {
        let leaf = front_node(arena, bytes);
        return beside_zeros(arena, leaf, 0, depth);
    }
    if chunks == 2 {
        let both = two_chunks_node(arena, bytes);
        return beside_zeros(arena, both, 1, depth);
    }
    chunks_node(arena, depth, bytes)
}

// Two chunks, as of a public key, and the pair of both.
fn two_chunks_node<H: PairHash>(arena: &mut Arena<H>, bytes: &[u8]) -> NodeId
    requires two { (length bytes.now + 31) / 32 ≡ 2 }
    requires room { 3 ≤ arena.old.spare }
    ensures { MakesNode arena.old arena.new (whole_of 1 (map chunk_part (pack bytes.now))) result }
{
    let left = front_node(arena, bytes);
    let right = front_node(arena, &bytes[32..]);
    arena.pair(left, right)
}

// The same, chunk by chunk. Inlined into a maker's call its loop has a register too few.
#[inline(never)]
fn chunks_node<H: PairHash>(arena: &mut Arena<H>, depth: u32, bytes: &[u8]) -> NodeId
    requires depth { depth ≤ LEVELS }
    requires few { (length bytes.now + 31) / 32 ≤ 2 ^ depth }
    requires room { let chunks = (length bytes.now + 31) / 32 in
        merkle_pairs depth chunks + chunks ≤ arena.old.spare }
    ensures { MakesNode arena.old arena.new
        (whole_of depth (map chunk_part (pack bytes.now))) result }
{
    let count = (bytes.len() + 31) / 32;
    let mut leaves = Builder::new(arena, depth);
    for i in 0..count {
        let leaf = leaf_node(arena, &chunk_at(bytes, i));
        leaves.push(arena, leaf);
    }
    leaves.finish(arena)
}

/// The full tree of this depth over so many bits in chunks, without the delimiter.
pub fn bits_node<H: PairHash>(arena: &mut Arena<H>, depth: u32, len: u64, bytes: &[u8]) -> NodeId
    requires depth { depth ≤ LEVELS }
    requires some { 0 < length bytes.now }
    requires delimited { 0 < last_byte bytes.now }
    requires short { length bytes.now < 2 ^ 32 }
    requires len { len < 2 ^ 63 }
    requires few { (len + 255) / 256 ≤ 2 ^ depth }
    requires room { let chunks = (len + 255) / 256 in
        merkle_pairs depth chunks + chunks ≤ arena.old.spare }
    ensures { MakesNode arena.old arena.new
        (whole_of depth (map chunk_part (chunks ((len + 255) / 256) (undelimited bytes.now))))
        result }
{
    let count = (len + 255) / 256;
    let mut leaves = Builder::new(arena, depth);
    for i in 0..count {
        let leaf = leaf_node(arena, &bit_chunk_at(bytes, i as usize));
        leaves.push(arena, leaf);
    }
    leaves.finish(arena)
}
