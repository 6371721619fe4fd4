ghost use Rattle.std.specs.Prelude.{ℕ, ◌≡◌, ◌+◌, ◌*◌, ◌/◌, ◌^◌, ◌<◌, ◌≤◌, length, map, Some};
ghost use Rattle.std.specs.List.{concat, AllByRecursion};
ghost use Rattle.ssz_chunk.specs.declared.TheConstants.{LEVELS};
ghost use Rattle.ssz_chunk.specs.Tree.{merkle_pairs};
ghost use Rattle.ssz_schema.specs.Types.{SszType};
ghost use Rattle.ssz_schema.specs.Sizes.{basic_size};
ghost use Rattle.ssz_value.specs.Values.{Fits};
ghost use Rattle.ssz_value.specs.Standing.{value_of};
ghost use Rattle.ssz_value.specs.Trees.{pack, pack_bits};
ghost use Rattle.ssz_packing.specs.Elements.{encodings_of};
ghost use Rattle.ssz_tree.specs.Added.{MakesNode};
ghost use Rattle.ssz_making.specs.Parts.{whole_of, chunk_part, AreBasic};

use super::builder::Builder;
use super::leaves::leaf_node;
use ssz_arena::{Arena, NodeId};
use ssz_chunk::PairHash;
use ssz_packing::{bits_chunk, chunk_count, values_chunk};
use ssz_value::Value;

/// The full tree of this depth over values of a basic type of this size, packed.
pub fn packed_values_node<H: PairHash>(
    arena: &mut Arena<H>,
    size: usize,
    depth: u32,
    parts: &[Value],
) -> NodeId
    requires size { size * (32 / size) ≡ 32 }
    requires basic { AreBasic size parts.now }
    requires depth { depth ≤ LEVELS }
    requires few { (length parts.now * size + 31) / 32 ≤ 2 ^ depth }
    requires room { let chunks = (length parts.now * size + 31) / 32 in
        merkle_pairs depth chunks + chunks ≤ arena.old.spare }
    ensures { (t : SszType) → basic_size t ≡ Some size
        → AllByRecursion (Fits t) (map value_of parts.now)
        → MakesNode arena.old arena.new
        (whole_of depth (map chunk_part (pack (concat (encodings_of t parts.now))))) result }
{
    let count = chunk_count(size, parts.len());
    let mut leaves = Builder::new(arena, depth);
    for i in 0..count {
        let leaf = leaf_node(arena, &values_chunk(size, i, parts));
        leaves.push(arena, leaf);
    }
    leaves.finish(arena)
}

/// The full tree of this depth over these bits, packed.
pub fn bit_values_node<H: PairHash>(arena: &mut Arena<H>, depth: u32, bits: &[bool]) -> NodeId
    requires depth { depth ≤ LEVELS }
    requires few { (length bits.now + 255) / 256 ≤ 2 ^ depth }
    requires room { let chunks = (length bits.now + 255) / 256 in
        merkle_pairs depth chunks + chunks ≤ arena.old.spare }
    ensures { MakesNode arena.old arena.new
        (whole_of depth (map chunk_part (pack_bits bits.now))) result }
{
    let count = (bits.len() + 255) / 256;
    let mut leaves = Builder::new(arena, depth);
    for i in 0..count {
        let leaf = leaf_node(arena, &bits_chunk(bits, i));
        leaves.push(arena, leaf);
    }
    leaves.finish(arena)
}
