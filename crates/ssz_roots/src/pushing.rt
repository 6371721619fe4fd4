// The roots of elements of one size, eight at a time.
ghost use Rattle.std.specs.Prelude.{◌≡◌, ℕ, ◌+◌, ◌%◌, ◌<◌, ◌≤◌, ◌^◌, [], length, map, take, drop, sum_by, None, Some};
ghost use Rattle.ssz_chunk.specs.Chunk.{CountsUp};
ghost use Rattle.ssz_chunk.specs.Tree.{root};
ghost use Rattle.ssz_schema.specs.Legal.{IsLegal};
ghost use Rattle.ssz_schema.specs.Sizes.{fixed_size};
ghost use Rattle.ssz_schema.specs.Unfolding.{type_of};
ghost use Rattle.ssz_value.specs.Faults.{first_fault, elements_fault};
ghost use Rattle.ssz_value.specs.Trees.{tree};
ghost use Rattle.ssz_value.specs.Pairs.{pairs};
ghost use Rattle.ssz_merkle.specs.Frontier.{FrontierHolds, chunk_bytes, whole_pairs};
ghost use Rattle.ssz_parts.specs.PartValues.{element_values};

use super::columns::{Column, Lanes, Span, WIDE};
use super::eights::roots_of_eight;
use super::rows::{LONGEST, next_row};
use ssz_chunk::{Chunk, PairHash};
use ssz_merkle::Accumulator;
use ssz_schema::{Schema, TypeId};

// The roots of eight elements of the lanes' size, from one on.
fn column_of<H: PairHash>(
    lanes: &Lanes<'_, H>,
    elem: TypeId,
    count: u64,
    first: u64,
    hasher: &mut H,
) -> Column
    requires known { elem < length lanes.now.schema.now.trees }
    requires legal { IsLegal lanes.now.schema.now.format (type_of lanes.now.schema.now elem) }
    requires size { fixed_size (type_of lanes.now.schema.now elem) ≡ Some lanes.now.stride }
    requires faultless { let t = type_of lanes.now.schema.now elem in
        elements_fault (first_fault t) (fixed_size t) count 0 lanes.now.bytes.now ≡ None }
    requires inside { first + 8 ≤ count }
    ensures roots { let t = type_of lanes.now.schema.now elem in
        let vs = take 8 (drop first (element_values t count lanes.now.bytes.now)) in
        chunk_bytes result ≡ map (root H.pair_of) (map (tree t) vs) }
    ensures counts { let t = type_of lanes.now.schema.now elem in
        let vs = take 8 (drop first (element_values t count lanes.now.bytes.now)) in
        CountsUp (sum_by (pairs t) vs) (H.pairs hasher.old) (H.pairs hasher.new) }
{
    let size = lanes.stride;
    let from = first as usize * size;
    roots_of_eight(lanes, elem, Span { from, size }, hasher)
}

// Makes a row of the roots of elements of the lanes' size, from one on.
fn fill_row<H: PairHash>(
    lanes: &Lanes<'_, H>,
    elem: TypeId,
    count: u64,
    first: u64,
    row: &mut [Chunk],
    hasher: &mut H,
)
    requires known { elem < length lanes.now.schema.now.trees }
    requires legal { IsLegal lanes.now.schema.now.format (type_of lanes.now.schema.now elem) }
    requires size { fixed_size (type_of lanes.now.schema.now elem) ≡ Some lanes.now.stride }
    requires faultless { let t = type_of lanes.now.schema.now elem in
        elements_fault (first_fault t) (fixed_size t) count 0 lanes.now.bytes.now ≡ None }
    requires eights { length row.old % 8 ≡ 0 }
    requires inside { first + length row.old ≤ count }
    ensures roots { let t = type_of lanes.now.schema.now elem in
        let vs = take (length row.old)
        (drop first (element_values t count lanes.now.bytes.now)) in
        chunk_bytes row.new ≡ map (root H.pair_of) (map (tree t) vs) }
    ensures counts { let t = type_of lanes.now.schema.now elem in
        let vs = take (length row.old)
        (drop first (element_values t count lanes.now.bytes.now)) in
        CountsUp (sum_by (pairs t) vs) (H.pairs hasher.old) (H.pairs hasher.new) }
{
    for k in 0..row.len() / WIDE {
        let at = WIDE * k;
        let column = column_of(lanes, elem, count, first + at as u64, hasher);
        row[at..at + WIDE].copy_from_slice(&column);
    }
}

// Pushes the roots of as many elements of the lanes' size as make whole rows, and says how many
// they are.
fn push_element_rows<H: PairHash>(
    lanes: &Lanes<'_, H>,
    elem: TypeId,
    count: u64,
    pushed: &mut Accumulator<H>,
    hasher: &mut H,
) -> u64
    requires known { elem < length lanes.now.schema.now.trees }
    requires legal { IsLegal lanes.now.schema.now.format (type_of lanes.now.schema.now elem) }
    requires size { fixed_size (type_of lanes.now.schema.now elem) ≡ Some lanes.now.stride }
    requires faultless { let t = type_of lanes.now.schema.now elem in
        elements_fault (first_fault t) (fixed_size t) count 0 lanes.now.bytes.now ≡ None }
    requires empty { FrontierHolds H.pair_of [] pushed.old }
    requires few { count ≤ 2 ^ pushed.old.depth }
    ensures at_most { result ≤ count }
    ensures depth { pushed.new.depth ≡ pushed.old.depth }
    ensures holds { let t = type_of lanes.now.schema.now elem in
        let vs = take result (element_values t count lanes.now.bytes.now) in
        FrontierHolds H.pair_of (map (root H.pair_of) (map (tree t) vs)) pushed.new }
    ensures counts { let t = type_of lanes.now.schema.now elem in
        let vs = take result (element_values t count lanes.now.bytes.now) in
        CountsUp (whole_pairs pushed.old.depth result + sum_by (pairs t) vs)
        (H.pairs hasher.old) (H.pairs hasher.new) }
{
    let mut row = [Chunk::ZERO; LONGEST];
    let mut done = 0;
    'rows: while count - done >= WIDE as u64 {
        let (height, width) = next_row(done as usize, count as usize);
        fill_row(lanes, elem, count, done, &mut row[..width], hasher);
        pushed.push_row(height, &mut row[..width], hasher);
        done += width as u64;
    }
    done
}

/// Pushes the roots of as many elements as make whole rows, where they are fixed-size, and says how
/// many they are.
pub(crate) fn push_eights<H: PairHash>(
    schema: &Schema,
    elem: TypeId,
    count: u64,
    bytes: &[u8],
    pushed: &mut Accumulator<H>,
    hasher: &mut H,
) -> u64
    requires known { elem < length schema.now.trees }
    requires legal { IsLegal schema.now.format (type_of schema.now elem) }
    requires short { length bytes.now < 2 ^ 32 }
    requires faultless { let t = type_of schema.now elem in
        elements_fault (first_fault t) (fixed_size t) count 0 bytes.now ≡ None }
    requires empty { FrontierHolds H.pair_of [] pushed.old }
    requires few { count ≤ 2 ^ pushed.old.depth }
    ensures at_most { result ≤ count }
    ensures depth { pushed.new.depth ≡ pushed.old.depth }
    ensures holds { let t = type_of schema.now elem in
        let vs = take result (element_values t count bytes.now) in
        FrontierHolds H.pair_of (map (root H.pair_of) (map (tree t) vs)) pushed.new }
    ensures counts { let t = type_of schema.now elem in
        let vs = take result (element_values t count bytes.now) in
        CountsUp (whole_pairs pushed.old.depth result + sum_by (pairs t) vs)
        (H.pairs hasher.old) (H.pairs hasher.new) }
{
    let Some(size) = schema.fixed_size(elem) else {
        return 0;
    };
    let few = count < 8;
    if few {
        return 0;
    }
    let stride = size as usize;
    let lanes = Lanes {
        schema,
        bytes,
        stride,
        zeros: pushed.zeros(),
    };
    push_element_rows(&lanes, elem, count, pushed, hasher)
}
