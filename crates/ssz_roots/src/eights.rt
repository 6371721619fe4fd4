// The roots of eight values of one fixed-size type at once: lane j holds value j.
ghost use Rattle.std.specs.Prelude.{◌≡◌, ℕ, ◌+◌, ◌*◌, ◌<◌, ◌≤◌, ◌^◌, ◌/◌, [], length, map, replicate, sum_by, None, Some, option_map, get_or};
ghost use Rattle.std.specs.List.{AllByRecursion};
ghost use Rattle.ssz_chunk.specs.Chunk.{CountsUp};
ghost use Rattle.ssz_chunk.specs.Tree.{root, merkle_tree, merkle_pairs};
ghost use Rattle.ssz_schema.specs.Sizes.{fixed_size, part_sizes, basic_size, element_chunks};
ghost use Rattle.ssz_schema.specs.Legal.{IsLegal};
ghost use Rattle.ssz_schema.specs.Unfolding.{type_of, fields_over};
ghost use Rattle.ssz_value.specs.Encoding.{heads_length};
ghost use Rattle.ssz_value.specs.Faults.{first_fault, elements_fault};
ghost use Rattle.ssz_value.specs.Reading.{value_in, fields_in};
ghost use Rattle.ssz_value.specs.Trees.{tree, field_trees};
ghost use Rattle.ssz_value.specs.Pairs.{pairs, field_pairs};
ghost use Rattle.ssz_parts.specs.PartValues.{element_values};
ghost use Rattle.ssz_packing.specs.Elements.{element_trees};
ghost use Rattle.ssz_roots.specs.Eights.{AreRoots, AreFixed, AreFaultless, lane_range, eight, pieces};

use super::columns::{
    Column, Lanes, Span, chunk_column, chunks_of_eight, left_of, pair_columns, zero_column,
};
use ssz_chunk::PairHash;
use ssz_schema::{Name, Ty, TypeId};

// How many chunks so many bytes make.
fn chunk_count(size: usize) -> u64
    requires { size < 2 ^ 32 }
    ensures { result ≡ (size + 31) / 32 }
{
    (size as u64 + 31) / 32
}

/// The roots of eight values of a type of the span's size.
#[cycle(eight)]
pub(crate) fn roots_of_eight<H: PairHash>(
    lanes: &Lanes<'_, H>,
    id: TypeId,
    span: Span,
    hasher: &mut H,
) -> Column
    requires known { id < length lanes.now.schema.now.trees }
    requires fixed { fixed_size (type_of lanes.now.schema.now id) ≡ Some span.size }
    requires room { span.from + 7 * lanes.now.stride + span.size ≤ length lanes.now.bytes.now }
    requires faultless { let t = type_of lanes.now.schema.now id in
        let part = lane_range span.from lanes.now.stride span.size lanes.now.bytes.now in
        (j : ℕ) → j < 8 → first_fault t 0 (part j) ≡ None }
    ensures roots { let t = type_of lanes.now.schema.now id in
        let part = lane_range span.from lanes.now.stride span.size lanes.now.bytes.now in
        AreRoots H.pair_of result (λ j. tree t (value_in t (part j))) }
    ensures counts { let t = type_of lanes.now.schema.now id in
        let part = lane_range span.from lanes.now.stride span.size lanes.now.bytes.now in
        CountsUp (eight (λ j. pairs t (value_in t (part j))))
        (H.pairs hasher.old) (H.pairs hasher.new) }
{
    let schema = lanes.schema;
    match schema.ty(id) {
        Ty::Uint(_) => chunk_column(lanes, span, 0),
        Ty::Boolean => chunk_column(lanes, span, 0),
        Ty::Vector(elem, count) => {
            let depth = schema.depth(id);
            vector_of_eight(lanes, *elem, depth, *count, span, hasher)
        }
        Ty::Bitvector(_) => {
            let count = chunk_count(span.size);
            chunks_of_eight(lanes, schema.depth(id), span, 0, count, hasher)
        }
        Ty::Container(fields) => {
            let fields = fields.as_slice();
            let made = fields_of_eight(lanes, id, schema.depth(id), fields, span.from, hasher);
            made.0
        }
        // None of these has a fixed size.
        Ty::List(_, _) => zero_column(0, lanes.zeros),
        Ty::Bitlist(_) => zero_column(0, lanes.zeros),
        Ty::Union(_) => zero_column(0, lanes.zeros),
    }
}

// Of eight vectors of count elements, in full trees of this depth.
#[cycle(eight)]
fn vector_of_eight<H: PairHash>(
    lanes: &Lanes<'_, H>,
    elem: TypeId,
    depth: u32,
    count: u64,
    span: Span,
    hasher: &mut H,
) -> Column
    requires known { elem < length lanes.now.schema.now.trees }
    requires legal { IsLegal lanes.now.schema.now.format (type_of lanes.now.schema.now elem) }
    requires depth { depth ≤ 62 }
    requires few { element_chunks (basic_size (type_of lanes.now.schema.now elem)) count
        ≤ 2 ^ depth }
    requires fixed { option_map (λ z. count * z) (fixed_size (type_of lanes.now.schema.now elem))
        ≡ Some span.size }
    requires room { span.from + 7 * lanes.now.stride + span.size ≤ length lanes.now.bytes.now }
    requires faultless { let t = type_of lanes.now.schema.now elem in
        let part = lane_range span.from lanes.now.stride span.size lanes.now.bytes.now in
        (j : ℕ) → j < 8 → elements_fault (first_fault t) (fixed_size t) count 0 (part j) ≡ None }
    ensures roots { let t = type_of lanes.now.schema.now elem in
        let part = lane_range span.from lanes.now.stride span.size lanes.now.bytes.now in
        AreRoots H.pair_of result
        (λ j. merkle_tree depth (element_trees t (element_values t count (part j)))) }
    ensures counts { let t = type_of lanes.now.schema.now elem in
        let part = lane_range span.from lanes.now.stride span.size lanes.now.bytes.now in
        CountsUp (eight (λ j. merkle_pairs depth (element_chunks (basic_size t) count)
        + sum_by (pairs t) (element_values t count (part j))))
        (H.pairs hasher.old) (H.pairs hasher.new) }
{
    match lanes.schema.basic_size(elem) {
        Some(_) => {
            let chunks = chunk_count(span.size);
            chunks_of_eight(lanes, depth, span, 0, chunks, hasher)
        }
        None => {
            let made = elements_of_eight(lanes, elem, depth, count, span.from, hasher);
            made.0
        }
    }
}

// Of the elements from a place on in eight vectors, and where they end in the first.
#[cycle(eight)]
fn elements_of_eight<H: PairHash>(
    lanes: &Lanes<'_, H>,
    elem: TypeId,
    depth: u32,
    count: u64,
    from: usize,
    hasher: &mut H,
) -> (Column, usize)
    requires known { elem < length lanes.now.schema.now.trees }
    requires depth { depth ≤ 62 }
    requires few { count ≤ 2 ^ depth }
    requires fixed { AreFixed (replicate count
        (fixed_size (type_of lanes.now.schema.now elem))) }
    requires room { from + 7 * lanes.now.stride
        + heads_length (replicate count (fixed_size (type_of lanes.now.schema.now elem)))
        ≤ length lanes.now.bytes.now }
    requires faultless { let t = type_of lanes.now.schema.now elem in
        let step = lanes.now.stride in
        let sizes = replicate count (fixed_size t) in
        (j i : ℕ) → j < 8 → i < count
        → first_fault t 0 (get_or (pieces sizes (from + j * step) lanes.now.bytes.now) i [])
        ≡ None }
    ensures roots { let t = type_of lanes.now.schema.now elem in
        let step = lanes.now.stride in
        let sizes = replicate count (fixed_size t) in
        AreRoots H.pair_of result.0 (λ j. merkle_tree depth (map (tree t) (map (value_in t)
        (pieces sizes (from + j * step) lanes.now.bytes.now)))) }
    ensures place { result.1
        ≡ from + heads_length (replicate count (fixed_size (type_of lanes.now.schema.now elem))) }
    ensures counts { let t = type_of lanes.now.schema.now elem in
        let step = lanes.now.stride in
        let sizes = replicate count (fixed_size t) in
        CountsUp (eight (λ j. merkle_pairs depth count + sum_by (pairs t) (map (value_in t)
        (pieces sizes (from + j * step) lanes.now.bytes.now))))
        (H.pairs hasher.old) (H.pairs hasher.new) }
{
    if count == 0 {
        return (zero_column(depth, lanes.zeros), from);
    }
    if depth == 0 {
        return one_of_eight(lanes, elem, from, hasher);
    }
    let half = left_of(depth - 1, count);
    let rest = count - half;
    let (left, next) = elements_of_eight(lanes, elem, depth - 1, half, from, hasher);
    let (right, end) = elements_of_eight(lanes, elem, depth - 1, rest, next, hasher);
    (pair_columns(&left, &right, hasher), end)
}

// Of one part, and where it ends in the first lane.
#[cycle(eight)]
fn one_of_eight<H: PairHash>(
    lanes: &Lanes<'_, H>,
    id: TypeId,
    from: usize,
    hasher: &mut H,
) -> (Column, usize)
    requires known { id < length lanes.now.schema.now.trees }
    requires fixed { AreFixed (replicate 1 (fixed_size (type_of lanes.now.schema.now id))) }
    requires room { from + 7 * lanes.now.stride
        + heads_length (replicate 1 (fixed_size (type_of lanes.now.schema.now id)))
        ≤ length lanes.now.bytes.now }
    requires faultless { let t = type_of lanes.now.schema.now id in
        let step = lanes.now.stride in
        let sizes = replicate 1 (fixed_size t) in
        (j : ℕ) → j < 8
        → first_fault t 0 (get_or (pieces sizes (from + j * step) lanes.now.bytes.now) 0 [])
        ≡ None }
    ensures roots { let t = type_of lanes.now.schema.now id in
        let step = lanes.now.stride in
        let sizes = replicate 1 (fixed_size t) in
        AreRoots H.pair_of result.0 (λ j. tree t (value_in t
        (get_or (pieces sizes (from + j * step) lanes.now.bytes.now) 0 []))) }
    ensures place { result.1
        ≡ from + heads_length (replicate 1 (fixed_size (type_of lanes.now.schema.now id))) }
    ensures counts { let t = type_of lanes.now.schema.now id in
        let step = lanes.now.stride in
        let sizes = replicate 1 (fixed_size t) in
        CountsUp (eight (λ j. pairs t (value_in t
        (get_or (pieces sizes (from + j * step) lanes.now.bytes.now) 0 []))))
        (H.pairs hasher.old) (H.pairs hasher.new) }
{
    match lanes.schema.fixed_size(id) {
        Some(size) => {
            let size = size as usize;
            let column = roots_of_eight(lanes, id, Span { from, size }, hasher);
            (column, from + size)
        }
        None => (zero_column(0, lanes.zeros), from),
    }
}

// Of the fields from a place on in eight containers, and where they end in the first.
#[cycle(eight)]
fn fields_of_eight<H: PairHash>(
    lanes: &Lanes<'_, H>,
    id: TypeId,
    depth: u32,
    fields: &[(Name, TypeId)],
    from: usize,
    hasher: &mut H,
) -> (Column, usize)
    requires known { id < length lanes.now.schema.now.trees }
    requires before { AllByRecursion (λ part. part.1 < id) fields.now }
    requires depth { depth ≤ 62 }
    requires few { length fields.now ≤ 2 ^ depth }
    requires fixed { AreFixed (part_sizes (fields_over lanes.now.schema.now.trees fields.now)) }
    requires room { from + 7 * lanes.now.stride
        + heads_length (part_sizes (fields_over lanes.now.schema.now.trees fields.now))
        ≤ length lanes.now.bytes.now }
    requires faultless { let fs = fields_over lanes.now.schema.now.trees fields.now in
        let step = lanes.now.stride in
        (j : ℕ) → j < 8
        → AreFaultless fs (pieces (part_sizes fs) (from + j * step) lanes.now.bytes.now) }
    ensures roots { let fs = fields_over lanes.now.schema.now.trees fields.now in
        let step = lanes.now.stride in
        AreRoots H.pair_of result.0 (λ j. merkle_tree depth (field_trees fs (fields_in fs
        (pieces (part_sizes fs) (from + j * step) lanes.now.bytes.now)))) }
    ensures place { result.1
        ≡ from + heads_length (part_sizes (fields_over lanes.now.schema.now.trees fields.now)) }
    ensures counts { let fs = fields_over lanes.now.schema.now.trees fields.now in
        let step = lanes.now.stride in
        CountsUp (eight (λ j. merkle_pairs depth (length fields.now) + field_pairs fs (fields_in fs
        (pieces (part_sizes fs) (from + j * step) lanes.now.bytes.now))))
        (H.pairs hasher.old) (H.pairs hasher.new) }
{
    let count = fields.len();
    if count == 0 {
        return (zero_column(depth, lanes.zeros), from);
    }
    if depth == 0 {
        return one_of_eight(lanes, fields[0].1, from, hasher);
    }
    let half = left_of(depth - 1, count as u64) as usize;
    let front = &fields[..half];
    let back = &fields[half..];
    let (left, next) = fields_of_eight(lanes, id, depth - 1, front, from, hasher);
    let (right, end) = fields_of_eight(lanes, id, depth - 1, back, next, hasher);
    (pair_columns(&left, &right, hasher), end)
}
