ghost use Rattle.std.specs.Prelude.{◌≡◌, ℕ, ◌+◌, ◌<◌, ◌≤◌, ◌^◌, List, drop, length, map, slice_index_or, None, IfSome};
ghost use Rattle.std.specs.List.{AllByRecursion};
ghost use Rattle.ssz_schema.specs.Sizes.{fixed_size, head_size, basic_size, element_chunks, part_sizes};
ghost use Rattle.ssz_schema.specs.Types.{container, union};
ghost use Rattle.ssz_schema.specs.Unfolding.{type_of, fields_over, options_over, IsBelow};
ghost use Rattle.ssz_schema.specs.Legal.{IsLegal, AreLegalFields, AreLegalOptions};
ghost use Rattle.ssz_value.specs.Encoding.{heads_length};
ghost use Rattle.ssz_value.specs.Faults.{first_fault, elements_fault};
ghost use Rattle.ssz_value.specs.Reading.{value_in};
ghost use Rattle.ssz_value.specs.Trees.{number_chunk, padded};
ghost use Rattle.ssz_parts.specs.PartValues.{element_values, field_values};
ghost use Rattle.ssz_parts.specs.Ranges.{part_range};
ghost use Rattle.ssz_making.specs.Parts.{MadePart, whole_of, chunk_part, joined_leaf, chosen_part, elements_part, field_parts, part_of_value};
ghost use Rattle.ssz_making.specs.Making.{CanJoinLeaf};
ghost use Rattle.ssz_making.specs.Nodes.{new_nodes};

use super::maker::Maker;
use super::repeats::repeats;
use ssz_basic::bitlist_len;
use ssz_chunk::Chunk;
use ssz_merkle::{chunk_at, chunk_of_eight};
use ssz_packing::number_chunk;
use ssz_parts::{element_at, element_count, head_len, part_range};
use ssz_schema::{Name, Schema, Ty, TypeId};
use std::simd::prelude::*;

/// The value that the bytes stand for, which have no fault, made where there is room for its nodes.
#[cycle(node)]
#[inline(always)]
pub fn bytes_part<M: Maker>(maker: &mut M, schema: &Schema, id: TypeId, bytes: &[u8]) -> M::Out
    requires known { id < length schema.now.trees }
    requires short { length bytes.now < 2 ^ 32 }
    requires faultless { first_fault (type_of schema.now id) 0 bytes.now ≡ None }
    requires room { let t = type_of schema.now id in
        M.room maker.old (new_nodes t (value_in t bytes.now)) }
    ensures { let t = type_of schema.now id in
        M.made maker.old maker.new (part_of_value t (value_in t bytes.now)) result }
{
    match schema.ty(id) {
        Ty::Uint(_) => leaf_made(maker, bytes),
        Ty::Boolean => leaf_made(maker, bytes),
        Ty::Vector(elem, count) => {
            elements_made(maker, schema, *elem, schema.depth(id), *count, bytes)
        }
        Ty::List(elem, limit) => {
            let count = element_count(schema.fixed_size(*elem), *limit, bytes);
            let elements = elements_made(maker, schema, *elem, schema.depth(id), count, bytes);
            counted(maker, elements, count)
        }
        Ty::Bitvector(_) => maker.packed(schema.depth(id), bytes),
        Ty::Container(fields) => {
            fields_made(
                maker,
                schema,
                id,
                schema.depth(id),
                fields.as_slice(),
                bytes,
            )
        }
        Ty::Union(options) => union_made(maker, schema, id, options.as_slice(), bytes),
        Ty::Bitlist(_) => {
            let count = bitlist_len(bytes);
            let bits = maker.bits(schema.depth(id), count, bytes);
            counted(maker, bits, count)
        }
    }
}

// The leaf of a basic value. A function of its own, as the next, so that a call of `bytes_part` has
// no chunk on its stack to be zeroed.
#[inline(always)]
fn leaf_made<M: Maker>(maker: &mut M, bytes: &[u8]) -> M::Out
    requires { M.room maker.old 1 }
    ensures { M.made maker.old maker.new (chunk_part (padded bytes.now)) result }
{
    if bytes.len() == 8 {
        return maker.leaf(&chunk_of_eight(bytes));
    }
    maker.leaf(&chunk_at(bytes, 0))
}

// A part with its length to its right.
#[inline(always)]
fn counted<M: Maker>(maker: &mut M, part: M::Out, count: u64) -> M::Out
    requires { CanJoinLeaf M.room M.made maker.old part }
    ensures { (start : M) (one : MadePart) → M.made start maker.old one part
        → M.made start maker.new (joined_leaf one (number_chunk count)) result }
{
    let len = number_chunk(u128::from(count));
    maker.join(part, &len)
}

// Of count elements, in a full tree of this depth.
#[cycle(node)]
fn elements_made<M: Maker>(
    maker: &mut M,
    schema: &Schema,
    elem: TypeId,
    depth: u32,
    count: u64,
    bytes: &[u8],
) -> M::Out
    requires known { elem < length schema.now.trees }
    requires legal { IsLegal schema.now.format (type_of schema.now elem) }
    requires depth { depth ≤ 126 }
    requires few { element_chunks (basic_size (type_of schema.now elem)) count ≤ 2 ^ depth }
    requires short { length bytes.now < 2 ^ 32 }
    requires faultless { elements_fault (first_fault (type_of schema.now elem))
        (fixed_size (type_of schema.now elem)) count 0 bytes.now ≡ None }
    requires room { let t = type_of schema.now elem in
        M.room maker.old (elements_part t depth (element_values t count bytes.now)).nodes }
    ensures { let t = type_of schema.now elem in M.made maker.old maker.new
        (elements_part t depth (element_values t count bytes.now)) result }
{
    match schema.basic_size(elem) {
        Some(_) => maker.packed(depth, bytes),
        None => parts_made(maker, schema, elem, depth, count, bytes),
    }
}

// Of count elements of a composite type.
#[cycle(node)]
fn parts_made<M: Maker>(
    maker: &mut M,
    schema: &Schema,
    elem: TypeId,
    depth: u32,
    count: u64,
    bytes: &[u8],
) -> M::Out
    requires known { elem < length schema.now.trees }
    requires legal { IsLegal schema.now.format (type_of schema.now elem) }
    requires depth { depth ≤ 126 }
    requires few { count ≤ 2 ^ depth }
    requires short { length bytes.now < 2 ^ 32 }
    requires faultless { elements_fault (first_fault (type_of schema.now elem))
        (fixed_size (type_of schema.now elem)) count 0 bytes.now ≡ None }
    requires room { let t = type_of schema.now elem in
        M.room maker.old
        (whole_of depth (map (part_of_value t) (element_values t count bytes.now))).nodes }
    ensures { let t = type_of schema.now elem in M.made maker.old maker.new
        (whole_of depth (map (part_of_value t) (element_values t count bytes.now))) result }
{
    let size = schema.fixed_size(elem);
    let mut rows = maker.start(depth, count);
    let mut i = maker.ahead(&mut rows, schema, elem, count, bytes);
    'elements: while i < count {
        let part = element_at(size, count, i, bytes);
        let out = bytes_part(maker, schema, elem, part);
        maker.push(&mut rows, &out);
        i += 1;
        i += repeats(maker, size, &mut rows, &out, count - i);
    }
    maker.finish(rows)
}

// Where the part of field i of a container lies, whose size this is and whose fixed part is at
// place. The size of most is known here, and is asked of the schema once.
#[inline(always)]
fn range_at(
    schema: &Schema,
    size: Option<u64>,
    fields: &[(Name, TypeId)],
    i: usize,
    place: usize,
    bytes: &[u8],
) -> (usize, usize)
    requires below { i < length fields.now }
    requires known { AllByRecursion (λ part. part.1 < length schema.now.trees) fields.now }
    requires size { (field : List ℕ × ℕ) → field ≡ slice_index_or fields.now i field
        → size ≡ fixed_size (type_of schema.now field.1) }
    requires room { place + head_size size
        + heads_length (part_sizes (fields_over schema.now.trees (drop (i + 1) fields.now)))
        ≤ length bytes.now }
    requires short { length bytes.now < 2 ^ 32 }
    ensures { result ≡ part_range size
        (part_sizes (fields_over schema.now.trees (drop (i + 1) fields.now))) place bytes.now }
{
    match size {
        Some(size) => (place, place + size as usize),
        None => part_range(schema, fields[i].1, fields, i, place, bytes),
    }
}

// Of a container of these fields, whose types stand before id.
#[cycle(node)]
#[inline(never)]
fn fields_made<M: Maker>(
    maker: &mut M,
    schema: &Schema,
    id: TypeId,
    depth: u32,
    fields: &[(Name, TypeId)],
    bytes: &[u8],
) -> M::Out
    requires known { id < length schema.now.trees }
    requires before { AllByRecursion (λ part. part.1 < id) fields.now }
    requires legal { AreLegalFields schema.now.format (fields_over schema.now.trees fields.now) }
    requires depth { depth ≤ 126 }
    requires few { length fields.now ≤ 2 ^ depth }
    requires short { length bytes.now < 2 ^ 32 }
    requires faultless { first_fault
        (container (fields_over schema.now.trees fields.now)) 0 bytes.now
        ≡ None }
    requires room { let fs = fields_over schema.now.trees fields.now in
        M.room maker.old (whole_of depth (field_parts fs (field_values fs bytes.now))).nodes }
    ensures { let fs = fields_over schema.now.trees fields.now in
        M.made maker.old maker.new (whole_of depth (field_parts fs (field_values fs bytes.now)))
        result }
{
    let mut rows = maker.start(depth, fields.len() as u64);
    let mut place = 0usize;
    for (i, field) in fields.iter().enumerate() {
        let size = schema.fixed_size(field.1);
        let (from, to) = range_at(schema, size, fields, i, place, bytes);
        let part = &bytes[from..to];
        let out = bytes_part(maker, schema, field.1, part);
        maker.push(&mut rows, &out);
        place += head_len(size) as usize;
    }
    maker.finish(rows)
}

// Of a union of these options, whose types stand before id.
#[cycle(node)]
fn union_made<M: Maker>(
    maker: &mut M,
    schema: &Schema,
    id: TypeId,
    options: &[Option<TypeId>],
    bytes: &[u8],
) -> M::Out
    requires known { id < length schema.now.trees }
    requires before { AllByRecursion (IsBelow id) options.now }
    requires legal { AreLegalOptions schema.now.format (options_over schema.now.trees options.now) }
    requires short { length bytes.now < 2 ^ 32 }
    requires faultless { first_fault (union (options_over schema.now.trees options.now)) 0 bytes.now
        ≡ None }
    requires room { let t = union (options_over schema.now.trees options.now) in
        M.room maker.old (new_nodes t (value_in t bytes.now)) }
    ensures { let t = union (options_over schema.now.trees options.now) in
        M.made maker.old maker.new (part_of_value t (value_in t bytes.now)) result }
{
    let selector = bytes[0];
    let option = options[usize::from(selector)];
    let value = option_made(maker, schema, id, option, &bytes[1..]);
    let leaf = number_chunk(u128::from(selector));
    maker.join(value, &leaf)
}

// Of the value of the option that is chosen, or of None.
#[cycle(node)]
fn option_made<M: Maker>(
    maker: &mut M,
    schema: &Schema,
    id: TypeId,
    option: Option<TypeId>,
    bytes: &[u8],
) -> M::Out
    requires known { id < length schema.now.trees }
    requires before { IsBelow id option }
    requires short { length bytes.now < 2 ^ 32 }
    requires faultless { IfSome option
        (λ some. first_fault (type_of schema.now some) 0 bytes.now ≡ None) }
    requires room { M.room maker.old (chosen_part schema.now.trees option bytes.now).nodes }
    ensures { M.made maker.old maker.new (chosen_part schema.now.trees option bytes.now) result }
{
    match option {
        Some(option) => bytes_part(maker, schema, option, bytes),
        None => maker.none(),
    }
}
