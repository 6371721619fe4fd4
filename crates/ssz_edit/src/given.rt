ghost use Rattle.std.specs.Prelude.{ℕ, ◌≡◌, ◌==◌, ◌+◌, ◌-◌, ◌*◌, ◌<◌, ◌≤◌, ◌^◌, length, min, slice_index, Some};
ghost use Rattle.ssz_schema.specs.Types.{boolean};
ghost use Rattle.ssz_schema.specs.Sizes.{basic_size};
ghost use Rattle.ssz_schema.specs.Unfolding.{type_of, IsBelow};
ghost use Rattle.ssz_value.specs.Encoding.{serialize};
ghost use Rattle.ssz_value.specs.Pairs.{pairs};
ghost use Rattle.ssz_value.specs.Trees.{padded};
ghost use Rattle.ssz_value.specs.Values.{Fits, truth};
ghost use Rattle.ssz_value.specs.Standing.{value_of, IsValue};
ghost use Rattle.ssz_making.specs.Parts.{part_of_value};
ghost use Rattle.ssz_making.specs.Nodes.{new_nodes};
ghost use Rattle.ssz_tree.specs.Added.{MakesNode};
ghost use Rattle.ssz_edit.specs.Given.{given_value, option_value, values_given, FitsOf, IsGiven, IsOfOption};

use ssz_arena::{Arena, NodeId};
use ssz_bytes::as_bytes;
use ssz_chunk::{Chunk, PairHash};
use ssz_merkle::chunk_at;
use ssz_packing::basic_chunk;
use ssz_schema::{Schema, TypeId};
use ssz_tree::{bytes_needed, bytes_node, nodes_needed, value_node};
use ssz_value::Value;

/// What is put into a value: another one, or the bytes that encode it (simple-serialize.md,
/// Serialization), which become nodes with no value made.
#[derive(Clone, Copy, Debug)]
pub enum Given<'a> {
    Value(&'a Value),
    Bytes(&'a [u8]),
}

/// Bytes without a fault are those of a value that fits: called for its clause.
pub(crate) fn fitting(schema: &Schema, id: TypeId, given: &Given<'_>)
    requires known { id < length schema.now.trees }
    requires given { IsGiven (type_of schema.now id) given.now }
    ensures { let t = type_of schema.now id in Fits t (given_value t given.now) }
{
    match given {
        Given::Value(_) => (),
        Given::Bytes(bytes) => {
            let _legal = schema.ty(id);
            let _bytes = as_bytes(bytes);
        }
    }
}

/// The same of an option.
pub(crate) fn option_fitting(schema: &Schema, option: Option<TypeId>, inner: &Option<Given<'_>>)
    requires known { IsBelow (length schema.now.trees) option }
    requires inner { IsOfOption schema.now option inner.now }
    ensures { FitsOf schema.now option (option_value schema.now option inner.now) }
{
    if let Some(id) = option {
        if let Some(given) = inner {
            fitting(schema, id, given);
        }
    }
}

/// So many nodes are enough for it: a bound in its pairs alone.
pub(crate) fn given_needed(schema: &Schema, id: TypeId, given: &Given<'_>) -> usize
    requires known { id < length schema.now.trees }
    requires given { IsGiven (type_of schema.now id) given.now }
    ensures { let t = type_of schema.now id in
        result ≡ min (2 * pairs t (given_value t given.now) + 1) (2 ^ 64 - 1) }
{
    match given {
        Given::Value(value) => nodes_needed(schema, id, value),
        Given::Bytes(bytes) => bytes_needed(schema, id, bytes),
    }
}

/// Its node, where there is room.
pub(crate) fn given_node<H: PairHash>(
    arena: &mut Arena<H>,
    schema: &Schema,
    id: TypeId,
    given: &Given<'_>,
) -> NodeId
    requires known { id < length schema.now.trees }
    requires given { IsGiven (type_of schema.now id) given.now }
    requires room { let t = type_of schema.now id in
        new_nodes t (given_value t given.now) ≤ arena.old.spare }
    ensures { let t = type_of schema.now id in
        MakesNode arena.old arena.new (part_of_value t (given_value t given.now)) result }
{
    match given {
        Given::Value(value) => value_node(arena, schema, id, value),
        Given::Bytes(bytes) => bytes_node(arena, schema, id, bytes),
    }
}

/// The encoding of a number or a boolean, with zeros behind it.
pub(crate) fn given_chunk(schema: &Schema, id: TypeId, given: &Given<'_>) -> Chunk
    requires known { id < length schema.now.trees }
    requires given { IsGiven (type_of schema.now id) given.now }
    ensures { let t = type_of schema.now id in let x = given_value t given.now in
        (size : ℕ) → basic_size t ≡ Some size → Fits t x → result.0 ≡ padded (serialize t x) }
{
    match given {
        Given::Value(value) => basic_chunk(value),
        Given::Bytes(bytes) => {
            let _legal = schema.ty(id);
            chunk_at(as_bytes(bytes), 0)
        }
    }
}

/// The truth of a boolean.
pub(crate) fn given_flag(given: &Given<'_>) -> bool
    requires { IsGiven boolean given.now }
    ensures { given_value boolean given.now ≡ truth result }
{
    match given {
        Given::Value(value) => flag_of(value),
        Given::Bytes(bytes) => flag_in(bytes),
    }
}

// Of a value.
fn flag_of(value: &Value) -> bool
    requires { IsValue boolean value.now }
    ensures { value_of value.now ≡ truth result }
{
    match value {
        Value::Bool(flag) => *flag,
        _ => false,
    }
}

// Of bytes.
fn flag_in(bytes: &[u8]) -> bool
    requires { 0 < length bytes.now }
    ensures { result ≡ (slice_index bytes.now 0 == 1) }
{
    bytes[0] == 1
}

/// What is given where there is a value, as for an option of a union (`put_choice`).
pub fn given_of(inner: Option<&Value>) -> Option<Given<'_>>
    ensures { result ≡ values_given inner.entry }
{
    match inner {
        Some(value) => Some(Given::Value(value)),
        None => None,
    }
}
