//! Which types have values that are one leaf each, and which containers have few fields: what is
//! asked of the schema once, for many values.
ghost use Rattle.std.specs.Prelude.{ℕ, ◌≡◌, ◌<◌, ◌≤◌, length, true};
ghost use Rattle.std.specs.List.{AllByRecursion};
ghost use Rattle.std.specs.Option.{ForSome};
ghost use Rattle.ssz_schema.specs.Types.{vector};
ghost use Rattle.ssz_schema.specs.Sizes.{depth as depth_of_type};
ghost use Rattle.ssz_schema.specs.Unfolding.{type_of};
ghost use Rattle.ssz_writing.specs.Leaves.{AreFewFields, AreItemSizes, AreLeafLens, AreShort, IsItemSize, IsLeafLen};

use ssz_nodes::{Basic, NEAR, NEAR_DEPTH};
use ssz_schema::{Name, Schema, Ty, TypeId};

/// A container of at most NEAR fields.
#[derive(Drop)]
pub(crate) struct Few<'a> {
    pub id: TypeId,
    pub fields: &'a [(Name, TypeId)],
    // How many bytes of its leaf each field takes, or 0 where it may be no leaf.
    pub lens: [usize; NEAR],
    // How many bytes an element of each field takes that is a list of a basic type, or 0.
    pub sizes: [usize; NEAR],
    // Whether the fixed part of each is a leaf or an offset, so that it pays to gather them.
    pub short: bool,
}

impl<'a> Few<'a> {
    /// The type, if it is such a container.
    pub(crate) fn of(schema: &'a Schema, id: TypeId) -> Option<Few<'a>>
        requires { id < length schema.now.trees }
        ensures same { ForSome result (λ few. few.id ≡ id) }
        ensures fields { ForSome result (λ few. AreFewFields schema.now few.id few.fields.now) }
        ensures lens { ForSome result (λ few. AreLeafLens schema.now few.fields.now few.lens) }
        ensures sizes { ForSome result (λ few. AreItemSizes schema.now few.fields.now few.sizes) }
        ensures short { ForSome result (λ few. few.short ≡ true
            → AreShort schema.now few.fields.now few.lens) }
    {
        let fields = few_fields(schema, id)?;
        let lens = leaf_lens(schema, fields);
        Some(Few {
            id,
            fields,
            lens,
            sizes: item_sizes(schema, fields),
            short: are_short(schema, fields, &lens),
        })
    }
}

// The fields of such a container.
fn few_fields(schema: &Schema, id: TypeId) -> Option<&[(Name, TypeId)]>
    requires { id < length schema.now.trees }
    ensures { ForSome result (λ fields. AreFewFields schema.now id fields.now) }
{
    if schema.depth(id) > NEAR_DEPTH {
        return None;
    }
    match schema.ty(id) {
        Ty::Container(fields) => at_most_few(fields.as_slice()),
        _ => None,
    }
}

// The fields, if they are at most NEAR.
fn at_most_few(fields: &[(Name, TypeId)]) -> Option<&[(Name, TypeId)]>
    ensures { ForSome result (λ some. (some.now ≡ fields.now) × (length fields.now ≤ 8)) }
{
    if fields.len() > NEAR {
        return None;
    }
    Some(fields)
}

// How many bytes of its leaf each field takes, or 0 where it may be no leaf.
fn leaf_lens(schema: &Schema, fields: &[(Name, TypeId)]) -> [usize; NEAR]
    requires known { AllByRecursion (λ part. part.1 < length schema.now.trees) fields.now }
    requires few { length fields.now ≤ 8 }
    ensures { AreLeafLens schema.now fields.now result }
{
    let mut lens = [0usize; NEAR];
    for (i, field) in fields.iter().enumerate() {
        lens[i] = leaf_len(schema, field.1);
    }
    lens
}

// How many bytes an element of each field takes that is a list of a basic type, or 0.
fn item_sizes(schema: &Schema, fields: &[(Name, TypeId)]) -> [usize; NEAR]
    requires known { AllByRecursion (λ part. part.1 < length schema.now.trees) fields.now }
    requires few { length fields.now ≤ 8 }
    ensures { AreItemSizes schema.now fields.now result }
{
    let mut sizes = [0usize; NEAR];
    for (i, field) in fields.iter().enumerate() {
        sizes[i] = item_size(schema, field.1);
    }
    sizes
}

// Of a type.
fn item_size(schema: &Schema, id: TypeId) -> usize
    requires { id < length schema.now.trees }
    ensures { IsItemSize (type_of schema.now id) result }
{
    match schema.ty(id) {
        Ty::List(elem, _) => match Basic::of(schema, *elem) {
            Some(basic) => basic.size(),
            None => 0,
        },
        _ => 0,
    }
}

// Whether each field of fixed size is told to be a leaf.
fn are_short(schema: &Schema, fields: &[(Name, TypeId)], lens: &[usize; NEAR]) -> bool
    requires known { AllByRecursion (λ part. part.1 < length schema.now.trees) fields.now }
    requires few { length fields.now ≤ 8 }
    ensures { result ≡ true → AreShort schema.now fields.now lens.now }
{
    for (i, field) in fields.iter().enumerate() {
        if lens[i] == 0 && !schema.is_variable(field.1) {
            return false;
        }
    }
    true
}

// Of a type.
fn leaf_len(schema: &Schema, id: TypeId) -> usize
    requires { id < length schema.now.trees }
    ensures { IsLeafLen (type_of schema.now id) result }
{
    if let Some(basic) = Basic::of(schema, id) {
        return basic.size();
    }
    match schema.ty(id) {
        Ty::Vector(elem, n) => packed_len(schema, *elem, *n, schema.depth(id)),
        _ => 0,
    }
}

// Of a vector of n elements, in a full tree of this depth.
fn packed_len(schema: &Schema, elem: TypeId, n: u64, depth: u32) -> usize
    requires known { elem < length schema.now.trees }
    requires depth { depth ≡ depth_of_type (vector (type_of schema.now elem) n) }
    ensures { IsLeafLen (vector (type_of schema.now elem) n) result }
{
    if depth > 0 {
        return 0;
    }
    match Basic::of(schema, elem) {
        Some(basic) => at_most_chunk((n as usize).saturating_mul(basic.size())),
        None => 0,
    }
}

// The number, or 0 where it is greater than 32.
fn at_most_chunk(len: usize) -> usize
    ensures few { result ≤ 32 }
    ensures same { 0 < result → result ≡ len }
{
    if len > 32 {
        return 0;
    }
    len
}
