ghost use Rattle.std.specs.Prelude.{◌≡◌, ◌+◌, ◌<◌, ◌≤◌, ◌^◌, length, drop};
ghost use Rattle.std.specs.List.{AllByRecursion};
ghost use Rattle.ssz_schema.specs.Sizes.{part_sizes, head_size, fixed_size};
ghost use Rattle.ssz_schema.specs.Unfolding.{fields_over, type_of};
ghost use Rattle.ssz_value.specs.Encoding.{heads_length};
ghost use Rattle.ssz_value.specs.Faults.{next_offset};
ghost use Rattle.ssz_parts.specs.Ranges.{part_range};

use super::offsets::offset_at;
use ssz_schema::{Name, Schema, TypeId};

/// Where the part of field i of a container lies, from and to, whose fixed part is at place.
pub fn part_range(
    schema: &Schema,
    field: TypeId,
    fields: &[(Name, TypeId)],
    i: usize,
    place: usize,
    bytes: &[u8],
) -> (usize, usize)
    requires field { field < length schema.now.trees }
    requires below { i < length fields.now }
    requires known { AllByRecursion (λ part. part.1 < length schema.now.trees) fields.now }
    requires room { place + head_size (fixed_size (type_of schema.now field))
        + heads_length (part_sizes (fields_over schema.now.trees (drop (i + 1) fields.now)))
        ≤ length bytes.now }
    requires short { length bytes.now < 2 ^ 32 }
    ensures { result ≡ part_range (fixed_size (type_of schema.now field))
        (part_sizes (fields_over schema.now.trees (drop (i + 1) fields.now))) place bytes.now }
{
    match schema.fixed_size(field) {
        Some(size) => (place, place + size as usize),
        None => (
            offset_at(bytes, place) as usize,
            next_offset(schema, &fields[i + 1..], place + 4, bytes),
        ),
    }
}

// The first offset of these fields, whose fixed parts begin at place, or the end.
fn next_offset(schema: &Schema, fields: &[(Name, TypeId)], place: usize, bytes: &[u8]) -> usize
    requires known { AllByRecursion (λ part. part.1 < length schema.now.trees) fields.now }
    requires room { place + heads_length (part_sizes (fields_over schema.now.trees fields.now))
        ≤ length bytes.now }
    requires short { length bytes.now < 2 ^ 32 }
    ensures { result ≡ next_offset (part_sizes (fields_over schema.now.trees fields.now))
        place bytes.now }
{
    let mut place = place;
    for field in fields {
        match schema.fixed_size(field.1) {
            Some(size) => place += size as usize,
            None => return offset_at(bytes, place) as usize,
        }
    }
    bytes.len()
}
