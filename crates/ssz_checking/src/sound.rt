//! Elements that have no fault, found by a look at their booleans alone.
ghost use Rattle.std.specs.Prelude.{ℕ, ◌≡◌, ◌+◌, ◌*◌, ◌<◌, ◌≤◌, ◌^◌, length, nat_lt, IsSomeAnd};
ghost use Rattle.std.specs.List.{AllByRecursion};
ghost use Rattle.ssz_schema.specs.Sizes.{part_sizes, total_size, fixed_size};
ghost use Rattle.ssz_schema.specs.Unfolding.{type_of, fields_over};
ghost use Rattle.ssz_checking.specs.Sound.{sound_in, is_sound, are_sound};

use super::plain::is_plain;
use ssz_parts::head_len;
use ssz_schema::{Name, Schema, Ty, TypeId};

/// Elements that stand behind one another: how many, and how far apart.
#[derive(Clone, Copy)]
pub struct Row {
    pub count: usize,
    pub step: usize,
}

/// How many elements stand before the first whose part of this type, which is at the place in each,
/// is not sound.
#[cycle(sound)]
pub fn sound_count(schema: &Schema, id: TypeId, place: usize, row: Row, bytes: &[u8]) -> usize
    requires known { id < length schema.now.trees }
    requires room { IsSomeAnd (fixed_size (type_of schema.now id)) (λ z. place + z ≤ row.step) }
    requires few { row.step < 2 ^ 32 }
    requires within { row.count * row.step ≤ length bytes.now }
    requires short { length bytes.now < 2 ^ 32 }
    ensures most { result ≤ row.count }
    ensures exact { (i : ℕ) → i < row.count →
        is_sound (sound_in row.step (i + 1) bytes.now) (type_of schema.now id) place
        ≡ nat_lt i result }
{
    match schema.ty(id) {
        Ty::Uint(_) => row.count,
        Ty::Boolean => below_count(2, place, row, bytes),
        Ty::Bitvector(n) => count_where(n % 8 == 0, row),
        Ty::Vector(elem, _) => count_where(is_plain(schema, *elem), row),
        Ty::Container(fields) => sound_fields(schema, id, fields.as_slice(), place, row, bytes),
        _ => 0,
    }
}

// All, or none.
fn count_where(all: bool, row: Row) -> usize
    ensures most { result ≤ row.count }
    ensures exact { (i : ℕ) → i < row.count → all ≡ nat_lt i result }
{
    if all { row.count } else { 0 }
}

// Of the fields of a container, whose types stand before id.
#[cycle(sound)]
fn sound_fields(
    schema: &Schema,
    id: TypeId,
    fields: &[(Name, TypeId)],
    place: usize,
    row: Row,
    bytes: &[u8],
) -> usize
    requires known { id < length schema.now.trees }
    requires before { AllByRecursion (λ part. part.1 < id) fields.now }
    requires room { IsSomeAnd
        (total_size (part_sizes (fields_over schema.now.trees fields.now)))
        (λ z. place + z ≤ row.step) }
    requires few { row.step < 2 ^ 32 }
    requires within { row.count * row.step ≤ length bytes.now }
    requires short { length bytes.now < 2 ^ 32 }
    ensures most { result ≤ row.count }
    ensures exact { (i : ℕ) → i < row.count →
        are_sound (sound_in row.step (i + 1) bytes.now)
        (fields_over schema.now.trees fields.now) place
        ≡ nat_lt i result }
{
    let mut place = place;
    let mut count = row.count;
    for field in fields {
        let rest = Row {
            count,
            step: row.step,
        };
        count = sound_count(schema, field.1, place, rest, bytes);
        place += head_len(schema.fixed_size(field.1)) as usize;
    }
    count
}

// How many elements stand before the first whose byte at this place is not below the bound.
fn below_count(bound: u8, place: usize, row: Row, bytes: &[u8]) -> usize
    requires inside { place < row.step }
    requires few { row.step < 2 ^ 32 }
    requires within { row.count * row.step ≤ length bytes.now }
    requires short { length bytes.now < 2 ^ 32 }
    ensures most { result ≤ row.count }
    ensures exact { (i : ℕ) → i < row.count →
        sound_in row.step (i + 1) bytes.now bound place ≡ nat_lt i result }
{
    for i in 0..row.count {
        if bytes[place + i * row.step] >= bound {
            return i;
        }
    }
    row.count
}
