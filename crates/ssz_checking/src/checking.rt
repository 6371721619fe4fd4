ghost use Rattle.std.specs.Prelude.{◌≡◌, ◌+◌, ◌<◌, ◌≤◌, ◌^◌, length, Some, None};
ghost use Rattle.std.specs.List.{AllByRecursion};
ghost use Rattle.ssz_schema.specs.Types.{container, list};
ghost use Rattle.ssz_schema.specs.Sizes.{fixed_size};
ghost use Rattle.ssz_schema.specs.Legal.{IsSize};
ghost use Rattle.ssz_schema.specs.Unfolding.{type_of, fields_over};
ghost use Rattle.ssz_value.specs.Faults.{first_fault, elements_fault};

use super::clean::{first_unclean_alike, first_unclean_variable, is_clean};
use super::leaves::{bitvector, boolean};
use ssz_basic::read_bitlist;
use ssz_bytes::Fault;
use ssz_parts::{
    count_of, end_of_part, fields_head_fault, head_len, length_fault, offset_at, offsets_fault,
    part_range, union_head,
};
use ssz_schema::{Name, Schema, Ty, TypeId};

/// The first fault of the bytes, or None where they have none: by the law `decoding_is_exact` of
/// ssz_value exactly where they are the encoding of a value of the type.
pub fn check(schema: &Schema, id: TypeId, bytes: &[u8]) -> Option<Fault>
    requires known { id < length schema.now.trees }
    requires short { length bytes.now < 2 ^ 32 }
    ensures { result ≡ first_fault (type_of schema.now id) 0 bytes.now }
{
    judged(schema, id, 0, bytes)
}

// The same of bytes that begin at start. Most have no fault, and that is found sooner than one: of
// a container it is asked here, and of elements below, where the search begins at the first that
// may have one.
#[cycle(check)]
fn judged(schema: &Schema, id: TypeId, start: u64, bytes: &[u8]) -> Option<Fault>
    requires known { id < length schema.now.trees }
    requires short { start + length bytes.now < 2 ^ 32 }
    ensures { result ≡ first_fault (type_of schema.now id) start bytes.now }
{
    if let Ty::Container(_) = schema.ty(id) {
        if is_clean(schema, id, bytes) {
            return None;
        }
    }
    scope(schema, id, start, bytes)
}

// Of bytes of which it is not seen that they have none. Nothing here allocates, whatever counts and
// limits the bytes or the schema claim, and the calls nest as the type does.
#[cycle(check)]
fn scope(schema: &Schema, id: TypeId, start: u64, bytes: &[u8]) -> Option<Fault>
    requires known { id < length schema.now.trees }
    requires short { start + length bytes.now < 2 ^ 32 }
    ensures { result ≡ first_fault (type_of schema.now id) start bytes.now }
{
    match schema.ty(id) {
        Ty::Uint(width) => length_fault(width.byte_count(), start, bytes),
        Ty::Boolean => boolean(start, bytes),
        Ty::Bitvector(n) => bitvector(*n, start, bytes),
        Ty::Bitlist(limit) => read_bitlist(bytes, *limit, start).err(),
        Ty::Vector(elem, count) => elements(schema, *elem, *count, start, bytes),
        Ty::List(elem, limit) => list(schema, *elem, *limit, start, bytes),
        Ty::Union(options) => match union_head(options.as_slice(), start, bytes) {
            Ok(option) => judged(schema, option, start + 1, &bytes[1..]),
            Err(fault) => fault,
        },
        Ty::Container(fields) => container(schema, id, fields.as_slice(), start, bytes),
    }
}

// Of a list of so many elements at most.
#[cycle(check)]
fn list(schema: &Schema, elem: TypeId, limit: u64, start: u64, bytes: &[u8]) -> Option<Fault>
    requires known { elem < length schema.now.trees }
    requires short { start + length bytes.now < 2 ^ 32 }
    ensures { result ≡ first_fault (list (type_of schema.now elem) limit) start bytes.now }
{
    match count_of(schema.fixed_size(elem), limit, start, bytes) {
        Ok(count) => elements(schema, elem, count, start, bytes),
        Err(fault) => Some(fault),
    }
}

// Of count elements.
#[cycle(check)]
fn elements(schema: &Schema, elem: TypeId, count: u64, start: u64, bytes: &[u8]) -> Option<Fault>
    requires known { elem < length schema.now.trees }
    requires few { count ≤ 2 ^ 32 }
    requires short { start + length bytes.now < 2 ^ 32 }
    ensures { let t = type_of schema.now elem in
        result ≡ elements_fault (first_fault t) (fixed_size t) count start bytes.now }
{
    match schema.fixed_size(elem) {
        Some(size) => fixed_elements(schema, elem, size, count, start, bytes),
        None => variable_elements(schema, elem, count, start, bytes),
    }
}

// Of count elements of this size.
#[cycle(check)]
fn fixed_elements(
    schema: &Schema,
    elem: TypeId,
    size: u64,
    count: u64,
    start: u64,
    bytes: &[u8],
) -> Option<Fault>
    requires known { elem < length schema.now.trees }
    requires size { fixed_size (type_of schema.now elem) ≡ Some size }
    requires in_range { IsSize size }
    requires few { count ≤ 2 ^ 32 }
    requires short { start + length bytes.now < 2 ^ 32 }
    ensures { let t = type_of schema.now elem in
        result ≡ elements_fault (first_fault t) (Some size) count start bytes.now }
{
    if let Some(fault) = length_fault(count * size, start, bytes) {
        return Some(fault);
    }
    let Some(first) = first_unclean_alike(schema, elem, size, count, bytes) else {
        return None;
    };
    for i in first..count {
        let place = (i * size) as usize;
        let part = &bytes[place..place + size as usize];
        if let Some(fault) = scope(schema, elem, start + place as u64, part) {
            return Some(fault);
        }
    }
    None
}

// Of count elements of a variable-size type.
#[cycle(check)]
fn variable_elements(
    schema: &Schema,
    elem: TypeId,
    count: u64,
    start: u64,
    bytes: &[u8],
) -> Option<Fault>
    requires known { elem < length schema.now.trees }
    requires size { fixed_size (type_of schema.now elem) ≡ None }
    requires few { count ≤ 2 ^ 32 }
    requires short { start + length bytes.now < 2 ^ 32 }
    ensures { let t = type_of schema.now elem in
        result ≡ elements_fault (first_fault t) None count start bytes.now }
{
    let Some(first) = first_unclean_variable(schema, elem, count, bytes) else {
        return None;
    };
    if let Some(fault) = offsets_fault(count, start, bytes) {
        return Some(fault);
    }
    for i in first..count {
        let from = offset_at(bytes, (4 * i) as usize) as usize;
        let part = &bytes[from..end_of_part(count, i, bytes)];
        if let Some(fault) = scope(schema, elem, start + from as u64, part) {
            return Some(fault);
        }
    }
    None
}

// Of a container of these fields, whose types stand before id.
#[cycle(check)]
fn container(
    schema: &Schema,
    id: TypeId,
    fields: &[(Name, TypeId)],
    start: u64,
    bytes: &[u8],
) -> Option<Fault>
    requires known { id < length schema.now.trees }
    requires form { type_of schema.now id ≡ container (fields_over schema.now.trees fields.now) }
    requires before { AllByRecursion (λ part. part.1 < id) fields.now }
    requires short { start + length bytes.now < 2 ^ 32 }
    ensures { result ≡ first_fault
        (container (fields_over schema.now.trees fields.now)) start bytes.now }
{
    if let Some(fault) = fields_head_fault(schema, id, fields, start, bytes) {
        return Some(fault);
    }
    let mut place = 0usize;
    for (i, field) in fields.iter().enumerate() {
        // A number of the right size has no fault.
        if let Ty::Uint(_) = schema.ty(field.1) {
            place += head_len(schema.fixed_size(field.1)) as usize;
            continue;
        }
        let (from, to) = part_range(schema, field.1, fields, i, place, bytes);
        let part = &bytes[from..to];
        if let Some(fault) = scope(schema, field.1, start + from as u64, part) {
            return Some(fault);
        }
        place += head_len(schema.fixed_size(field.1)) as usize;
    }
    None
}
