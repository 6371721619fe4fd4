//! Whether bytes have no fault. To ask it takes less than to find the fault: it goes over the bytes
//! once, and of what it passes it keeps no more than where the part before begins.
ghost use Rattle.std.specs.Prelude.{ℕ, ◌≡◌, ◌*◌, ◌<◌, ◌≤◌, ◌^◌, length, Some, None, IsNone, IfSome, IsTrue};
ghost use Rattle.std.specs.List.{AllByRecursion};
ghost use Rattle.std.specs.Option.{ForSome};
ghost use Rattle.ssz_schema.specs.Types.{container, list};
ghost use Rattle.ssz_schema.specs.Sizes.{fixed_size, part_sizes};
ghost use Rattle.ssz_schema.specs.Legal.{IsSize};
ghost use Rattle.ssz_schema.specs.Unfolding.{type_of, fields_over};
ghost use Rattle.ssz_value.specs.Encoding.{heads_length};
ghost use Rattle.ssz_value.specs.Faults.{first_fault, elements_fault, offset_at};
ghost use Rattle.ssz_checking.specs.Clean.{HasNoFault, AreCleanBefore, Closes};

use super::leaves::{bitvector, boolean};
use super::sound::{Row, sound_count};
use ssz_basic::read_bitlist;
use ssz_parts::{
    container_heads_len, count_of, end_of_part, heads_len, length_fault, offset_at, union_head,
};
use ssz_schema::{Name, Schema, Ty, TypeId};
use ssz_value::is_byte;

/// Whether it is seen that the bytes have no fault, wherever they begin.
#[cycle(clean)]
pub fn is_clean(schema: &Schema, id: TypeId, bytes: &[u8]) -> bool
    requires known { id < length schema.now.trees }
    requires short { length bytes.now < 2 ^ 32 }
    ensures { IsTrue result → HasNoFault (type_of schema.now id) bytes.now }
{
    match schema.ty(id) {
        Ty::Uint(width) => length_fault(width.byte_count(), 0, bytes).is_none(),
        Ty::Boolean => boolean(0, bytes).is_none(),
        Ty::Bitvector(n) => bitvector(*n, 0, bytes).is_none(),
        Ty::Bitlist(limit) => read_bitlist(bytes, *limit, 0).is_ok(),
        Ty::Vector(elem, count) => are_elements_clean(schema, *elem, *count, bytes),
        Ty::List(elem, limit) => is_list_clean(schema, *elem, *limit, bytes),
        Ty::Union(options) => match union_head(options.as_slice(), 0, bytes) {
            Ok(option) => is_clean(schema, option, &bytes[1..]),
            Err(fault) => fault.is_none(),
        },
        Ty::Container(fields) => is_container_clean(schema, id, fields.as_slice(), bytes),
    }
}

// Of a list of so many elements at most.
#[cycle(clean)]
#[inline(always)]
fn is_list_clean(schema: &Schema, elem: TypeId, limit: u64, bytes: &[u8]) -> bool
    requires known { elem < length schema.now.trees }
    requires short { length bytes.now < 2 ^ 32 }
    ensures { let t = list (type_of schema.now elem) limit in
        IsTrue result → first_fault t 0 bytes.now ≡ None }
{
    // Bytes are as many elements as there are, and have no fault of their own.
    if is_byte(schema, elem) {
        return bytes.len() as u64 <= limit;
    }
    is_counted_clean(schema, elem, limit, bytes)
}

// The same of elements that are no bytes: their number is asked first.
#[cycle(clean)]
#[inline(never)]
fn is_counted_clean(schema: &Schema, elem: TypeId, limit: u64, bytes: &[u8]) -> bool
    requires known { elem < length schema.now.trees }
    requires short { length bytes.now < 2 ^ 32 }
    ensures { let t = list (type_of schema.now elem) limit in
        IsTrue result → first_fault t 0 bytes.now ≡ None }
{
    match count_of(schema.fixed_size(elem), limit, 0, bytes) {
        Ok(count) => {
            // Numbers have no fault of their own.
            if let Ty::Uint(_) = schema.ty(elem) {
                return true;
            }
            are_elements_clean(schema, elem, count, bytes)
        }
        Err(_) => false,
    }
}

// Of count elements.
#[cycle(clean)]
fn are_elements_clean(schema: &Schema, elem: TypeId, count: u64, bytes: &[u8]) -> bool
    requires known { elem < length schema.now.trees }
    requires few { count ≤ 2 ^ 32 }
    requires short { length bytes.now < 2 ^ 32 }
    ensures { let t = type_of schema.now elem in
        IsTrue result → elements_fault (first_fault t) (fixed_size t) count 0 bytes.now ≡ None }
{
    match schema.fixed_size(elem) {
        Some(size) => first_unclean_alike(schema, elem, size, count, bytes).is_none(),
        None => first_unclean_variable(schema, elem, count, bytes).is_none(),
    }
}

/// The first of count elements of this size that may have a fault, or None where they have none.
#[cycle(clean)]
pub fn first_unclean_alike(
    schema: &Schema,
    elem: TypeId,
    size: u64,
    count: u64,
    bytes: &[u8],
) -> Option<u64>
    requires known { elem < length schema.now.trees }
    requires size { fixed_size (type_of schema.now elem) ≡ Some size }
    requires in_range { IsSize size }
    requires few { count ≤ 2 ^ 32 }
    requires short { length bytes.now < 2 ^ 32 }
    ensures none { IsNone result → (s : ℕ) →
        elements_fault (first_fault (type_of schema.now elem)) (Some size) count s bytes.now
        ≡ None }
    ensures before { IfSome result
        (λ i. AreCleanBefore (type_of schema.now elem) (Some size) count i bytes.now) }
{
    if bytes.len() as u64 != count * size {
        return Some(0);
    }
    for i in sound_before(schema, elem, size, count, bytes)..count {
        let place = (i * size) as usize;
        if !is_clean(schema, elem, &bytes[place..place + size as usize]) {
            return Some(i);
        }
    }
    None
}

// How many of count elements of this size have no fault by a look at their booleans alone.
#[inline(always)]
fn sound_before(schema: &Schema, elem: TypeId, size: u64, count: u64, bytes: &[u8]) -> u64
    requires known { elem < length schema.now.trees }
    requires size { fixed_size (type_of schema.now elem) ≡ Some size }
    requires in_range { IsSize size }
    requires whole { length bytes.now ≡ count * size }
    requires short { length bytes.now < 2 ^ 32 }
    ensures { AreCleanBefore (type_of schema.now elem) (Some size) count result bytes.now }
{
    // Asked of two elements at least, so that the question costs no more than the bytes.
    if count < 2 {
        return 0;
    }
    let row = Row {
        count: count as usize,
        step: size as usize,
    };
    sound_count(schema, elem, 0, row, bytes) as u64
}

/// The same of elements of a variable-size type, which may have a fault by their offsets, too.
#[cycle(clean)]
pub fn first_unclean_variable(
    schema: &Schema,
    elem: TypeId,
    count: u64,
    bytes: &[u8],
) -> Option<u64>
    requires known { elem < length schema.now.trees }
    requires size { fixed_size (type_of schema.now elem) ≡ None }
    requires few { count ≤ 2 ^ 32 }
    requires short { length bytes.now < 2 ^ 32 }
    ensures none { IsNone result → (s : ℕ) →
        elements_fault (first_fault (type_of schema.now elem)) None count s bytes.now ≡ None }
    ensures before { IfSome result
        (λ i. AreCleanBefore (type_of schema.now elem) None count i bytes.now) }
{
    if count == 0 {
        return if bytes.is_empty() { None } else { Some(0) };
    }
    if (bytes.len() as u64) < 4 * count {
        return Some(0);
    }
    if u64::from(offset_at(bytes, 0)) != 4 * count {
        return Some(0);
    }
    if let Ty::Container(fields) = schema.ty(elem) {
        return first_unclean_container(schema, elem, fields.as_slice(), count, bytes);
    }
    let mut from = 4 * count as usize;
    for i in 0..count {
        let to = end_of_part(count, i, bytes);
        if to < from {
            return Some(i);
        }
        if bytes.len() < to {
            return Some(i);
        }
        if !is_clean(schema, elem, &bytes[from..to]) {
            return Some(i);
        }
        from = to;
    }
    None
}

// The same of containers of these fields behind their offsets, of which the first is right. How
// long the fixed parts are is asked once for all.
#[cycle(clean)]
#[inline(never)]
fn first_unclean_container(
    schema: &Schema,
    id: TypeId,
    fields: &[(Name, TypeId)],
    count: u64,
    bytes: &[u8],
) -> Option<u64>
    requires known { id < length schema.now.trees }
    requires form { type_of schema.now id ≡ container (fields_over schema.now.trees fields.now) }
    requires before { AllByRecursion (λ part. part.1 < id) fields.now }
    requires some { 0 < count }
    requires room { 4 * count ≤ length bytes.now }
    requires first { offset_at bytes.now 0 ≡ 4 * count }
    requires short { length bytes.now < 2 ^ 32 }
    ensures none { IsNone result → (s : ℕ) →
        elements_fault (first_fault (type_of schema.now id)) None count s bytes.now ≡ None }
    ensures before { IfSome result
        (λ i. AreCleanBefore (type_of schema.now id) None count i bytes.now) }
{
    // Every type of a schema is legal.
    let _legal = schema.ty(id);
    let heads = heads_len(schema, fields);
    let mut from = 4 * count as usize;
    for i in 0..count {
        let to = end_of_part(count, i, bytes);
        if to < from {
            return Some(i);
        }
        if bytes.len() < to {
            return Some(i);
        }
        if !are_fields_clean(schema, id, fields, heads, &bytes[from..to]) {
            return Some(i);
        }
        from = to;
    }
    None
}

// Of a container of these fields, whose types stand before id.
#[cycle(clean)]
fn is_container_clean(schema: &Schema, id: TypeId, fields: &[(Name, TypeId)], bytes: &[u8]) -> bool
    requires known { id < length schema.now.trees }
    requires form { type_of schema.now id ≡ container (fields_over schema.now.trees fields.now) }
    requires before { AllByRecursion (λ part. part.1 < id) fields.now }
    requires short { length bytes.now < 2 ^ 32 }
    ensures { let t = container (fields_over schema.now.trees fields.now) in
        IsTrue result → first_fault t 0 bytes.now ≡ None }
{
    // Every type of a schema is legal.
    let _legal = schema.ty(id);
    let heads = container_heads_len(schema, id, fields);
    are_fields_clean(schema, id, fields, heads, bytes)
}

// Of a container of these fields, whose fixed parts have this length. Each offset is read once: it
// ends the variable part before it, which is judged then.
#[cycle(clean)]
#[inline(always)]
fn are_fields_clean(
    schema: &Schema,
    id: TypeId,
    fields: &[(Name, TypeId)],
    heads: usize,
    bytes: &[u8],
) -> bool
    requires known { id < length schema.now.trees }
    requires before { AllByRecursion (λ part. part.1 < id) fields.now }
    requires heads { let sizes = part_sizes (fields_over schema.now.trees fields.now) in
        heads ≡ heads_length sizes }
    requires short { length bytes.now < 2 ^ 32 }
    ensures { let t = container (fields_over schema.now.trees fields.now) in
        IsTrue result → first_fault t 0 bytes.now ≡ None }
{
    if bytes.len() < heads {
        return false;
    }
    let mut place = 0usize;
    let mut from = heads;
    let mut last: Option<TypeId> = None;
    for field in fields {
        match schema.fixed_size(field.1) {
            Some(size) => {
                let end = place + size as usize;
                if !is_fixed_clean(schema, field.1, &bytes[place..end]) {
                    return false;
                }
                place = end;
            }
            None => {
                let to = offset_at(bytes, place) as usize;
                if !is_closed_clean(schema, id, last, from, to, bytes) {
                    return false;
                }
                place += 4;
                last = Some(field.1);
                from = to;
            }
        }
    }
    is_closed_clean(schema, id, last, from, bytes.len(), bytes)
}

// Of the variable part that begins at from and ends at to; where there is none before, whether to
// is where the fixed parts end.
#[cycle(clean)]
#[inline(always)]
fn is_closed_clean(
    schema: &Schema,
    id: TypeId,
    last: Option<TypeId>,
    from: usize,
    to: usize,
    bytes: &[u8],
) -> bool
    requires known { id < length schema.now.trees }
    requires before { ForSome last (λ part. part < id) }
    requires short { length bytes.now < 2 ^ 32 }
    ensures { IsTrue result → Closes schema.now.trees last from to bytes.now }
{
    match last {
        None => to == from,
        Some(part) => {
            if to < from {
                return false;
            }
            if bytes.len() < to {
                return false;
            }
            is_part_clean(schema, part, &bytes[from..to])
        }
    }
}

// Of a field of fixed size. A number of the right size, the commonest, has no fault.
#[cycle(clean)]
#[inline(always)]
fn is_fixed_clean(schema: &Schema, id: TypeId, bytes: &[u8]) -> bool
    requires known { id < length schema.now.trees }
    requires size { fixed_size (type_of schema.now id) ≡ Some (length bytes.now) }
    requires short { length bytes.now < 2 ^ 32 }
    ensures { IsTrue result → HasNoFault (type_of schema.now id) bytes.now }
{
    if let Ty::Uint(_) = schema.ty(id) {
        return true;
    }
    is_clean(schema, id, bytes)
}

// Of a field of variable size. A list, the commonest, is judged without a call.
#[cycle(clean)]
#[inline(always)]
fn is_part_clean(schema: &Schema, id: TypeId, bytes: &[u8]) -> bool
    requires known { id < length schema.now.trees }
    requires short { length bytes.now < 2 ^ 32 }
    ensures { IsTrue result → HasNoFault (type_of schema.now id) bytes.now }
{
    if let Ty::List(elem, limit) = schema.ty(id) {
        return is_list_clean(schema, *elem, *limit, bytes);
    }
    is_clean(schema, id, bytes)
}
