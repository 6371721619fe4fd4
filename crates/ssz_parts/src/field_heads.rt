ghost use Rattle.std.specs.Prelude.{◌≡◌, ◌+◌, ◌<◌, ◌≤◌, ◌^◌, length, Some, Option};
ghost use Rattle.std.specs.List.{AllByRecursion};
ghost use Rattle.ssz_schema.specs.Types.{container};
ghost use Rattle.ssz_schema.specs.Sizes.{part_sizes, fixed_size};
ghost use Rattle.ssz_schema.specs.Unfolding.{fields_over, type_of};
ghost use Rattle.ssz_value.specs.Encoding.{heads_length};
ghost use Rattle.ssz_value.specs.Faults.{head_fault};

use super::heads::{length_fault, offset_fault};
use super::offsets::{head_len, offset_at};
use ssz_bytes::Fault;
use ssz_schema::{Name, Schema, TypeId};

/// The length of all fixed parts of these fields.
pub fn heads_len(schema: &Schema, fields: &[(Name, TypeId)]) -> usize
    requires known { AllByRecursion (λ part. part.1 < length schema.now.trees) fields.now }
    requires short { heads_length (part_sizes (fields_over schema.now.trees fields.now)) < 2 ^ 32 }
    ensures { result ≡ heads_length (part_sizes (fields_over schema.now.trees fields.now)) }
{
    let mut len = 0usize;
    for field in fields {
        len += head_len(schema.fixed_size(field.1)) as usize;
    }
    len
}

/// The length of all fixed parts of the container type, whose fields these are.
pub fn container_heads_len(schema: &Schema, id: TypeId, fields: &[(Name, TypeId)]) -> usize
    requires container { id < length schema.now.trees }
    requires form { type_of schema.now id ≡ container (fields_over schema.now.trees fields.now) }
    requires known { AllByRecursion (λ part. part.1 < length schema.now.trees) fields.now }
    requires short { heads_length (part_sizes (fields_over schema.now.trees fields.now)) < 2 ^ 32 }
    ensures { result ≡ heads_length (part_sizes (fields_over schema.now.trees fields.now)) }
{
    // With no offset among them, they are the whole.
    match schema.fixed_size(id) {
        Some(size) => size as usize,
        None => heads_len(schema, fields),
    }
}

/// The first fault of the head of the container type, whose fields these are.
#[inline(always)]
pub fn fields_head_fault(
    schema: &Schema,
    id: TypeId,
    fields: &[(Name, TypeId)],
    start: u64,
    bytes: &[u8],
) -> Option<Fault>
    requires container { id < length schema.now.trees }
    requires form { type_of schema.now id ≡ container (fields_over schema.now.trees fields.now) }
    requires known { AllByRecursion (λ part. part.1 < length schema.now.trees) fields.now }
    requires short { start + length bytes.now < 2 ^ 32 }
    ensures { let sizes = part_sizes (fields_over schema.now.trees fields.now) in
        result ≡ head_fault sizes start bytes.now }
{
    // With no offset among them, the fixed parts are all.
    if let Some(size) = schema.fixed_size(id) {
        return length_fault(size, start, bytes);
    }
    offsets_head_fault(schema, id, fields, start, bytes)
}

// The same, with an offset or more among the fixed parts.
#[inline(never)]
fn offsets_head_fault(
    schema: &Schema,
    id: TypeId,
    fields: &[(Name, TypeId)],
    start: u64,
    bytes: &[u8],
) -> Option<Fault>
    requires container { id < length schema.now.trees }
    requires form { type_of schema.now id ≡ container (fields_over schema.now.trees fields.now) }
    requires known { AllByRecursion (λ part. part.1 < length schema.now.trees) fields.now }
    requires short { start + length bytes.now < 2 ^ 32 }
    ensures { let sizes = part_sizes (fields_over schema.now.trees fields.now) in
        result ≡ head_fault sizes start bytes.now }
{
    // Every type of a schema is legal.
    let _legal = schema.ty(id);
    variable_head_fault(schema, fields, heads_len(schema, fields), start, bytes)
}

/// The same by the fields, whose fixed parts have this length.
#[inline(always)]
pub fn variable_head_fault(
    schema: &Schema,
    fields: &[(Name, TypeId)],
    heads: usize,
    start: u64,
    bytes: &[u8],
) -> Option<Fault>
    requires known { AllByRecursion (λ part. part.1 < length schema.now.trees) fields.now }
    requires heads { let sizes = part_sizes (fields_over schema.now.trees fields.now) in
        heads ≡ heads_length sizes }
    requires short { start + length bytes.now < 2 ^ 32 }
    ensures { let sizes = part_sizes (fields_over schema.now.trees fields.now) in
        result ≡ head_fault sizes start bytes.now }
{
    if bytes.len() < heads {
        return Some(Fault {
            code: Fault::SHORT,
            position: start,
        });
    }
    fields_offsets_fault(schema, fields, heads as u64, start, bytes)
}

// The same, where the fixed parts end at heads, within the bytes.
#[inline(always)]
fn fields_offsets_fault(
    schema: &Schema,
    fields: &[(Name, TypeId)],
    heads: u64,
    start: u64,
    bytes: &[u8],
) -> Option<Fault>
    requires known { AllByRecursion (λ part. part.1 < length schema.now.trees) fields.now }
    requires heads { let sizes = part_sizes (fields_over schema.now.trees fields.now) in
        heads ≡ heads_length sizes }
    requires room { heads ≤ length bytes.now }
    requires short { start + length bytes.now < 2 ^ 32 }
    ensures { let sizes = part_sizes (fields_over schema.now.trees fields.now) in
        result ≡ head_fault sizes start bytes.now }
{
    let len = bytes.len() as u64;
    let mut place = 0u64;
    let mut before: Option<u32> = None;
    for field in fields {
        match schema.fixed_size(field.1) {
            Some(size) => place += size,
            None => {
                let found = offset_at(bytes, place as usize);
                let fault = offset_fault(before, heads as u32, len as u32, found, start + place);
                if fault.is_some() {
                    return fault;
                }
                before = Some(found);
                place += 4;
            }
        }
    }
    if before.is_none() && heads < len {
        return Some(Fault {
            code: Fault::EXTRA,
            position: start + heads,
        });
    }
    None
}
