ghost use Rattle.std.specs.Prelude.{◌≡◌, ◌<◌, ◌≤◌, ◌+◌, ◌^◌, [], length, map, replicate, Some, Option};
ghost use Rattle.std.specs.List.{AllByRecursion};
ghost use Rattle.ssz_schema.specs.Types.{container, union, uint, boolean, bitvector, bitlist};
ghost use Rattle.ssz_schema.specs.Sizes.{byte_count, fixed_size, head_size, part_sizes};
ghost use Rattle.ssz_schema.specs.Legal.{IsLegal};
ghost use Rattle.ssz_bytes.specs.Bytes.{le_bytes, number_of_bits, delimited, bits_size};
ghost use Rattle.ssz_schema.specs.Unfolding.{type_of, fields_over, options_over, IsBelow};
ghost use Rattle.ssz_value.specs.Encoding.{serialize, heads_length, bodies, joined, joined_alike, field_encodings};
ghost use Rattle.ssz_value.specs.Standing.{value_of, IsValue};
ghost use Rattle.ssz_value.specs.Shapes.{AreFields, IsSequence, parts_of};
ghost use Rattle.ssz_parts.specs.Encoded.{body_of};
ghost use Rattle.ssz_value.specs.Written.{Appends};
ghost use Rattle.ssz_codec.specs.Writing.{WritesEncoding, PutsPart, PutsAll};

use super::measuring::encoded_len;
use ssz_basic::{put_bits, put_uint};
use ssz_bytes::BitRun;
use ssz_parts::{container_heads_len, head_len};
use ssz_schema::{Name, Schema, Ty, TypeId, Width};
use ssz_value::{EncodeFault, Value, option_at, wide_bytes};

/// Appends the value's encoding. `TooLong` exactly where its length exceeds max. After a refusal
/// `out` is as before.
pub fn encode(
    schema: &Schema,
    id: TypeId,
    value: &Value,
    max: u32,
    out: &mut Vec<u8>,
) -> Result<(), EncodeFault>
    requires known { id < length schema.now.trees }
    requires value { IsValue (type_of schema.now id) value.now }
    ensures { let bytes = serialize (type_of schema.now id) (value_of value.now) in
        Appends bytes max out.old.items out.new.items result }
{
    let len = encoded_len(schema, id, value);
    if len > u64::from(max) {
        return Err(EncodeFault::TooLong);
    }
    let before = out.len();
    out.resize(before + len as usize, 0)?;
    write_value(schema, id, value, &mut out.as_mut_slice()[before..]);
    Ok(())
}

// Writes the encoding at the front of the room, and answers its length.
#[cycle(write)]
fn write_value(schema: &Schema, id: TypeId, value: &Value, room: &mut [u8]) -> usize
    requires known { id < length schema.now.trees }
    requires value { IsValue (type_of schema.now id) value.now }
    requires room { length (serialize (type_of schema.now id) (value_of value.now))
        ≤ length room.old }
    requires short { length room.old < 2 ^ 32 }
    ensures { WritesEncoding
        (serialize (type_of schema.now id) (value_of value.now)) result room.new }
{
    match schema.ty(id) {
        Ty::Uint(width) => write_number(*width, value, room),
        Ty::Boolean => write_flag(value, room),
        Ty::Bitvector(n) => write_bitvector(*n, value, room),
        Ty::Bitlist(limit) => write_bitlist(*limit, value, room),
        Ty::Vector(elem, _) => write_sequence(schema, *elem, value, room),
        Ty::List(elem, _) => write_sequence(schema, *elem, value, room),
        Ty::Union(options) => write_chosen(schema, id, options.as_slice(), value, room),
        Ty::Container(fields) => write_container(schema, id, fields.as_slice(), value, room),
    }
}

#[inline(always)]
fn write_number(width: Width, value: &Value, room: &mut [u8]) -> usize
    requires value { IsValue (uint width) value.now }
    requires room { length (serialize (uint width) (value_of value.now)) ≤ length room.old }
    ensures { WritesEncoding (serialize (uint width) (value_of value.now)) result room.new }
{
    let len = width.byte_count() as usize;
    match value {
        Value::Uint(number) => {
            put_uint(width, *number, &mut room[..len]);
            len
        }
        Value::Wide(chunk) => write_bytes(wide_bytes(chunk), room),
        _ => 0,
    }
}

fn write_bytes(bytes: &[u8], room: &mut [u8]) -> usize
    requires { length bytes.now ≤ length room.old }
    ensures { WritesEncoding bytes.now result room.new }
{
    let len = bytes.len();
    room[..len].copy_from_slice(bytes);
    len
}

fn write_flag(value: &Value, room: &mut [u8]) -> usize
    requires room { length (serialize boolean (value_of value.now)) ≤ length room.old }
    ensures { WritesEncoding (serialize boolean (value_of value.now)) result room.new }
{
    match value {
        Value::Bool(flag) => {
            room[0] = u8::from(*flag);
            1
        }
        _ => 0,
    }
}

fn write_bitvector(n: u64, value: &Value, room: &mut [u8]) -> usize
    requires value { IsValue (bitvector n) value.now }
    requires room { length (serialize (bitvector n) (value_of value.now)) ≤ length room.old }
    requires short { length room.old < 2 ^ 32 }
    ensures { WritesEncoding (serialize (bitvector n) (value_of value.now)) result room.new }
{
    match value {
        Value::Bits(run) => write_bits(run, false, room),
        _ => 0,
    }
}

fn write_bitlist(limit: u64, value: &Value, room: &mut [u8]) -> usize
    requires value { IsValue (bitlist limit) value.now }
    requires room { length (serialize (bitlist limit) (value_of value.now)) ≤ length room.old }
    requires short { length room.old < 2 ^ 32 }
    ensures { WritesEncoding (serialize (bitlist limit) (value_of value.now)) result room.new }
{
    match value {
        Value::Bits(run) => write_bits(run, true, room),
        _ => 0,
    }
}

#[inline(never)]
fn write_bits(run: &BitRun, delimiter: bool, room: &mut [u8]) -> usize
    requires room { bits_size delimiter (length run.now) ≤ length room.old }
    requires short { length room.old < 2 ^ 32 }
    ensures { let number = number_of_bits (delimited delimiter run.now) in
        WritesEncoding (le_bytes (bits_size delimiter (length run.now)) number) result room.new }
{
    let len = bits_len(run.len(), delimiter);
    put_bits(run, delimiter, &mut room[..len]);
    len
}

// The bytes of so many bits, with a delimiter behind them or without.
fn bits_len(count: usize, delimiter: bool) -> usize
    ensures { result ≡ bits_size delimiter count }
{
    if delimiter {
        count / 8 + 1
    } else {
        count / 8 + usize::from(count % 8 > 0)
    }
}

// Of elements of this type.
#[cycle(write)]
#[inline(always)]
fn write_sequence(schema: &Schema, elem: TypeId, value: &Value, room: &mut [u8]) -> usize
    requires known { elem < length schema.now.trees }
    requires value { IsSequence (type_of schema.now elem) value.now }
    requires room { let t = type_of schema.now elem in
        length (joined_alike (fixed_size t) (map (serialize t) (parts_of (value_of value.now))))
        ≤ length
        room.old }
    requires short { length room.old < 2 ^ 32 }
    ensures { let t = type_of schema.now elem in
        WritesEncoding (joined_alike (fixed_size t)
        (map (serialize t) (parts_of (value_of value.now)))) result
        room.new }
{
    match value {
        Value::Seq(parts) => write_elements(schema, elem, parts.as_slice(), room),
        Value::Bytes(run) => write_bytes(run.as_slice(), room),
        _ => 0,
    }
}

#[cycle(write)]
#[inline(never)]
fn write_elements(schema: &Schema, elem: TypeId, parts: &[Value], room: &mut [u8]) -> usize
    requires known { elem < length schema.now.trees }
    requires parts { AllByRecursion (IsValue (type_of schema.now elem)) parts.now }
    requires room { let t = type_of schema.now elem in
        length (joined_alike (fixed_size t) (map (serialize t) (map value_of parts.now)))
        ≤ length room.old }
    requires short { length room.old < 2 ^ 32 }
    ensures { let t = type_of schema.now elem in
        WritesEncoding (joined_alike (fixed_size t) (map (serialize t) (map value_of parts.now)))
        result room.new }
{
    // Every type of a schema is legal.
    let _legal = schema.ty(elem);
    let heads = parts.len() * head_len(schema.fixed_size(elem)) as usize;
    let (front, back) = room.split_at_mut(heads);
    heads + put_elements(schema, elem, parts, front, back)
}

// Writes the fixed parts and the variable parts, and answers the length of these.
#[cycle(write)]
#[inline(always)]
fn put_elements(
    schema: &Schema,
    elem: TypeId,
    parts: &[Value],
    front: &mut [u8],
    back: &mut [u8],
) -> usize
    requires known { elem < length schema.now.trees }
    requires parts { AllByRecursion (IsValue (type_of schema.now elem)) parts.now }
    requires front { let t = type_of schema.now elem in
        length front.old ≡ heads_length (replicate (length parts.now) (fixed_size t)) }
    requires back { let t = type_of schema.now elem in
        length (bodies (replicate (length parts.now) (fixed_size t))
        (map (serialize t) (map value_of parts.now)))
        ≤ length back.old }
    requires short { length front.old + length back.old < 2 ^ 32 }
    ensures { let t = type_of schema.now elem in
        PutsAll (replicate (length parts.now) (fixed_size t))
        (map (serialize t) (map value_of parts.now))
        result front.new back.new }
{
    if let Ty::Uint(width) = schema.ty(elem) {
        put_numbers(*width, parts, front);
        return 0;
    }
    let mut at = (0usize, 0usize);
    for part in parts {
        at = put_part(schema, elem, part, at, front, back);
    }
    at.1
}

// Writes numbers of this width, without asking for the type of each.
fn put_numbers(width: Width, parts: &[Value], front: &mut [u8])
    requires parts { AllByRecursion (IsValue (uint width)) parts.now }
    requires front { length front.old
        ≡ heads_length (replicate (length parts.now) (Some (byte_count width))) }
    ensures { PutsAll (replicate (length parts.now) (Some (byte_count width)))
        (map (serialize (uint width)) (map value_of parts.now)) 0 front.new [] }
{
    match width {
        // The commonest, in a loop that knows the width.
        Width::W64 => put_each(Width::W64, parts, front),
        _ => put_each(width, parts, front),
    }
}

#[inline(always)]
fn put_each(width: Width, parts: &[Value], front: &mut [u8])
    requires parts { AllByRecursion (IsValue (uint width)) parts.now }
    requires front { length front.old
        ≡ heads_length (replicate (length parts.now) (Some (byte_count width))) }
    ensures { PutsAll (replicate (length parts.now) (Some (byte_count width)))
        (map (serialize (uint width)) (map value_of parts.now)) 0 front.new [] }
{
    let mut place = 0usize;
    for part in parts {
        place += write_number(width, part, &mut front[place..]);
    }
}

// Writes a part behind those before it.
#[cycle(write)]
#[inline(always)]
fn put_part(
    schema: &Schema,
    id: TypeId,
    part: &Value,
    at: (usize, usize),
    front: &mut [u8],
    back: &mut [u8],
) -> (usize, usize)
    requires known { id < length schema.now.trees }
    requires value { IsValue (type_of schema.now id) part.now }
    requires place { at.0 + head_size (fixed_size (type_of schema.now id)) ≤ length front.old }
    requires end { let t = type_of schema.now id in
        at.1 + length (body_of (fixed_size t) (serialize t (value_of part.now))) ≤ length back.old }
    requires short { length front.old + length back.old < 2 ^ 32 }
    ensures { let t = type_of schema.now id in
        PutsPart (fixed_size t)
        (serialize t (value_of part.now)) at result front.old back.old front.new
        back.new }
{
    // Every type of a schema is legal.
    let _legal = schema.ty(id);
    let (place, end) = at;
    match schema.fixed_size(id) {
        Some(_) => {
            let len = write_value(schema, id, part, &mut front[place..]);
            (place + len, end)
        }
        None => {
            let offset = front.len() + end;
            put_uint(Width::W32, offset as u128, &mut front[place..place + 4]);
            let len = write_value(schema, id, part, &mut back[end..]);
            (place + 4, end + len)
        }
    }
}

// Of a union of these options, whose types stand before id.
#[cycle(write)]
#[inline(never)]
fn write_chosen(
    schema: &Schema,
    id: TypeId,
    options: &[Option<TypeId>],
    value: &Value,
    room: &mut [u8],
) -> usize
    requires known { id < length schema.now.trees }
    requires before { AllByRecursion (IsBelow id) options.now }
    requires value { IsValue (union (options_over schema.now.trees options.now)) value.now }
    requires room { let t = union (options_over schema.now.trees options.now) in
        length (serialize t (value_of value.now)) ≤ length room.old }
    requires short { length room.old < 2 ^ 32 }
    ensures { let t = union (options_over schema.now.trees options.now) in
        WritesEncoding (serialize t (value_of value.now)) result room.new }
{
    match value {
        Value::Union { selector, inner } => {
            room[0] = *selector;
            match inner {
                Some(inner) => match option_at(options, *selector) {
                    Some(Some(option)) => 1 + write_value(schema, option, inner, &mut room[1..]),
                    Some(None) => 1,
                    None => 1,
                },
                None => 1,
            }
        }
        _ => 0,
    }
}

// Of a container of these fields, whose types stand before id.
#[cycle(write)]
#[inline(always)]
fn write_container(
    schema: &Schema,
    id: TypeId,
    fields: &[(Name, TypeId)],
    value: &Value,
    room: &mut [u8],
) -> usize
    requires known { id < length schema.now.trees }
    requires form { type_of schema.now id ≡ container (fields_over schema.now.trees fields.now) }
    requires before { AllByRecursion (λ part. part.1 < id) fields.now }
    requires legal { let fs = fields_over schema.now.trees fields.now in
        IsLegal schema.now.format (container fs) }
    requires value { IsValue (container (fields_over schema.now.trees fields.now)) value.now }
    requires room { let t = container (fields_over schema.now.trees fields.now) in
        length (serialize t (value_of value.now)) ≤ length room.old }
    requires short { length room.old < 2 ^ 32 }
    ensures { let t = container (fields_over schema.now.trees fields.now) in
        WritesEncoding (serialize t (value_of value.now)) result room.new }
{
    match value {
        Value::Seq(parts) => write_fields(schema, id, fields, parts.as_slice(), room),
        Value::Bytes(_) => unreachable!(),
        _ => 0,
    }
}

#[cycle(write)]
#[inline(never)]
fn write_fields(
    schema: &Schema,
    id: TypeId,
    fields: &[(Name, TypeId)],
    parts: &[Value],
    room: &mut [u8],
) -> usize
    requires known { id < length schema.now.trees }
    requires form { type_of schema.now id ≡ container (fields_over schema.now.trees fields.now) }
    requires before { AllByRecursion (λ part. part.1 < id) fields.now }
    requires legal { let fs = fields_over schema.now.trees fields.now in
        IsLegal schema.now.format (container fs) }
    requires parts { AreFields (fields_over schema.now.trees fields.now) parts.now }
    requires room { let fs = fields_over schema.now.trees fields.now in
        length (joined (part_sizes fs) (field_encodings fs (map value_of parts.now))) ≤ length
        room.old }
    requires short { length room.old < 2 ^ 32 }
    ensures { let fs = fields_over schema.now.trees fields.now in
        WritesEncoding (joined (part_sizes fs) (field_encodings fs (map value_of parts.now))) result
        room.new }
{
    let heads = container_heads_len(schema, id, fields);
    let (front, back) = room.split_at_mut(heads);
    heads + put_fields(schema, id, fields, parts, front, back)
}

#[cycle(write)]
#[inline(always)]
fn put_fields(
    schema: &Schema,
    id: TypeId,
    fields: &[(Name, TypeId)],
    parts: &[Value],
    front: &mut [u8],
    back: &mut [u8],
) -> usize
    requires known { id < length schema.now.trees }
    requires before { AllByRecursion (λ part. part.1 < id) fields.now }
    requires parts { AreFields (fields_over schema.now.trees fields.now) parts.now }
    requires front { let fs = fields_over schema.now.trees fields.now in
        length front.old ≡ heads_length (part_sizes fs) }
    requires back { let fs = fields_over schema.now.trees fields.now in
        length (bodies (part_sizes fs) (field_encodings fs (map value_of parts.now))) ≤ length
        back.old }
    requires short { length front.old + length back.old < 2 ^ 32 }
    ensures { let fs = fields_over schema.now.trees fields.now in
        PutsAll (part_sizes fs) (field_encodings fs (map value_of parts.now)) result front.new
        back.new }
{
    let mut at = (0usize, 0usize);
    for (i, field) in fields.iter().enumerate() {
        at = put_part(schema, field.1, &parts[i], at, front, back);
    }
    at.1
}
