//! Values of basic types and of bits, read from bytes.
ghost use Rattle.std.specs.Prelude.{◌≡◌, ◌≢◌, ◌+◌, ◌*◌, ◌/◌, ◌<◌, ◌≤◌, ◌^◌, length, IfOk, OnOk, vec_len, vec_capacity};
ghost use Rattle.ssz_schema.specs.width.Width.TheVariants.{W8, W64, W256};
ghost use Rattle.ssz_schema.specs.Types.{uint, boolean, vector, bitvector, bitlist};
ghost use Rattle.ssz_schema.specs.Sizes.{byte_count};
ghost use Rattle.ssz_bytes.specs.Bytes.{le_number, bits_of_number};
ghost use Rattle.ssz_value.specs.Values.{sequence, values};
ghost use Rattle.ssz_value.specs.Reading.{value_in};
ghost use Rattle.ssz_value.specs.Standing.{Stands};
ghost use Rattle.ssz_value.specs.Shapes.{StandsBehind};
ghost use Rattle.ssz_parts.specs.PartValues.{element_values};
ghost use Rattle.ssz_codec.specs.Answers.{AreNumbers};

use ssz_basic::{bit, bitlist_len, read_uint};
use ssz_bytes::{BitRun, ByteRun};
use ssz_chunk::Chunk;
use ssz_schema::Width;
use ssz_value::Value;
use std::alloc::{AllocError, Global};

/// The number of this width that the bytes encode.
pub fn number(width: Width, bytes: &[u8]) -> Value
    requires { length bytes.now ≡ byte_count width }
    ensures { Stands (uint width) (value_in (uint width) bytes.now) result }
{
    match width {
        // The commonest, by a reader that knows the width.
        Width::W64 => narrow_in(Width::W64, bytes),
        Width::W256 => wide_in(bytes),
        _ => narrow_in(width, bytes),
    }
}

/// Puts it behind the others, for which there is room.
#[inline(always)]
pub fn put_number(width: Width, bytes: &[u8], parts: &mut Vec<Value>)
    requires exact { length bytes.now ≡ byte_count width }
    requires room { vec_len parts.old < vec_capacity parts.old }
    ensures put { let t = uint width in
        StandsBehind t (value_in t bytes.now) parts.old.items parts.new.items }
    ensures len { vec_len parts.new ≡ vec_len parts.old + 1 }
    ensures capacity { vec_capacity parts.new ≡ vec_capacity parts.old }
{
    match width {
        Width::W64 => parts.push_reserved(narrow_in(Width::W64, bytes)),
        _ => parts.push_reserved(number(width, bytes)),
    }
}

// The same of a width up to 128 bits.
fn narrow_in(width: Width, bytes: &[u8]) -> Value
    requires small { width ≢ W256 }
    requires exact { length bytes.now ≡ byte_count width }
    ensures { Stands (uint width) (value_in (uint width) bytes.now) result }
{
    Value::Uint(read_uint(width, bytes))
}

// The same of 256 bits.
fn wide_in(bytes: &[u8]) -> Value
    requires { length bytes.now ≡ 32 }
    ensures { Stands (uint W256) (value_in (uint W256) bytes.now) result }
{
    let mut chunk = [0; 32];
    chunk.copy_from_slice(bytes);
    Value::Wide(Chunk(chunk))
}

/// The numbers of this width that the bytes encode, count of them one after another.
pub fn numbers(
    alloc: Global,
    width: Width,
    count: u64,
    bytes: &[u8],
) -> Result<Vec<Value>, AllocError>
    requires few { count ≤ 2 ^ 32 }
    requires exact { length bytes.now ≡ count * byte_count width }
    requires short { length bytes.now < 2 ^ 32 }
    ensures { IfOk result (λ parts. AreNumbers width count bytes.now parts.items) }
{
    match width {
        Width::W64 => words(alloc, count, bytes),
        Width::W256 => wide_numbers(alloc, count, bytes),
        _ => narrow_numbers(alloc, width, count, bytes),
    }
}

// A loop for each form of a number: a value whose form is known is built in its place.

fn narrow_numbers(
    alloc: Global,
    width: Width,
    count: u64,
    bytes: &[u8],
) -> Result<Vec<Value>, AllocError>
    requires small { width ≢ W256 }
    requires few { count ≤ 2 ^ 32 }
    requires exact { length bytes.now ≡ count * byte_count width }
    requires short { length bytes.now < 2 ^ 32 }
    ensures { IfOk result (λ parts. AreNumbers width count bytes.now parts.items) }
{
    let size = width.byte_count();
    let mut parts = Vec::with_capacity(alloc, count as usize)?;
    for i in 0..count {
        let place = (i * size) as usize;
        parts.push(narrow_in(width, &bytes[place..place + size as usize]))?;
    }
    Ok(parts)
}

// Of 64 bits, the commonest: a loop that knows the width takes half the instructions.
fn words(alloc: Global, count: u64, bytes: &[u8]) -> Result<Vec<Value>, AllocError>
    requires few { count ≤ 2 ^ 32 }
    requires exact { length bytes.now ≡ count * 8 }
    requires short { length bytes.now < 2 ^ 32 }
    ensures { IfOk result (λ parts. AreNumbers W64 count bytes.now parts.items) }
{
    let mut parts = Vec::with_capacity(alloc, count as usize)?;
    for i in 0..count {
        let place = (i * 8) as usize;
        parts.push_reserved(narrow_in(Width::W64, &bytes[place..place + 8]));
    }
    Ok(parts)
}

fn wide_numbers(alloc: Global, count: u64, bytes: &[u8]) -> Result<Vec<Value>, AllocError>
    requires few { count ≤ 2 ^ 32 }
    requires exact { length bytes.now ≡ count * 32 }
    requires short { length bytes.now < 2 ^ 32 }
    ensures { IfOk result (λ parts. AreNumbers W256 count bytes.now parts.items) }
{
    let mut parts = Vec::with_capacity(alloc, count as usize)?;
    for i in 0..count {
        let place = (i * 32) as usize;
        parts.push(wide_in(&bytes[place..place + 32]))?;
    }
    Ok(parts)
}

/// The boolean that the bytes encode.
pub fn boolean(bytes: &[u8]) -> Value
    requires { length bytes.now ≡ 1 }
    ensures { Stands boolean (value_in boolean bytes.now) result }
{
    Value::Bool(bytes[0] == 1)
}

/// The n bits that the bytes encode.
pub fn bitvector(alloc: Global, n: u64, bytes: &[u8]) -> Result<Value, AllocError>
    requires few { n ≤ 2 ^ 32 }
    requires exact { length bytes.now ≡ (n + 7) / 8 }
    ensures { let t = bitvector n in IfOk result (Stands t (value_in t bytes.now)) }
{
    Ok(Value::Bits(read_bits(alloc, n, bytes)?))
}

/// The bits that the bytes, of which there is one, encode below their delimiter.
pub fn bitlist(alloc: Global, limit: u64, bytes: &[u8]) -> Result<Value, AllocError>
    requires some { 0 < length bytes.now }
    requires short { length bytes.now < 2 ^ 32 }
    ensures { let t = bitlist limit in IfOk result (Stands t (value_in t bytes.now)) }
{
    Ok(Value::Bits(read_bits(alloc, bitlist_len(bytes), bytes)?))
}

// The first n bits of the bytes.
fn read_bits(alloc: Global, n: u64, bytes: &[u8]) -> Result<BitRun, AllocError>
    requires { n ≤ 8 * length bytes.now }
    ensures { IfOk result (λ bits. bits ≡ bits_of_number n (le_number bytes.now)) }
{
    let mut bits = Vec::with_capacity(alloc, n as usize)?;
    for i in 0..n {
        bits.push(bit(bytes, i))?;
    }
    Ok(BitRun::from_bits(bits))
}

/// The bytes as elements of one byte, as many as there are.
#[inline(always)]
pub fn bytes_run(alloc: Global, bytes: &[u8]) -> Result<Value, AllocError>
    ensures { let count = length bytes.now in let t = uint W8 in IfOk result
        (Stands (vector t count) (sequence (values (element_values t count bytes.now)))) }
{
    Ok(Value::Bytes(ByteRun::copy_of(alloc, bytes)?))
}

/// Puts them behind the others, for which there is room.
#[inline(always)]
pub fn put_bytes(alloc: Global, bytes: &[u8], parts: &mut Vec<Value>) -> Result<(), AllocError>
    requires { vec_len parts.old < vec_capacity parts.old }
    ensures put { let count = length bytes.now in let t = uint W8 in OnOk result
        (StandsBehind (vector t count) (sequence (values (element_values t count bytes.now)))
        parts.old.items parts.new.items) }
    ensures len { OnOk result (vec_len parts.new ≡ vec_len parts.old + 1) }
    ensures capacity { OnOk result (vec_capacity parts.new ≡ vec_capacity parts.old) }
{
    parts.push_reserved(bytes_run(alloc, bytes)?);
    Ok(())
}
