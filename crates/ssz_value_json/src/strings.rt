//! What a string or boolean of JSON says, by the kind of type.
ghost use Rattle.std.specs.Prelude.{◌≡◌, ◌≢◌, ◌≤◌, ◌^◌, length, nat_lt, not, IfOk};
ghost use Rattle.std.specs.List.{list_all};
ghost use Rattle.std.specs.Option.{ok_or};
ghost use Rattle.std.specs.Char.{is_ascii_uppercase};
ghost use Rattle.serde_json.specs.View.{view};
ghost use Rattle.ssz_decimal.specs.Decimal.{is_digit, number_below};
ghost use Rattle.ssz_schema.specs.width.Width.TheVariants.{W8, W256};
ghost use Rattle.ssz_schema.specs.Types.{uint};
ghost use Rattle.ssz_schema.specs.Sizes.{byte_count};
ghost use Rattle.ssz_value.specs.Values.{wide};
ghost use Rattle.ssz_value.specs.Standing.{value_of};
ghost use Rattle.ssz_value_json.specs.declared.fault.JsonRead.TheVariants.{Bad};
ghost use Rattle.ssz_value_json.specs.Strings.{hex_bytes, is_decimal, is_bit_digit, text_bits};
ghost use Rattle.ssz_value_json.specs.Steps.{json_fault, bad_text};
ghost use Rattle.ssz_value_json.specs.Walk.{uint_at, decimal_at, wide_at, boolean_at, bits_at, json_bytes_at};
ghost use Rattle.ssz_value_json.specs.Answers.{FindsJson, IsFormedSequence};

use super::count::{Count, allows};
use super::fault::{JsonFault, JsonRead};
use hex::FromHexError;
use serde_json::Value as Json;
use ssz_bytes::{BitRun, ByteRun};
use ssz_chunk::Chunk;
use ssz_decimal::number;
use ssz_schema::Width;
use ssz_value::Value;
use std::alloc::{AllocError, Global};

/// A fault in the part of this number.
pub(crate) fn bad(code: u8, number: u64) -> JsonRead
    ensures { result ≡ Bad (json_fault code number) }
{
    JsonRead::Bad(JsonFault { code, number })
}

/// The number that the part of this number is.
pub(crate) fn number_in(
    alloc: Global,
    width: Width,
    json: &Json,
    here: u64,
) -> Result<Value, JsonRead>
    ensures { FindsJson value_of (λ _. Unit {0}) (uint_at width here (view json.now)) result }
{
    let Some(text) = json.as_str() else {
        return Err(bad(JsonFault::KIND, here));
    };
    match width {
        Width::W256 => wide_in(alloc, text.as_bytes(), here),
        _ => decimal_in(width, text.as_bytes(), here),
    }
}

fn decimal_in(width: Width, text: &[u8], here: u64) -> Result<Value, JsonRead>
    requires { width ≢ W256 }
    ensures { FindsJson value_of (λ _. Unit {0}) (decimal_at width here text.now) result }
{
    if !is_decimal(text) {
        return Err(bad(JsonFault::TEXT, here));
    }
    match number_of_width(width, text) {
        Some(number) => Ok(Value::Uint(number)),
        None => Err(bad(JsonFault::RANGE, here)),
    }
}

// One digit or more, and no 0 before others.
fn is_decimal(text: &[u8]) -> bool
    ensures { result ≡ is_decimal text.now }
{
    match text {
        [] => false,
        [b'0', _, ..] => false,
        digits => are_digits(digits),
    }
}

fn are_digits(text: &[u8]) -> bool
    ensures { result ≡ list_all is_digit text.now }
{
    text.iter().all(|digit| digit.is_ascii_digit())
}

// The number that a text is, where it fits the width.
fn number_of_width(width: Width, text: &[u8]) -> Option<u128>
    requires { width ≢ W256 }
    ensures { result ≡ number_below (256 ^ byte_count width) text.now }
{
    match number(text) {
        Some(number) => {
            if is_below(width, number) {
                Some(number)
            } else {
                None
            }
        }
        None => None,
    }
}

fn is_below(width: Width, number: u128) -> bool
    requires { width ≢ W256 }
    ensures value { result ≡ nat_lt number (256 ^ byte_count width) }
    ensures fits { 256 ^ byte_count width ≤ 2 ^ 128 }
{
    match width {
        Width::W8 => number < 1 << 8,
        Width::W16 => number < 1 << 16,
        Width::W32 => number < 1 << 32,
        Width::W64 => number < 1 << 64,
        Width::W128 => true,
        Width::W256 => unreachable!(),
    }
}

// The 32 bytes of a uint256.
fn wide_in(alloc: Global, text: &[u8], here: u64) -> Result<Value, JsonRead>
    ensures { FindsJson value_of (λ _. Unit {0}) (wide_at here text.now) result }
{
    let bytes = run_in(alloc, text, here)?;
    if bytes.len() != 32 {
        return Err(bad(JsonFault::COUNT, here));
    }
    Ok(wide_of(bytes.as_slice()))
}

fn wide_of(bytes: &[u8]) -> Value
    requires { length bytes.now ≡ 32 }
    ensures { value_of result ≡ wide bytes.now }
{
    let mut chunk = [0; 32];
    chunk.copy_from_slice(bytes);
    Value::Wide(Chunk(chunk))
}

/// The vector or list of uint8 that the part of this number is.
pub(crate) fn bytes_in(
    alloc: Global,
    count: Count,
    json: &Json,
    here: u64,
) -> Result<Value, JsonRead>
    ensures { FindsJson value_of (IsFormedSequence (uint W8))
        (json_bytes_at count here (view json.now))
        result }
{
    let Some(text) = json.as_str() else {
        return Err(bad(JsonFault::KIND, here));
    };
    let bytes = run_in(alloc, text.as_bytes(), here)?;
    if !allows(count, bytes.len()) {
        return Err(bad(JsonFault::COUNT, here));
    }
    Ok(Value::Bytes(ByteRun::from_bytes(bytes)))
}

// The bytes of `0x` and pairs of digits in lower case.
#[tactic(auto, unfolding(crate::specs::Strings::hex_bytes))]
fn run_in(alloc: Global, text: &[u8], here: u64) -> Result<Vec<u8>, JsonRead>
    ensures { FindsJson (λ v. v.items) (λ _. Unit {0}) (ok_or (hex_bytes text.now) (bad_text here))
        result }
{
    let [b'0', b'x', digits @ ..] = text else {
        return Err(bad(JsonFault::TEXT, here));
    };
    if !are_lower(digits) {
        return Err(bad(JsonFault::TEXT, here));
    }
    match hex::decode(alloc, digits) {
        Ok(bytes) => Ok(bytes),
        Err(FromHexError::OutOfMemory) => Err(JsonRead::Memory),
        Err(_) => Err(bad(JsonFault::TEXT, here)),
    }
}

// No letter of upper case is among them.
fn are_lower(digits: &[u8]) -> bool
    ensures { result ≡ list_all (λ c. not (is_ascii_uppercase c)) digits.now }
{
    digits.iter().all(|digit| !digit.is_ascii_uppercase())
}

/// The boolean that the part of this number is.
pub(crate) fn flag_in(json: &Json, here: u64) -> Result<Value, JsonRead>
    ensures { FindsJson value_of (λ _. Unit {0}) (boolean_at here (view json.now)) result }
{
    match json.as_bool() {
        Some(flag) => Ok(Value::Bool(flag)),
        None => Err(bad(JsonFault::KIND, here)),
    }
}

/// The bitvector or bitlist that the part of this number is.
pub(crate) fn bits_in(
    alloc: Global,
    count: Count,
    json: &Json,
    here: u64,
) -> Result<Value, JsonRead>
    ensures { FindsJson value_of (λ _. Unit {0}) (bits_at count here (view json.now)) result }
{
    let Some(text) = json.as_str() else {
        return Err(bad(JsonFault::KIND, here));
    };
    let text = text.as_bytes();
    if !are_bits(text) {
        return Err(bad(JsonFault::TEXT, here));
    }
    if !allows(count, text.len()) {
        return Err(bad(JsonFault::COUNT, here));
    }
    let bits = bits_of_text(alloc, text)?;
    Ok(Value::Bits(BitRun::from_bits(bits)))
}

fn are_bits(text: &[u8]) -> bool
    ensures { result ≡ list_all is_bit_digit text.now }
{
    text.iter().all(|bit| *bit == b'0' || *bit == b'1')
}

fn bits_of_text(alloc: Global, text: &[u8]) -> Result<Vec<bool>, AllocError>
    ensures { IfOk result (λ bits. bits.items ≡ text_bits text.now) }
{
    let mut bits = Vec::with_capacity(alloc, text.len())?;
    for bit in text {
        bits.push(*bit == b'1')?;
    }
    Ok(bits)
}
