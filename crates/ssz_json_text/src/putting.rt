//! Pieces of a text, each appended behind other bytes. Where memory runs out, what was there
//! stays.
ghost use Rattle.std.specs.Prelude.{◌≡◌, ◌∷◌, [], ◌++◌, ◌<◌, length, decimal, OnOk};
ghost use Rattle.json.specs.Print.{quoted};
ghost use Rattle.hex.specs.Hex.{encode_lower};
ghost use Rattle.serde_json.specs.Written.{comma_if, compact_text};
ghost use Rattle.ssz_schema.specs.width.Width.{Width};
ghost use Rattle.ssz_schema.specs.Types.{uint, boolean};
ghost use Rattle.ssz_bytes.specs.Bytes.{IsBytes};
ghost use Rattle.ssz_schema.specs.Names.{IsName};
ghost use Rattle.ssz_value.specs.Standing.{value_of};
ghost use Rattle.ssz_json_text.specs.Strings.{hex_text, bits_text};
ghost use Rattle.ssz_json_text.specs.Text.{json, bits_json};
ghost use Rattle.ssz_json_text.specs.Keeping.{Keeps};

use itoa::Buffer;
use ssz_value::{Value, wide_bytes};
use std::alloc::AllocError;

// How many bytes are written at a time.
const BLOCK: usize = 32;

/// Appends the bytes.
#[tactic(auto, using(crate::proofs::Keeping::keeps_append, crate::proofs::Keeping::keeps_self))]
pub(crate) fn put(bytes: &[u8], out: &mut Vec<u8>) -> Result<(), AllocError>
    ensures text { OnOk result (out.new.items ≡ out.old.items ++ bytes.now) }
    ensures front { Keeps out.old.items out.new.items }
{
    out.extend_from_slice(bytes)
}

// Appends the text between quotes.
#[tactic(auto, using(crate::proofs::Keeping::keeps_trans))]
fn put_quoted(text: &[u8], out: &mut Vec<u8>) -> Result<(), AllocError>
    ensures text { OnOk result (out.new.items ≡ out.old.items ++ 34 ∷ (text.now ++ 34 ∷ [])) }
    ensures front { Keeps out.old.items out.new.items }
{
    put(b"\"", out)?;
    put(text, out)?;
    put(b"\"", out)
}

/// Appends the digits of the number.
pub(crate) fn put_decimal(number: u128, out: &mut Vec<u8>) -> Result<(), AllocError>
    ensures text { OnOk result (out.new.items ≡ out.old.items ++ decimal number) }
    ensures front { Keeps out.old.items out.new.items }
{
    let mut buffer = Buffer::new();
    put(buffer.format(number).as_bytes(), out)
}

fn put_quoted_decimal(number: u128, out: &mut Vec<u8>) -> Result<(), AllocError>
    ensures text { OnOk result (out.new.items ≡ out.old.items ++ quoted (decimal number)) }
    ensures front { Keeps out.old.items out.new.items }
{
    let mut buffer = Buffer::new();
    put_quoted(buffer.format(number).as_bytes(), out)
}

/// Appends the text of a number.
pub(crate) fn put_number(value: &Value, out: &mut Vec<u8>) -> Result<(), AllocError>
    ensures text { (w : Width) → OnOk result
        (out.new.items ≡ out.old.items ++ json (uint w) (value_of value.now)) }
    ensures front { Keeps out.old.items out.new.items }
{
    match value {
        Value::Uint(number) => put_quoted_decimal(*number, out),
        Value::Wide(chunk) => put_hex(wide_bytes(chunk), out),
        _ => put(b"null", out),
    }
}

/// Appends the bytes as a string of digits.
#[tactic(auto, using(crate::proofs::Keeping::keeps_trans))]
pub(crate) fn put_hex(bytes: &[u8], out: &mut Vec<u8>) -> Result<(), AllocError>
    requires { IsBytes bytes.now }
    ensures text { OnOk result (out.new.items ≡ out.old.items ++ quoted (hex_text bytes.now)) }
    ensures front { Keeps out.old.items out.new.items }
{
    put(b"\"0x", out)?;
    put_digits(bytes, out)?;
    put(b"\"", out)
}

// Block by block, and the bytes behind the last block.
#[tactic(auto, using(crate::proofs::Keeping::keeps_trans, crate::proofs::Keeping::keeps_self))]
fn put_digits(bytes: &[u8], out: &mut Vec<u8>) -> Result<(), AllocError>
    ensures text { OnOk result (out.new.items ≡ out.old.items ++ encode_lower bytes.now) }
    ensures front { Keeps out.old.items out.new.items }
{
    let mut rest = bytes;
    'blocks: while rest.len() >= BLOCK {
        let (block, behind) = rest.split_at(BLOCK);
        put(&digits_of_block(block), out)?;
        rest = behind;
    }
    put_last_digits(rest, out)
}

// Of fewer bytes than a block has.
fn put_last_digits(bytes: &[u8], out: &mut Vec<u8>) -> Result<(), AllocError>
    requires { length bytes.now < 32 }
    ensures text { OnOk result (out.new.items ≡ out.old.items ++ encode_lower bytes.now) }
    ensures front { Keeps out.old.items out.new.items }
{
    let mut digits = [0; 2 * BLOCK];
    let (front, _) = digits.split_at_mut(2 * bytes.len());
    let _ = hex::encode_to_slice(bytes, front);
    put(front, out)
}

// The digits of a block.
fn digits_of_block(block: &[u8]) -> [u8; 2 * BLOCK]
    requires { length block.now ≡ 32 }
    ensures { result ≡ encode_lower block.now }
{
    let mut digits = [0; 2 * BLOCK];
    let _ = hex::encode_to_slice(block, &mut digits);
    digits
}

/// Appends the text of a boolean.
pub(crate) fn put_flag(value: &Value, out: &mut Vec<u8>) -> Result<(), AllocError>
    ensures text { OnOk result
        (out.new.items ≡ out.old.items ++ json boolean (value_of value.now)) }
    ensures front { Keeps out.old.items out.new.items }
{
    match value {
        Value::Bool(true) => put(b"true", out),
        Value::Bool(false) => put(b"false", out),
        _ => put(b"null", out),
    }
}

/// Appends the text of bits.
pub(crate) fn put_bits(value: &Value, out: &mut Vec<u8>) -> Result<(), AllocError>
    ensures text { OnOk result
        (out.new.items ≡ out.old.items ++ compact_text (bits_json (value_of value.now))) }
    ensures front { Keeps out.old.items out.new.items }
{
    match value {
        Value::Bits(run) => put_bit_string(run.as_slice(), out),
        _ => put(b"null", out),
    }
}

#[tactic(auto, using(crate::proofs::Keeping::keeps_trans))]
fn put_bit_string(bits: &[bool], out: &mut Vec<u8>) -> Result<(), AllocError>
    ensures text { OnOk result (out.new.items ≡ out.old.items ++ quoted (bits_text bits.now)) }
    ensures front { Keeps out.old.items out.new.items }
{
    put(b"\"", out)?;
    put_bit_digits(bits, out)?;
    put(b"\"", out)
}

#[tactic(auto, using(crate::proofs::Keeping::keeps_trans, crate::proofs::Keeping::keeps_self))]
fn put_bit_digits(bits: &[bool], out: &mut Vec<u8>) -> Result<(), AllocError>
    ensures text { OnOk result (out.new.items ≡ out.old.items ++ bits_text bits.now) }
    ensures front { Keeps out.old.items out.new.items }
{
    for bit in bits {
        put_bit(*bit, out)?;
    }
    Ok(())
}

fn put_bit(bit: bool, out: &mut Vec<u8>) -> Result<(), AllocError>
    ensures text { OnOk result (out.new.items ≡ out.old.items ++ bits_text (bit ∷ [])) }
    ensures front { Keeps out.old.items out.new.items }
{
    if bit { put(b"1", out) } else { put(b"0", out) }
}

/// The comma before all but the first.
#[tactic(auto, using(crate::proofs::Keeping::keeps_self))]
pub(crate) fn put_comma(later: bool, out: &mut Vec<u8>) -> Result<(), AllocError>
    ensures text { OnOk result (out.new.items ≡ out.old.items ++ comma_if later) }
    ensures front { Keeps out.old.items out.new.items }
{
    if later { put(b",", out) } else { Ok(()) }
}

/// The name of a member, with its colon.
#[tactic(auto, using(crate::proofs::Keeping::keeps_trans))]
pub(crate) fn put_key(name: &[u8], out: &mut Vec<u8>) -> Result<(), AllocError>
    requires { IsName name.now }
    ensures text { OnOk result (out.new.items ≡ out.old.items ++ (quoted name.now ++ 58 ∷ [])) }
    ensures front { Keeps out.old.items out.new.items }
{
    put_quoted(name, out)?;
    put(b":", out)
}
