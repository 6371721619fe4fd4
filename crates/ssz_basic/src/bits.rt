ghost use Rattle.std.specs.Prelude.{◌≡◌, ◌<◌, ◌≤◌, ◌+◌, ◌-◌, ◌*◌, ◌/◌, ◌%◌, ◌^◌, ◌==◌, false, length, take, drop, IfOk, slice_index_or};
ghost use Rattle.std.specs.Result.{result_err};
ghost use Rattle.ssz_bytes.specs.Bytes.{le_bytes, le_number, number_of_bits, delimited, bits_size};
ghost use Rattle.ssz_bytes.specs.Faults.{bitvector_fault, bitlist_fault, bitlist_length, highest_bit};

use ssz_bytes::{BitRun, Fault};

/// Bit i of the bytes.
pub fn bit(bytes: &[u8], i: u64) -> bool
    requires { i < 8 * length bytes.now }
    ensures { result ≡ (le_number bytes.now / 2 ^ i % 2 == 1) }
{
    let byte = bytes[(i / 8) as usize];
    (byte >> (i % 8)) % 2 == 1
}

/// Whether the bytes, which begin at the position, encode n bits. F9 at the last byte exactly where
/// one of its bits from index n on is 1.
pub fn read_bitvector(bytes: &[u8], n: u64, position: u64) -> Result<(), Fault>
    requires some { 0 < n }
    requires exact { length bytes.now ≡ (n + 7) / 8 }
    requires short { length bytes.now < 2 ^ 32 }
    requires early { position < 2 ^ 32 }
    ensures { result_err result ≡ bitvector_fault n position bytes.now }
{
    let len = bytes.len() as u64;
    let last = bytes[bytes.len() - 1];
    let used = n - 8 * (len - 1);
    if u32::from(last) >= 1 << used {
        return Err(Fault {
            code: Fault::PADDING_BITS,
            position: position + len - 1,
        });
    }
    Ok(())
}

/// How many bits the bytes, which begin at the position, encode as a bitlist. F10 exactly where
/// there is no byte, or at the last byte where that is 00; then F8 at the position exactly where
/// the bits are more than the limit.
#[tactic(auto, using(crate::proofs::LastByte::last_byte_is))]
pub fn read_bitlist(bytes: &[u8], limit: u64, position: u64) -> Result<u64, Fault>
    requires short { length bytes.now < 2 ^ 32 }
    requires early { position < 2 ^ 32 }
    ensures ok { IfOk result (λ n. n ≡ bitlist_length bytes.now) }
    ensures room { IfOk result (λ n. n < 8 * length bytes.now) }
    ensures fault { result_err result ≡ bitlist_fault limit position bytes.now }
{
    if bytes.is_empty() {
        return Err(Fault {
            code: Fault::NO_DELIMITER,
            position,
        });
    }
    let last = bytes[bytes.len() - 1];
    let len = bytes.len() as u64;
    if last == 0 {
        return Err(Fault {
            code: Fault::NO_DELIMITER,
            position: position + len - 1,
        });
    }
    let bits = bitlist_len(bytes);
    if limit < bits {
        return Err(Fault {
            code: Fault::TOO_MANY,
            position,
        });
    }
    Ok(bits)
}

/// How many bits stand below the delimiter, the highest 1 bit of the last byte.
#[tactic(auto, using(crate::proofs::LastByte::last_byte_is))]
pub fn bitlist_len(bytes: &[u8]) -> u64
    requires some { 0 < length bytes.now }
    requires short { length bytes.now < 2 ^ 32 }
    ensures exact { result ≡ bitlist_length bytes.now }
    ensures room { result < 8 * length bytes.now }
{
    let last = bytes[bytes.len() - 1];
    8 * (bytes.len() as u64 - 1) + u64::from(highest_bit(last))
}

/// The place of the highest 1 bit of a byte; 0 where it has none.
pub fn highest_bit(byte: u8) -> u8
    ensures exact { result ≡ highest_bit byte }
    ensures small { result < 8 }
{
    if byte >= 128 {
        7
    } else if byte >= 64 {
        6
    } else if byte >= 32 {
        5
    } else if byte >= 16 {
        4
    } else if byte >= 8 {
        3
    } else if byte >= 4 {
        2
    } else if byte >= 2 {
        1
    } else {
        0
    }
}

/// Fills the bytes with the encoding of the bits: as a bitlist, where a delimiter stands behind
/// them, or as a bitvector.
pub fn put_bits(bits: &BitRun, delimiter: bool, bytes: &mut [u8])
    requires exact { length bytes.old ≡ bits_size delimiter (length bits.now) }
    requires short { length bytes.old < 2 ^ 32 }
    ensures { let number = number_of_bits (delimited delimiter bits.now) in
        bytes.new ≡ le_bytes (bits_size delimiter (length bits.now)) number }
{
    let bits = bits.as_slice();
    let mut from = 0usize;
    for byte in bytes.iter_mut() {
        *byte = byte_from(bits, delimiter, from);
        from += 8;
    }
}

/// The byte of the eight bits from this one on, with zeros behind the last one, or behind a
/// delimiter, a 1 that follows the bits.
pub fn byte_from(bits: &[bool], delimiter: bool, from: usize) -> u8
    requires { from ≤ 2 ^ 40 }
    ensures { result ≡ number_of_bits (take 8 (drop from (delimited delimiter bits.now))) }
{
    let mut byte = 0u8;
    for k in 0..8usize {
        let bit = bit_or_delimiter(bits, delimiter, from + 7 - k);
        byte = 2 * byte + u8::from(bit);
    }
    byte
}

// Bit i, where the delimiter stands behind the bits, and zeros behind that.
fn bit_or_delimiter(bits: &[bool], delimiter: bool, i: usize) -> bool
    ensures { result ≡ slice_index_or (delimited delimiter bits.now) i false }
{
    if i < bits.len() {
        bits[i]
    } else {
        delimiter && i == bits.len()
    }
}
