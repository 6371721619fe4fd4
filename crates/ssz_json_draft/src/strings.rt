//! What digits may say. Other bytes among them say anything.
use super::fault::NoDraft;
use ssz_bytes::ByteRun;
use ssz_chunk::Chunk;
use ssz_value::Value;
use std::alloc::{AllocError, Global};

// So many decimal digits make a number of 64 bits.
const SHORT: usize = 19;

/// The number of decimal digits.
pub(crate) fn decimal_of(digits: &[u8]) -> u128 {
    let (front, behind) = digits.split_at(digits.len().saturating_sub(SHORT));
    let mut number = 0u64;
    for digit in behind {
        number = number.wrapping_mul(10).wrapping_add(u64::from(*digit & 15));
    }
    if front.is_empty() {
        u128::from(number)
    } else {
        long_of(front).wrapping_add(u128::from(number))
    }
}

// The number of digits with as many zeros behind them.
fn long_of(digits: &[u8]) -> u128 {
    let mut number = 0u128;
    for digit in digits {
        number = number
            .wrapping_mul(10)
            .wrapping_add(u128::from(*digit & 15));
    }
    number.wrapping_mul(10_000_000_000_000_000_000)
}

/// The number of 32 bytes.
pub(crate) fn wide_of(text: &[u8]) -> Result<Value, NoDraft> {
    if text.len() != 66 {
        return Err(NoDraft::Form);
    }
    let mut chunk = [0; 32];
    for i in 0..32usize {
        chunk[i] = byte_of(text[2 * i + 2], text[2 * i + 3]);
    }
    Ok(Value::Wide(Chunk(chunk)))
}

/// A bit for each digit.
pub(crate) fn bits_of(alloc: Global, digits: &[u8]) -> Result<Vec<bool>, AllocError> {
    let mut bits = Vec::with_capacity(alloc, digits.len())?;
    for digit in digits {
        bits.push(*digit == b'1')?;
    }
    Ok(bits)
}

/// A byte for each two digits.
pub(crate) fn bytes_of(alloc: Global, digits: &[u8]) -> Result<ByteRun, AllocError> {
    let (pairs, _) = digits.as_chunks::<2>();
    if pairs.len() <= ByteRun::INSIDE {
        let mut few = [0; ByteRun::INSIDE];
        put_bytes(pairs, &mut few);
        return ByteRun::copy_of(alloc, &few[..pairs.len()]);
    }
    let mut bytes = vec![in alloc; 0; pairs.len()]?;
    put_bytes(pairs, &mut bytes);
    Ok(ByteRun::from_bytes(bytes))
}

// Puts the byte of each two digits where there is room for it.
fn put_bytes(pairs: &[[u8; 2]], room: &mut [u8]) {
    for (byte, pair) in room.iter_mut().zip(pairs) {
        *byte = byte_of(pair[0], pair[1]);
    }
}

// The byte of two digits.
fn byte_of(high: u8, low: u8) -> u8 {
    digit_of(high).wrapping_mul(16) | digit_of(low)
}

// A letter's code ends in its number from 1 on, and has a bit that those of 0 to 9 lack.
fn digit_of(digit: u8) -> u8 {
    (digit & 15).wrapping_add((digit >> 6).wrapping_mul(9)) & 15
}
