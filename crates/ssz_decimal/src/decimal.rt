ghost use Rattle.std.specs.Prelude.{◌≡◌, ◌^◌};
ghost use Rattle.ssz_decimal.specs.Decimal.{digits_below, number_below};

// The number that digits make.
fn digits_value(digits: &[u8]) -> Option<u128>
    ensures { result ≡ digits_below (2 ^ 128) digits.now }
{
    let mut number: u128 = 0;
    for digit in digits {
        if !digit.is_ascii_digit() {
            return None;
        }
        number = number
            .checked_mul(10)?
            .checked_add(u128::from(*digit - b'0'))?;
    }
    Some(number)
}

/// The decimal number below 2^128 that a word is; None where it is none, or has a leading zero.
pub fn number(word: &[u8]) -> Option<u128>
    ensures { result ≡ number_below (2 ^ 128) word.now }
{
    match word {
        [] => None,
        [b'0', _, ..] => None,
        digits => digits_value(digits),
    }
}

/// The decimal number below 2^64 that a word is; None where it is none, or has a leading zero.
pub fn number_of_64_bits(word: &[u8]) -> Option<u64>
    ensures { result ≡ number_below (2 ^ 64) word.now }
{
    u64::try_from(number(word)?).ok()
}

/// The decimal number below 2^8 that a word is; None where it is none, or has a leading zero.
pub fn number_of_8_bits(word: &[u8]) -> Option<u8>
    ensures { result ≡ number_below (2 ^ 8) word.now }
{
    u8::try_from(number(word)?).ok()
}
