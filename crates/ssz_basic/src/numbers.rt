ghost use Rattle.std.specs.Prelude.{◌≡◌, ◌≢◌, ◌<◌, ◌^◌, ◌==◌, length, IfOk, ◌∷◌, []};
ghost use Rattle.std.specs.Result.{result_err};
ghost use Rattle.ssz_schema.specs.width.Width.TheVariants.{W256};
ghost use Rattle.ssz_schema.specs.Sizes.{byte_count};
ghost use Rattle.ssz_bytes.specs.Bytes.{le_bytes, le_number};
ghost use Rattle.ssz_bytes.specs.Faults.{bool_fault};

use byteorder::{ByteOrder, LittleEndian};
use ssz_bytes::Fault;
use ssz_schema::Width;

/// Fills the bytes with the encoding of a number of a width up to 128 bits.
pub fn put_uint(width: Width, number: u128, bytes: &mut [u8])
    requires small { width ≢ W256 }
    requires fits { number < 256 ^ byte_count width }
    requires exact { length bytes.old ≡ byte_count width }
    ensures { bytes.new ≡ le_bytes (byte_count width) number }
{
    match width {
        Width::W8 => bytes[0] = number as u8,
        Width::W16 => LittleEndian::write_u16(bytes, number as u16),
        Width::W32 => LittleEndian::write_u32(bytes, number as u32),
        Width::W64 => LittleEndian::write_u64(bytes, number as u64),
        Width::W128 => LittleEndian::write_u128(bytes, number),
        Width::W256 => unreachable!(),
    }
}

/// The number of a width up to 128 bits that the bytes encode.
pub fn read_uint(width: Width, bytes: &[u8]) -> u128
    requires small { width ≢ W256 }
    requires exact { length bytes.now ≡ byte_count width }
    ensures { result ≡ le_number bytes.now }
{
    match width {
        Width::W8 => u128::from(bytes[0]),
        Width::W16 => u128::from(LittleEndian::read_u16(bytes)),
        Width::W32 => u128::from(LittleEndian::read_u32(bytes)),
        Width::W64 => u128::from(LittleEndian::read_u64(bytes)),
        Width::W128 => LittleEndian::read_u128(bytes),
        Width::W256 => unreachable!(),
    }
}

/// The boolean that the byte encodes: 01 is true and 00 is false. F3 at the position exactly for
/// any other byte.
pub fn read_bool(byte: u8, position: u64) -> Result<bool, Fault>
    requires { position < 2 ^ 32 }
    ensures ok { IfOk result (λ flag. flag ≡ (byte == 1)) }
    ensures fault { result_err result ≡ bool_fault position (byte ∷ []) }
{
    if byte > 1 {
        return Err(Fault {
            code: Fault::BAD_BOOL,
            position,
        });
    }
    Ok(byte == 1)
}
