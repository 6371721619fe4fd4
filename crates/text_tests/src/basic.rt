ghost use Rattle.std.specs.Prelude.{◌≡◌, length};
ghost use Rattle.ssz_bytes.specs.Bytes.{bits_size};

use ssz_basic::{bit, put_bits, put_uint, read_bitlist, read_bitvector, read_bool, read_uint};
use ssz_bytes::{BitRun, Fault};
use ssz_schema::Width;
use std::alloc::{AllocError, Global};
use std::test::Fail;

#[test]
fn numbers_are_little_endian(rt: HostRuntime) {
    let mut bytes = [0; 16];
    put_uint(Width::W16, 0x0102, &mut bytes[..2]);
    assert!(rt; bytes[0] == 2 && bytes[1] == 1);
    put_uint(Width::W128, 1 << 120, &mut bytes);
    assert!(rt; bytes[15] == 1);
    assert!(rt; read_uint(Width::W32, &[0xaa, 0xbb, 0, 1]) == 0x0100_bbaa);
}

// The one byte of the bits, with a delimiter behind them or without.
fn byte_of(bits: &BitRun, delimiter: bool) -> u8
    requires { bits_size delimiter (length bits.now) ≡ 1 }
{
    let mut bytes = [0; 1];
    put_bits(bits, delimiter, &mut bytes);
    bytes[0]
}

// The bits 1, 0, 1 as a bitvector and as a bitlist.
fn bytes_of_bits(alloc: Global) -> Result<(u8, u8), AllocError> {
    let bits = BitRun::copy_of(alloc, &[true, false, true])?;
    Ok((byte_of(&bits, false), byte_of(&bits, true)))
}

#[test]
fn bits_are_low_first(rt: HostRuntime) -> Result<(), Fail> {
    let (vector, list) = bytes_of_bits(rt.alloc())?;
    assert!(rt; vector == 0x05);
    assert!(rt; list == 0x0d);
    assert!(rt; bit(&[list], 3));
    assert!(rt; read_bitlist(&[list], 3, 0) == Ok(3));
    Ok(())
}

// The code of the fault that is found, and where it lies.
fn found<T: Copy>(read: Result<T, Fault>) -> Option<(u8, u64)> {
    match read {
        Ok(_) => None,
        Err(fault) => Some((fault.code, fault.position)),
    }
}

// Of bits more than their limit, bits without a delimiter, bits in the padding, and a byte that is
// no boolean.
#[test]
fn faults_of_bits(rt: HostRuntime) {
    assert!(rt; found(read_bitlist(&[0x0d], 2, 7)) == Some((8, 7)));
    assert!(rt; found(read_bitlist(&[0xff, 0], 64, 0)) == Some((10, 1)));
    assert!(rt; found(read_bitvector(&[0x10], 4, 0)) == Some((9, 0)));
    assert!(rt; found(read_bitvector(&[0x10], 8, 0)).is_none());
    assert!(rt; found(read_bool(2, 9)) == Some((3, 9)));
}
