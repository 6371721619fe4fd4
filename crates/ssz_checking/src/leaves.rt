//! The faults of types that have no parts and more than a length.
ghost use Rattle.std.specs.Prelude.{◌≡◌, ◌+◌, ◌<◌, ◌≤◌, ◌^◌, length};
ghost use Rattle.ssz_schema.specs.Types.{boolean, bitvector};
ghost use Rattle.ssz_value.specs.Faults.{first_fault};

use ssz_basic::{read_bitvector, read_bool};
use ssz_bytes::Fault;
use ssz_parts::length_fault;

pub fn boolean(start: u64, bytes: &[u8]) -> Option<Fault>
    requires { start + length bytes.now < 2 ^ 32 }
    ensures { result ≡ first_fault boolean start bytes.now }
{
    if let Some(fault) = length_fault(1, start, bytes) {
        return Some(fault);
    }
    read_bool(bytes[0], start).err()
}

pub fn bitvector(n: u64, start: u64, bytes: &[u8]) -> Option<Fault>
    requires some { 0 < n }
    requires few { n ≤ 2 ^ 32 }
    requires short { start + length bytes.now < 2 ^ 32 }
    ensures { result ≡ first_fault (bitvector n) start bytes.now }
{
    if let Some(fault) = length_fault((n + 7) / 8, start, bytes) {
        return Some(fault);
    }
    read_bitvector(bytes, n, start).err()
}
