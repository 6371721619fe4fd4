ghost use Rattle.std.specs.Prelude.{◌≡◌, ◌==◌, length, nat_lt, if◌then◌else◌, None};
ghost use Rattle.std.specs.Result.{result_err};
ghost use Rattle.ssz_bytes.specs.Bytes.{le_number};
ghost use Rattle.ssz_schema.specs.Sizes.{offset_size};
ghost use Rattle.ssz_bytes.specs.Faults.{first_offset, offset_range, offset_order};

use byteorder::{ByteOrder, LittleEndian};
use ssz_bytes::Fault;

/// The offset that these four bytes are.
pub fn read_offset(bytes: &[u8]) -> u32
    requires { length bytes.now ≡ offset_size }
    ensures { result ≡ le_number bytes.now }
{
    LittleEndian::read_u32(bytes)
}

/// Whether the first offset, which stands at the position, is the expected one: the length of all
/// fixed parts. F4 exactly where it is another.
pub fn check_first(found: u32, expected: u32, position: u64) -> Result<(), Fault>
    ensures { result_err result ≡ (if found == expected then None else first_offset position) }
{
    if found != expected {
        return Err(Fault {
            code: Fault::FIRST_OFFSET,
            position,
        });
    }
    Ok(())
}

/// Whether a later offset, which stands at the position, may follow the previous one in a scope of
/// this length. F5 exactly where it is above the length; then F6 exactly where it is below the
/// previous one.
pub fn check_next(found: u32, previous: u32, scope_len: u32, position: u64) -> Result<(), Fault>
    ensures { result_err result ≡ (if nat_lt scope_len found then offset_range position
        else if nat_lt found previous then offset_order position else None) }
{
    if scope_len < found {
        return Err(Fault {
            code: Fault::OFFSET_RANGE,
            position,
        });
    }
    if found < previous {
        return Err(Fault {
            code: Fault::OFFSET_ORDER,
            position,
        });
    }
    Ok(())
}
