ghost use Rattle.std.specs.Prelude.{◌≡◌, ◌+◌, ◌≤◌, length};
ghost use Rattle.ssz_schema.specs.Sizes.{head_size};
ghost use Rattle.ssz_value.specs.Faults.{offset_at};

use ssz_offsets::read_offset;

/// What a part takes among the fixed parts: itself, or an offset of 4 bytes where it is
/// variable-size (size None).
pub fn head_len(size: Option<u64>) -> u64
    ensures { result ≡ head_size size }
{
    match size {
        Some(size) => size,
        None => 4,
    }
}

/// The offset that stands at this place.
pub fn offset_at(bytes: &[u8], place: usize) -> u32
    requires { place + 4 ≤ length bytes.now }
    ensures { result ≡ offset_at bytes.now place }
{
    read_offset(&bytes[place..place + 4])
}
