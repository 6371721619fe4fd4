ghost use Rattle.std.specs.Prelude.{ℕ, ◌≡◌, ◌+◌, ◌*◌, ◌/◌, ◌^◌, ◌<◌, length, map, Some};
ghost use Rattle.std.specs.List.{concat, AllByRecursion};
ghost use Rattle.ssz_schema.specs.Types.{SszType};
ghost use Rattle.ssz_schema.specs.Sizes.{basic_size};
ghost use Rattle.ssz_value.specs.Values.{Fits};
ghost use Rattle.ssz_value.specs.Encoding.{serialize};
ghost use Rattle.ssz_value.specs.Standing.{value_of};
ghost use Rattle.ssz_value.specs.Trees.{padded};
ghost use Rattle.ssz_merkle.specs.Packing.{packed_chunk};
ghost use Rattle.ssz_packing.specs.Elements.{encodings_of};

use super::mixing::number_chunk;
use ssz_chunk::Chunk;
use ssz_value::Value;

/// The encoding of a basic value, a number or a boolean, with zeros behind it.
pub fn basic_chunk(value: &Value) -> Chunk
    ensures { (t : SszType) (size : ℕ) → basic_size t ≡ Some size → Fits t (value_of value.now)
        → result.0 ≡ padded (serialize t (value_of value.now)) }
{
    match value {
        Value::Uint(number) => number_chunk(*number),
        Value::Bool(flag) => number_chunk(u128::from(*flag)),
        Value::Wide(chunk) => *chunk,
        _ => Chunk::ZERO,
    }
}

/// How many chunks so many values of a basic type of this size take.
pub fn chunk_count(size: usize, len: usize) -> usize
    requires size { size * (32 / size) ≡ 32 }
    requires len { len < 2 ^ 63 }
    ensures { result ≡ (len * size + 31) / 32 }
{
    let per = 32 / size;
    (len + (per - 1)) / per
}

/// Chunk i of values of a basic type of this size, packed, with zeros behind the last one.
pub fn values_chunk(size: usize, i: usize, parts: &[Value]) -> Chunk
    requires size { size * (32 / size) ≡ 32 }
    requires within { 32 * i < length parts.now * size }
    ensures { (t : SszType) → basic_size t ≡ Some size
        → AllByRecursion (Fits t) (map value_of parts.now)
        → result.0 ≡ packed_chunk (concat (encodings_of t parts.now)) i }
{
    let rest = &parts[32 / size * i..];
    let mut bytes = [0; 32];
    for k in 0..rest.len().min(32 / size) {
        let part = basic_chunk(&rest[k]);
        bytes[k * size..k * size + size].copy_from_slice(&part.0[..size]);
    }
    Chunk(bytes)
}
