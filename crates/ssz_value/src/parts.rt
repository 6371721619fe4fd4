ghost use Rattle.std.specs.Prelude.{◌≡◌, ◌<◌, length, slice_get};
ghost use Rattle.ssz_bytes.specs.Bytes.{IsBytes};
ghost use Rattle.ssz_schema.specs.Unfolding.{type_of};
ghost use Rattle.ssz_value.specs.Standing.{is_byte, value_of};
ghost use Rattle.ssz_value.specs.Shapes.{part_count_of, bits_of};

use super::value::Value;
use ssz_bytes::as_bytes;
use ssz_chunk::Chunk;
use ssz_schema::{Schema, Ty, TypeId, Width};

/// Whether it is the type uint8, whose vectors and lists stand as `Bytes`.
pub fn is_byte(schema: &Schema, id: TypeId) -> bool
    requires { id < length schema.now.trees }
    ensures { result ≡ is_byte (type_of schema.now id) }
{
    match schema.ty(id) {
        Ty::Uint(width) => match width {
            Width::W8 => true,
            _ => false,
        },
        _ => false,
    }
}

/// The option of this number: None past the last one, `Some(None)` where the option is None.
pub fn option_at(options: &[Option<TypeId>], selector: u8) -> Option<Option<TypeId>>
    ensures { result ≡ slice_get options.now selector }
{
    options.get(usize::from(selector)).copied()
}

/// The 32 bytes of a uint256, least significant first.
pub fn wide_bytes(chunk: &Chunk) -> &[u8]
    ensures value { result.now ≡ chunk.now.0 }
    ensures count { length chunk.now.0 ≡ 32 }
    ensures bytes { IsBytes chunk.now.0 }
{
    as_bytes(chunk.0.as_slice())
}

/// How many parts a sequence has, and 0 for any other value.
#[tactic(auto, using(crate::proofs::Sequences::sequence_items))]
pub fn part_count(value: &Value) -> usize
    ensures { result ≡ part_count_of (value_of value.now) }
{
    match value {
        Value::Seq(parts) => parts.len(),
        Value::Bytes(bytes) => bytes.len(),
        _ => 0,
    }
}

/// The bits of a bitvector or bitlist, and none for any other value.
pub fn bits_of(value: &Value) -> &[bool]
    ensures { result.now ≡ bits_of (value_of value.now) }
{
    match value {
        Value::Bits(run) => run.as_slice(),
        _ => &[],
    }
}
