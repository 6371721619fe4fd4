//! Basic values and bits, as they lie in leaves.
ghost use Rattle.std.specs.Prelude.{ℕ, ◌≡◌, ◌≢◌, ◌+◌, ◌*◌, ◌/◌, ◌%◌, ◌<◌, ◌≤◌, ◌^◌, ◌==◌, Some, length, slice_range, slice_index, IfSome, option_map};
ghost use Rattle.ssz_schema.specs.width.Width.TheVariants.{W256};
ghost use Rattle.ssz_schema.specs.Types.{uint};
ghost use Rattle.ssz_schema.specs.Sizes.{byte_count, basic_size};
ghost use Rattle.ssz_schema.specs.Unfolding.{type_of};
ghost use Rattle.ssz_bytes.specs.Bytes.{le_number, bit_value};
ghost use Rattle.ssz_value.specs.Values.{SszValue, Fits};
ghost use Rattle.ssz_value.specs.Encoding.{serialize};
ghost use Rattle.ssz_value.specs.Standing.{value_of};
ghost use Rattle.ssz_nodes.specs.Shown.{basic_type, bit_in};

use ssz_basic::read_uint;
use ssz_chunk::Chunk;
use ssz_schema::{Schema, Ty, TypeId, Width};
use ssz_value::{Value, wide_bytes};

/// A basic type.
#[derive(Clone, Copy)]
pub enum Basic {
    Number(Width),
    Flag,
}

impl Basic {
    /// The type of the schema, if it is basic.
    pub fn of(schema: &Schema, id: TypeId) -> Option<Basic>
        requires { id < length schema.now.trees }
        ensures size { option_map (λ basic. basic_size (basic_type basic)) result
            ≡ option_map Some (basic_size (type_of schema.now id)) }
        ensures form { IfSome result (λ basic. basic_type basic ≡ type_of schema.now id) }
    {
        match schema.ty(id) {
            Ty::Uint(width) => Some(Basic::Number(*width)),
            Ty::Boolean => Some(Basic::Flag),
            _ => None,
        }
    }

    /// The bytes of each of its values.
    pub fn size(self) -> usize
        ensures exact { basic_size (basic_type self) ≡ Some result }
        ensures divides { result * (32 / result) ≡ 32 }
        ensures some { 0 < result }
    {
        match self {
            Basic::Number(width) => width.byte_count() as usize,
            Basic::Flag => 1,
        }
    }

    /// Its value whose encoding begins at this byte of a chunk.
    pub fn value_at(self, chunk: &Chunk, from: usize) -> Value
        requires { IfSome (basic_size (basic_type self)) (λ size. from + size ≤ 32) }
        ensures { (v : SszValue) → Fits (basic_type self) v
            → slice_range chunk.now.0 from (from + length (serialize (basic_type self) v))
            ≡ serialize (basic_type self) v
            → value_of result ≡ v }
    {
        match self {
            Basic::Number(width) => number_at(width, chunk, from),
            Basic::Flag => Value::Bool(chunk.0[from] == 1),
        }
    }
}

// The number of this width whose encoding begins at this byte of a chunk.
fn number_at(width: Width, chunk: &Chunk, from: usize) -> Value
    requires { from + byte_count width ≤ 32 }
    ensures { (v : SszValue) → Fits (uint width) v
        → slice_range chunk.now.0 from (from + length (serialize (uint width) v))
        ≡ serialize (uint width) v
        → value_of result ≡ v }
{
    match width {
        Width::W256 => {
            let _bytes = wide_bytes(chunk);
            Value::Wide(*chunk)
        }
        _ => Value::Uint(number_of(width, chunk, from)),
    }
}

/// The number of this width, up to 128 bits, whose encoding begins at this byte of a chunk.
pub fn number_of(width: Width, chunk: &Chunk, from: usize) -> u128
    requires small { width ≢ W256 }
    requires room { from + byte_count width ≤ 32 }
    ensures { result ≡ le_number (slice_range chunk.now.0 from (from + byte_count width)) }
{
    let size = width.byte_count() as usize;
    read_uint(width, &chunk.0[from..from + size])
}

/// Bit i of a chunk.
pub fn bit_of(chunk: &Chunk, i: usize) -> bool
    requires { i < 256 }
    ensures { result ≡ bit_in chunk.now.0 i }
{
    let byte = chunk.0[i / 8];
    (byte >> (i % 8)) % 2 == 1
}
