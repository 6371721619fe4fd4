// Parts in chunks.
ghost use Rattle.std.specs.Prelude.{◌≡◌, ◌+◌, ◌==◌, ◌<◌, ◌≤◌, nat_lt, length, slice_range, IsSome};
ghost use Rattle.ssz_bytes.specs.Bytes.{le_number};
ghost use Rattle.ssz_schema.specs.Types.{uint, boolean};
ghost use Rattle.ssz_schema.specs.Sizes.{byte_count, basic_size};
ghost use Rattle.ssz_schema.specs.Unfolding.{type_of};
ghost use Rattle.ssz_value.specs.Values.{Fits, FitsWidth};
ghost use Rattle.ssz_value.specs.Encoding.{serialize};
ghost use Rattle.ssz_value.specs.Standing.{value_of};
ghost use Rattle.ssz_value.specs.Trees.{padded};
ghost use Rattle.ssz_schema.specs.Indices.{bit};
ghost use Rattle.ssz_places.specs.Spots.{spot_written};
ghost use Rattle.ssz_partial.specs.Partial.{bytes_in, chunk_changed};
ghost use Rattle.ssz_walk.specs.Found.{spot_of};
ghost use Rattle.ssz_partial.specs.Spots.{IsWithinChunk, SpotSuits};

use super::piece::Piece;
use ssz_basic::{put_uint, read_uint};
use ssz_chunk::Chunk;
use ssz_merkle::chunk_at;
use ssz_schema::{Schema, Ty, TypeId, Width};
use ssz_value::{Value, wide_bytes};
use ssz_walk::Spot;

/// Whether the number that the chunk is lies above i.
pub fn is_above(chunk: &Chunk, i: u64) -> bool
    ensures { result ≡ nat_lt i (le_number chunk.now.0) }
{
    let bytes = wide_bytes(chunk);
    if read_uint(Width::W128, &bytes[16..]) > 0 {
        return true;
    }
    u128::from(i) < read_uint(Width::W128, &bytes[..16])
}

/// Whether the chunk is this number.
pub fn is_number(chunk: &Chunk, number: u8) -> bool
    ensures { result ≡ (le_number chunk.now.0 == number) }
{
    let bytes = wide_bytes(chunk);
    if read_uint(Width::W128, &bytes[16..]) > 0 {
        return false;
    }
    read_uint(Width::W128, &bytes[..16]) == u128::from(number)
}

/// The part of this size at a spot of a chunk.
pub fn piece(size: u8, spot: Spot, chunk: &Chunk) -> Piece
    requires { IsWithinChunk size spot }
    ensures bytes { result.bytes.0 ≡ padded (bytes_in size (spot_of spot) chunk.now.0) }
    ensures len { result.len ≡ size }
{
    match spot {
        Spot::Whole => bytes_at(size, 0, chunk),
        Spot::Byte(at) => bytes_at(size, at, chunk),
        Spot::Bit(at) => {
            let byte = chunk.0[usize::from(at / 8)];
            let bit = [(byte >> (at % 8)) % 2];
            Piece {
                bytes: chunk_at(&bit, 0),
                len: size,
            }
        }
    }
}

// The bytes from a place on.
fn bytes_at(size: u8, at: u8, chunk: &Chunk) -> Piece
    requires { at + size ≤ 32 }
    ensures bytes { result.bytes.0 ≡ padded (slice_range chunk.now.0 at (at + size)) }
    ensures len { result.len ≡ size }
{
    let from = usize::from(at);
    Piece {
        bytes: chunk_at(&chunk.0[from..from + usize::from(size)], 0),
        len: size,
    }
}

/// Writes the value of a basic type at a spot of a chunk.
pub fn write(schema: &Schema, id: TypeId, spot: Spot, value: &Value, chunk: &mut Chunk)
    requires known { id < length schema.now.trees }
    requires fits { Fits (type_of schema.now id) (value_of value.now) }
    requires basic { IsSome (basic_size (type_of schema.now id)) }
    requires suits { SpotSuits (type_of schema.now id) (spot_of spot) }
    ensures { chunk.new.0 ≡ chunk_changed (spot_of spot)
        (serialize (type_of schema.now id) (value_of value.now)) chunk.old.0 }
{
    match schema.ty(id) {
        Ty::Uint(width) => match spot {
            Spot::Whole => write_number(*width, 0, value, chunk),
            Spot::Byte(at) => write_number(*width, usize::from(at), value, chunk),
            Spot::Bit(_) => {}
        },
        Ty::Boolean => match spot {
            Spot::Whole => write_flag(0, value, chunk),
            Spot::Byte(at) => write_flag(usize::from(at), value, chunk),
            Spot::Bit(at) => write_bit(at, value, chunk),
        },
        Ty::Container(_) | Ty::Vector(_, _) | Ty::List(_, _) => {}
        Ty::Bitvector(_) | Ty::Bitlist(_) | Ty::Union(_) => {}
    }
}

fn write_number(width: Width, at: usize, value: &Value, chunk: &mut Chunk)
    requires within { at + byte_count width ≤ 32 }
    requires fits { FitsWidth width (value_of value.now) }
    ensures { chunk.new.0
        ≡ spot_written chunk.old.0 at (serialize (uint width) (value_of value.now)) }
{
    let to = at + width.byte_count() as usize;
    match value {
        Value::Uint(number) => put_uint(width, *number, &mut chunk.0[at..to]),
        Value::Wide(wide) => chunk.0[at..to].copy_from_slice(wide_bytes(wide)),
        _ => {}
    }
}

fn write_flag(at: usize, value: &Value, chunk: &mut Chunk)
    requires within { at + 1 ≤ 32 }
    requires fits { Fits boolean (value_of value.now) }
    ensures { chunk.new.0 ≡ spot_written chunk.old.0 at (serialize boolean (value_of value.now)) }
{
    if let Value::Bool(flag) = value {
        chunk.0[at] = u8::from(*flag);
    }
}

fn write_bit(at: u8, value: &Value, chunk: &mut Chunk)
    requires { Fits boolean (value_of value.now) }
    ensures { chunk.new.0
        ≡ chunk_changed (bit at) (serialize boolean (value_of value.now)) chunk.old.0 }
{
    if let Value::Bool(flag) = value {
        let place = usize::from(at / 8);
        let byte = chunk.0[place];
        let mask = 1u8 << (at % 8);
        let cleared = byte - byte / mask % 2 * mask;
        chunk.0[place] = cleared + u8::from(*flag) * mask;
    }
}
