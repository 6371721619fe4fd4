ghost use Rattle.std.specs.Prelude.{◌≡◌, ◌<◌, ◌^◌, length};
ghost use Rattle.ssz_merkle.specs.Packing.{packed_chunk};
ghost use Rattle.ssz_packing.specs.Bits.{undelimited};
ghost use Rattle.ssz_bytes.specs.Faults.{last_byte};

use ssz_basic::highest_bit;
use ssz_chunk::Chunk;
use ssz_merkle::chunk_at;

/// Chunk i of the bits of a bitlist, without the delimiter, with zeros behind the last one.
pub fn bit_chunk_at(bytes: &[u8], i: usize) -> Chunk
    requires some { 0 < length bytes.now }
    requires delimited { 0 < last_byte bytes.now }
    requires short { length bytes.now < 2 ^ 32 }
    ensures { result.0 ≡ packed_chunk (undelimited bytes.now) i }
{
    let mut chunk = chunk_at(bytes, i);
    let last = bytes.len() - 1;
    if last / 32 == i {
        chunk.0[last % 32] = bytes[last] - (1 << highest_bit(bytes[last]));
    }
    chunk
}
