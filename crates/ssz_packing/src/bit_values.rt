ghost use Rattle.std.specs.Prelude.{◌≡◌, ◌*◌, ◌<◌, length, drop};
ghost use Rattle.ssz_bytes.specs.Bytes.{le_bytes, number_of_bits};

use ssz_basic::byte_from;
use ssz_chunk::Chunk;

/// Chunk i of the bits, packed: 256 of them, with zeros behind the last one (simple-serialize.md,
/// Merkleization: pack_bits).
pub fn bits_chunk(bits: &[bool], i: usize) -> Chunk
    requires { 256 * i < length bits.now }
    ensures { result.0 ≡ le_bytes 32 (number_of_bits (drop (256 * i) bits.now)) }
{
    let rest = &bits[256 * i..];
    let mut bytes = [0; 32];
    for j in 0..32 {
        bytes[j] = byte_from(rest, false, 8 * j);
    }
    Chunk(bytes)
}
