ghost use Rattle.std.specs.Prelude.{◌≡◌};
ghost use Rattle.ssz_value.specs.Trees.{number_chunk};

use ssz_basic::put_uint;
use ssz_chunk::Chunk;
use ssz_schema::Width;

/// The number as a chunk, least significant byte first (simple-serialize.md, Merkleization:
/// mix_in_length, mix_in_selector).
pub fn number_chunk(number: u128) -> Chunk
    ensures { result.0 ≡ number_chunk number }
{
    let mut bytes = [0; 32];
    put_uint(Width::W128, number, &mut bytes[..16]);
    Chunk(bytes)
}
