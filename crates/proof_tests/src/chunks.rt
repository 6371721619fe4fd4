// The chunks of these tests.
use ssz_chunk::Chunk;

// The chunk whose bytes these digits write, from its first byte on.
pub fn chunk(high: u128, low: u128) -> Chunk {
    let mut bytes = [0; 32];
    bytes[..16].copy_from_slice(&high.to_be_bytes());
    bytes[16..].copy_from_slice(&low.to_be_bytes());
    Chunk(bytes)
}

// A chunk that begins with this byte.
pub fn beginning(first: u8) -> Chunk {
    let mut bytes = [0; 32];
    bytes[0] = first;
    Chunk(bytes)
}
