//! Chunks of packed values (simple-serialize.md, Merkleization: pack, pack_bits, mix_in_length).
//!
//! A basic value is one chunk; basic values, the bits of a value and the bytes of a bitlist are
//! packed chunk by chunk, each made when it is asked for. A number that stands beside a tree, a
//! length or a selector, is a chunk too. No call takes memory, and none hashes.
#![tactic(auto)]

mod basic;
mod bit_values;
mod bits;
mod mixing;

pub use basic::{basic_chunk, chunk_count, values_chunk};
pub use bit_values::bits_chunk;
pub use bits::bit_chunk_at;
pub use mixing::number_chunk;
