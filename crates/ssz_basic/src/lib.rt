//! Numbers, booleans and bits as bytes: the basic values of SimpleSerialize, written and read.
//!
//! Bytes are little-endian, and bit i of a run of bits is bit i mod 8 of byte i / 8. The readers
//! answer the faults F3, F8, F9 and F10 of a scope whose bytes they are handed.
#![tactic(auto)]

mod bits;
mod numbers;

pub use bits::{bit, bitlist_len, byte_from, highest_bit, put_bits, read_bitlist, read_bitvector};
pub use numbers::{put_uint, read_bool, read_uint};
