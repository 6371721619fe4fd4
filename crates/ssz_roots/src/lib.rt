//! Roots of values (simple-serialize.md, Merkleization: hash_tree_root).
//!
//! `root_of_bytes` goes over the bytes of a value, which have no fault, in one pass: packed parts
//! straight from the slice, a row of chunks at a time, and elements of one size eight at a time,
//! so that each step makes eight pairs together. No value is made. `root_of_value` is the root of
//! a value. Both are the walks of `ssz_making`, with the maker `Rooting`: one accumulator for each
//! level of nesting. They count exactly the pairs of the value, and take no memory. The chunks of
//! packed parts are those of `ssz_packing`. Known roots are printed by the program `text_rows`.
#![tactic(auto)]

mod basic;
mod bit_values;
mod bits;
mod bytes;
mod columns;
mod eights;
mod making;
mod packed;
mod pushing;
mod rows;
mod values;

pub use bytes::root_of_bytes;
pub use values::root_of_value;
