//! Chunks of bytes, and the root of a full tree of chunks, made as the chunks come
//! (simple-serialize.md, Merkleization).
//!
//! `chunk_at` is the packing: bytes cut into chunks, the last one padded. An `Accumulator` is the
//! merkleization with a limit: it takes the chunks one after another or whole rows of them, keeps
//! one root for each level, and hashes each pair once. What it keeps, and how many pairs each call
//! hashes, is defined in `specs/Frontier.antt`; that these add up to the pairs of the tree is a law
//! in `specs/Laws.antt`. No call takes memory.
#![tactic(auto)]

mod accumulator;
mod laws;
mod packing;
mod rows;

pub use accumulator::Accumulator;
pub use laws::counts_add_up;
pub use packing::{chunk_at, chunk_of_eight};
pub use rows::row_root;
