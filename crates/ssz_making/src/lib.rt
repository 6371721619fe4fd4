//! What a value's tree is made into, and the walks that make it (simple-serialize.md,
//! Merkleization: hash_tree_root).
//!
//! `bytes_part` goes over the bytes of a value, which have no fault, in one pass, and `value_part`
//! over a value. What they make says a `Maker`: a root, a node, or a count of nodes. Part by part
//! they ask it for leaves, for rows of parts, and for what is packed.
//!
//! A part is a tree with its pairs and the nodes that are made for it (`specs/Parts.antt`). A maker
//! says by ghost members what it made of one since a moment, so that what follows one another
//! composes; what it is asked for is in `specs/Making.antt`. One maker stands here, since it needs
//! nothing but numbers: `bytes_tally` and `value_tally` count the pairs and the nodes of a value.
//! No call takes memory of its own.
#![tactic(auto)]

mod bytes;
mod counting;
mod maker;
mod repeats;
mod tally;
mod values;

pub use bytes::bytes_part;
pub use counting::{bytes_tally, value_tally};
pub use maker::Maker;
pub use tally::{Tally, pairs_above};
pub use values::value_part;
