//! What the nodes of an arena show of the value whose tree a node has: its leaves, its full trees
//! from left to right, and the numbers that are mixed in.
//!
//! A `Places` goes over the places of a full tree: it comes down to up to 128 of them together, and
//! keeps the subtrees behind these, one for each level at most. A `Row` has all places where they
//! are at most eight, a `FieldRows` those of the fields of containers that stand beside one
//! another, and `node_of_place` comes down to one place from the top.
//!
//! No call asks anything of the tree of the node that it is handed: what it answers is said of a
//! node that has the tree of a value.
#![tactic(auto)]

mod basics;
mod chunks;
mod fields;
mod nodes;
mod places;
mod rows;

pub use basics::{Basic, bit_of, number_of};
pub use chunks::{append_chunks, append_leaf, few_bytes};
pub use fields::FieldRows;
pub use nodes::chunk_of;
pub use places::{Places, Top, node_of_place};
pub use rows::{NEAR, NEAR_DEPTH, Row};
