//! Values and bytes as nodes of an arena (simple-serialize.md, Merkleization).
//!
//! `build` makes the node of a value, `build_bytes` that of the value which some bytes encode, with
//! no value made, and `build_default` that of the default of a type, whose equal elements share one
//! node. `build_fields` is for a container of which some fields stand at nodes that are there
//! (`specs/Given.antt`). No call hashes: the roots are asked of the arena.
//!
//! Each call first counts how many nodes it makes at most, takes room for them at once, and then
//! makes them without taking memory: after want of memory the arena is as it was. Both are the walk
//! of `ssz_making`: its own count, and the maker `Growing`. What a call adds to an arena is
//! defined in `specs/Added.antt`, how many nodes are made for a value in `ssz_making`, and what is
//! counted for a default in `specs/Shared.antt`. One builder takes nodes one after another and
//! finishes at a depth; a zero part of a full tree is the arena's own zero tree, and so is
//! a zero chunk.
//!
//! A caller that makes more than a value, as an edit does, takes the room for all first
//! (`nodes_needed` or `bytes_needed`, `reserve_nodes`), and then makes the value's node in it
//! (`value_node`, `bytes_node`).
#![tactic(auto)]

mod builder;
mod bytes;
mod defaults;
mod fields;
mod given;
mod growing;
mod leaves;
mod packed;
mod packed_values;
mod room;
mod shared_nodes;
mod values;

pub use bytes::{build_bytes, bytes_needed, bytes_node};
pub use defaults::build_default;
pub use fields::build_fields;
pub use room::reserve_nodes;
pub use values::{build, nodes_needed, value_node};
