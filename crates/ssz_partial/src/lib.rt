//! A tree of which a proof knows some nodes: basic parts of a value are read and set in it, and
//! its root is calculated again, without the rest of the value (merkle-proofs.md, Merkle
//! multiproofs).
//!
//! `Partial::from_proof` keeps the chunks of a proof. `get` and `set` go down a path by the type,
//! and need the node of the part, and where a list or a union is on the way its length or its
//! selector; `Blind` names the first of these nodes that the proof does not know. What is needed
//! and what is answered is defined in `specs/Partial.antt` over the known chunks alone.
#![tactic(auto)]

mod chunks;
mod fault;
mod laws;
mod partial;
mod piece;
mod reaching;
mod types;

pub use fault::PartialFault;
pub use laws::partial_trees_tell_values;
pub use partial::Partial;
pub use piece::Piece;
