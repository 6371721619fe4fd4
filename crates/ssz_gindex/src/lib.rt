//! Generalized indices: the places of a tree's nodes as numbers (merkle-proofs.md, Generalized
//! Merkle tree index).
//!
//! `Gindex::of_path` is the place of the part that a path names, step by step. `helper_indices` are
//! the nodes that a multiproof of some indices needs beside them, and `are_helpers` compares a list
//! with those. Both walk up the paths to the indices, the greatest node first.
#![tactic(auto)]

mod fault;
mod gindex;
mod helpers;
mod laws;
mod of_path;
mod walk;

pub use fault::HelperFault;
pub use gindex::Gindex;
pub use helpers::{are_helpers, helper_indices};
pub use laws::helpers_are_beside_the_paths;
