//! Rows of trees: what is made of values (tree), what is read of nodes (reading), and what trees of
//! proofs answer (partial). Each module has what it prints for those of its files.
#![tactic(auto)]

mod node_text;
pub mod partial;
pub mod reading;
mod reading_parts;
pub mod tree;
