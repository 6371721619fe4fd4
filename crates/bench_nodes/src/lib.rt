//! Works that `bench` times with nodes: how they are made, read, edited and hashed, and versions.
#![tactic(auto)]

pub mod arena;
pub mod edit;
pub mod finding;
mod nodes;
mod numbers;
pub mod reading;
pub mod tree;
pub mod versions;
