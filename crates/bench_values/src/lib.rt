//! Works that `bench` times with whole values: their bytes, JSON texts and roots, and pairs,
//! schemas and scripts; and what the works of the other crates are given, too.
#![tactic(auto)]

pub mod codec;
pub mod inputs;
pub mod json;
pub mod pairs;
pub mod paths;
pub mod root;
pub mod schema;
pub mod script;
pub mod slices;
