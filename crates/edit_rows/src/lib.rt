//! Rows of edits: those of values on nodes (edit), and what an engine replies to scripts (engine).
//! Each module has what it prints for those of its files.
#![tactic(auto)]

pub mod edit;
mod edit_calls;
pub mod engine;
mod engine_weave;
mod engine_world;
