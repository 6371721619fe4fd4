//! Rows of types (schema) and of command lines (words): each module has what it prints for those of
//! its files.
#![tactic(auto)]

pub mod schema;
pub mod words;
