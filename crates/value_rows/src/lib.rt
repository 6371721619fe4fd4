//! Rows of values: their bytes (codec), roots and JSON texts, edits in place (plain), and parts of
//! bytes (slices). Each module has what it prints for those of its files.
#![tactic(auto)]

pub mod codec;
pub mod json_texts;
pub mod plain;
pub mod roots;
pub mod slices;
