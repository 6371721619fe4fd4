//! Whether bytes are the encoding of a value of a type, and their first fault where they are none
//! (simple-serialize.md, Deserialization).
//!
//! `check` goes over the bytes once. Where they have a fault, it looks for it again in each list
//! and container that it lies in: over the offsets there, over the fields before it, and over the
//! element that has it. It takes no memory, whatever counts and limits the bytes or the schema
//! claim.
#![tactic(auto)]

mod checking;
mod clean;
mod leaves;
mod plain;
mod sound;

pub use checking::check;
