//! The schema file: JSON in, a schema out.
//!
//! `serde_json` reads the bytes (S1), the value read is taken apart into definitions (S2), and
//! these are added to an empty schema one after another (S3 to S14). The file's strings move into
//! the definitions; none is copied.
#![tactic(auto)]

mod document;
mod fault;
mod read;

pub use fault::SchemaRead;
pub use read::read_schema;
