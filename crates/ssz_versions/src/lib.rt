//! Versions by writer and name: each a type of a schema and a node of an arena.
//!
//! The entries are a finite map, and each call says which map it leaves. They stand in a balanced
//! tree in the order of writers and names, so a call passes a few entries whatever the names are. A
//! name is kept in its entry, so that after `Versions::reserve` so many more take no memory, nor
//! does one for which a caller has a `Room`.
#![tactic(auto)]

mod adding;
mod balance;
mod compaction;
mod fault;
mod insert;
mod key;
mod pool;
mod raise;
mod remove;
mod room;
mod search;
mod tree;
mod versions;
mod walk;
mod writer;

pub use compaction::compact;
pub use fault::VersionFault;
pub use room::Room;
pub use versions::Versions;
pub use writer::Writer;
