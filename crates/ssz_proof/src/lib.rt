//! Merkle multiproofs (merkle-proofs.md, Merkle multiproofs): chunks at some places of a tree, and
//! those from which the root can be calculated together with them.
//!
//! A `Proof` is made of two lists or read from a text, and is then known to be complete: `calc` and
//! `verify` ask nothing more of it. They go down from the root to the chunks that are known, and
//! hash at most as many pairs as the leaves have levels together.
#![tactic(auto)]

mod calculation;
mod entry;
mod fault;
mod laws;
mod places;
mod proof;
mod reading;
mod rows;
mod text;
mod words;

pub use calculation::{calc, verify};
pub use entry::Entry;
pub use fault::ProofFault;
pub use laws::{lists_are_judged, proofs_give_the_root, texts_give_the_proof};
pub use proof::Proof;
pub use reading::read_proof;
pub use text::proof_text;
