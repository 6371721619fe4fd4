//! Collisions from two multiproofs: where two proofs of the same places lead to one root though
//! their leaves differ, two unlike pairs of chunks give the same.
//!
//! `clash` goes down both proofs side by side, calculates each chunk once, and names the first such
//! place.
#![tactic(auto)]

mod comparing;
mod fault;
mod finding;
mod places;
mod walk;

pub use comparing::clash;
pub use fault::ClashFault;
pub use finding::Clash;
