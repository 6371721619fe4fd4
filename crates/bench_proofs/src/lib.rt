//! Works that `bench` times with proofs: proofs made of nodes, and trees of which a proof is known.
#![tactic(auto)]

pub mod loads;
pub mod partial;
pub mod prove;
