//! Tests of chunks, roots and proofs, in a crate of their own: a check of tests proves again the
//! crate that they stand in.
#![tactic(auto)]

#[cfg(test)]
mod chunk;
#[cfg(test)]
mod chunks;
#[cfg(test)]
mod clash;
#[cfg(test)]
mod merkle;
#[cfg(test)]
mod proof;
#[cfg(test)]
mod prove;
