//! Decimal numbers as they stand in scripts, paths and proofs: without a sign and without leading
//! zeros.
#![tactic(auto)]

mod decimal;

pub use decimal::{number, number_of_8_bits, number_of_64_bits};
