//! Bytes and bits: runs of them, the numbers that they are, and the faults of bytes that encode no
//! value. No type is known here.
#![tactic(auto)]

mod fault;
mod law;
mod runs;
mod short;

pub use fault::Fault;
pub use law::{bits_tell_numbers, bytes_tell_numbers};
pub use runs::{BitRun, ByteRun, as_bytes};
