//! Offsets among the fixed parts of an encoding: read, checked, and written where their place was
//! kept.
//!
//! An offset is 4 bytes, little-endian, and counts from the start of the encoding in whose fixed
//! parts it stands.
#![tactic(auto)]

mod checks;
mod patching;

pub use checks::{check_first, check_next, read_offset};
pub use patching::{OffsetWriter, Slot};
