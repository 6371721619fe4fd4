//! Bytes as hexadecimal digits, written where they are to stand: of bytes beside them, or in the
//! memory of the bytes themselves, from the last on.
#![tactic(auto)]

mod digits;

pub use digits::{line_of_digits, put_digits};
