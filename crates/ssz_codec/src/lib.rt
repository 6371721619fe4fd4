//! Values to bytes and back: the encoding of SimpleSerialize.
//!
//! `check`, of ssz_checking, answers the first fault of bytes. `decode` gives the value of bytes
//! that have none. `encoded_len` answers the length of a value's encoding, and `encode` appends the
//! encoding.
#![tactic(auto)]

mod basics;
mod decoding;
mod encoding;
mod fault;
mod measuring;

pub use decoding::decode;
pub use encoding::encode;
pub use fault::DecodeFault;
pub use measuring::encoded_len;
pub use ssz_checking::check;
pub use ssz_value::EncodeFault;
