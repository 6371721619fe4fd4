//! Values of SimpleSerialize.
//!
//! The definitions of specs/ say, in this order, what a value is and which values a type has, the
//! default of a type, the one encoding of a value and its length, the first fault of bytes and the
//! value that bytes without a fault stand for, the tree of a value and how many pairs its root
//! takes, the laws between these, the parts of a value and its edits, and what a call that writes a
//! value appends. `EncodeFault` is why such a call did not.
#![tactic(auto)]

mod copying;
mod defaulting;
mod edit_fault;
mod encode_fault;
mod fitting;
mod law;
mod parts;
mod path_fault;
mod value;

pub use copying::copy;
pub use defaulting::default_of;
pub use edit_fault::EditFault;
pub use encode_fault::EncodeFault;
pub use fitting::fits;
pub use law::{decoding_is_exact, defaults_are_values, sizes_are_lengths, trees_tell_values};
pub use parts::{bits_of, is_byte, option_at, part_count, wide_bytes};
pub use path_fault::PathFault;
pub use value::{Items, Value};
