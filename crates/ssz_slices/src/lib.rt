//! Views into encoded bytes: a part of a value by its path, without decoding or copying
//! (simple-serialize.md, Serialization).
//!
//! A `Slice` lends a schema and the input. `Slice::new` checks the whole input once; from then on
//! a step reads the offsets that it needs and nothing else: to an element of a list the first one,
//! which tells how many there are, its own, and the next; to a field its own and the next, after a
//! sum over the sizes of the fields before it. A contract sees a slice as a `Part`: the type and
//! the value of the part, and where its encoding stands in the input, which `specs/Place.antt`
//! defines by sums of lengths. No call takes memory.
#![tactic(auto)]

mod encoding;
mod held;
mod law;
mod ranges;
mod reading;
mod slice;
mod steps;

pub use encoding::Encoding;
pub use law::places_hold_encodings;
pub use slice::Slice;
