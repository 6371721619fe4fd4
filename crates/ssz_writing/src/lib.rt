//! Encodings written, and their lengths told, from the nodes of an arena, with no value made.
//!
//! A `Writer` goes over the nodes once, from left to right: room for an offset stands among the
//! fixed parts, and the offset is written there when its part is about to be appended. Elements are
//! taken one after another from the places of their tree (`elements`), or, where they are
//! containers of few fields, by rows of the nodes of these (`rows`): the fields of many containers
//! are come down to together. The fixed parts of a container whose fields are leaves or have
//! offsets are gathered before they are appended (`heads`).
//!
//! `write_encoding` alone takes memory. Neither call asks anything of the tree of the node that it
//! is handed: what it answers is said of a node that has the tree of a value.
#![tactic(auto)]

mod bytes;
mod containers;
mod elements;
mod heads;
mod leaves;
mod measuring;
mod offsets;
mod rows;
mod writer;

pub use measuring::part_len;
pub use ssz_value::EncodeFault;
pub use writer::write_encoding;
