//! Values read back from the nodes of an arena.
//!
//! The node of a value has its tree, so that the value can be read from it. The call goes over the
//! elements of a list from left to right, and comes down to the fields of a container together
//! where they are at most eight, those of many containers of a list at once, or else to each from
//! the root of all. What a single node shows comes from `ssz_nodes`; `ssz_writing` writes the
//! encoding with no value made.
//!
//! Nothing is asked of the tree of the node that the call is handed: what it answers is said of a
//! node that has the tree of a value.
#![tactic(auto)]

mod packed;
mod reading;

pub use reading::read_value;
