//! Parts and edits of values, without their trees.
//!
//! `part` lends the part of a value that a path leads to. `plain_set`, `plain_append`, `plain_pop`
//! and `plain_choose` edit a value in place. Each answers exactly what the definitions of
//! ssz_value's specs say of the whole value, refusals and their order included. A value that an
//! edit refuses, or that finds no memory, is left as it was. No call copies a value: a new part is
//! moved in, and an edit costs the steps of its path.
//!
//! A call goes down the path by `step_lead`, which tells of one step the type of the part and where
//! it lies. `reading` lends what lies there; `changing` goes down the same way and makes the edit
//! of `making` at the end.
#![tactic(auto)]

mod changing;
mod edit;
mod leading;
mod lending;
mod making;
mod plain;
mod reading;
mod runs;

pub use lending::PartRef;
pub use plain::{plain_append, plain_choose, plain_pop, plain_set};
pub use reading::part;
