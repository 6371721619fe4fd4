//! A container that takes over the fields of another, on the nodes of an arena.
//!
//! `upgrade` answers the node of the new value: each field that is taken stands at the node that it
//! had, and each other is its default. Nothing is hashed: the pairs above the fields and those of
//! the defaults are made without a root. All memory is taken before the first node is made, so that
//! after a refusal the arena has the nodes that it had.
//!
//! `ssz_forms` says which fields are taken, by their names and types (`fields_taken`); `fields`
//! comes down to the nodes of the old fields, and `ssz_tree` makes the node above those that are
//! taken and the defaults (`build_fields`).
#![tactic(auto)]

mod fields;
mod upgrading;

pub use upgrading::upgrade;
