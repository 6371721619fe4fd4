//! Whether two types of a schema are equal as trees (simple-serialize.md, Typing): the same form of
//! the same parts, whatever the names of the definitions. Field names and limits do count.
//!
//! `same_type` compares two types and keeps each answer on the way, so that no two types are
//! compared twice: types that are used again and again are walked once.
//!
//! On this stands the value of one container that takes over the fields of another, each by its
//! name where the types are equal (specs/Upgrades). `fields_taken` tells which fields are taken,
//! and `plain_upgrade` makes the value.
#![tactic(auto)]

mod forms;
mod law;
mod plain;
mod taking;
mod upgrade_fault;

pub use forms::same_type;
pub use law::same_types_are_equal;
pub use plain::plain_upgrade;
pub use taking::fields_taken;
pub use upgrade_fault::UpgradeFault;
