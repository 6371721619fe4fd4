//! The schemas of SimpleSerialize: how types are added, and what is read off them.
//!
//! A `Schema` keeps named types, each proved legal when it was added, with its sizes, chunk count,
//! depth and levels at hand. The definitions of types stand in specs/ of ssz_types, those of paths
//! with their generalized indices here; crates above name both as this crate's.
#![tactic(auto)]

mod adding;
mod law;
mod lead;
mod path;
mod reading;
mod schema;
mod walk;

pub use law::{indices_have_levels, legal_types_are_accepted};
pub use lead::Lead;
pub use path::PathStep;
pub use schema::Schema;
pub use ssz_types::{
    Format, Name, Names, SchemaError, SchemaFault, Ty, TypeExpr, TypeId, Width,
    depth_is_next_power, field_at, is_name,
};
