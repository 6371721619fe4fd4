//! The types of SimpleSerialize as they are written and kept: names, widths, forms, sizes, faults.
//!
//! No function here is given a schema. A type's parts are numbers of other types; what these unfold
//! to, which types are legal and how large they are is said in specs/. ssz_schema passes on under
//! its own name what crates above it are to have.
#![tactic(auto)]

mod copying;
mod depth;
mod entry;
mod expr;
mod facts;
mod format;
mod name;
mod name_table;
mod names;
mod order;
mod parts;
mod repeats;
mod schema_fault;
mod ty;
mod type_id;
mod width;

pub use copying::copied_entries;
pub use depth::{depth_is_next_power, depth_of_count};
pub use entry::Entry;
pub use expr::TypeExpr;
pub use facts::{Facts, element_chunks, part_length, size_if_fixed};
pub use format::Format;
pub use name::{Name, is_name};
pub use name_table::NameTable;
pub use names::Names;
pub use order::FieldOrder;
pub use parts::{field_at, field_number, if_below, is_wrong_size, option_at};
pub use repeats::is_at;
pub use schema_fault::{SchemaError, SchemaFault};
pub use ty::Ty;
pub use type_id::TypeId;
pub use width::Width;
