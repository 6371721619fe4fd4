//! A schema whose types have numbers, and what is asked of the bytes of a type by its number.
//!
//! A type gets a number when its name is asked for (`naming`). Bytes are checked and hashed, their
//! parts found and shown where they stand (`calls`), their JSON text is made, and bytes of a text
//! (`texts`). Bytes from which many parts are asked are checked once (`slices`). A type tells its
//! size, its form and its limit (`calls`, `forms`), its name (`names`), the names of its fields
//! (`naming_fields`), and the types that it is made of (`naming_parts`). Each call answers what
//! there is, or a fault as C reads it.
#![tactic(auto)]

pub mod calls;
mod checked_bytes;
pub mod forms;
mod law;
mod library;
pub mod names;
mod naming;
pub mod naming_fields;
mod naming_parts;
mod slices;
pub mod texts;

pub use calls::SszStretch;
pub use checked_bytes::CheckedBytes;
pub use law::slices_answer_as_bytes;
pub use library::{Library, SharedSchema};
pub use naming::read_types;
