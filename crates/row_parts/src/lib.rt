//! What the tables of rows have alike: their files, what the words of a row spell, and how bytes
//! are shown.
#![tactic(auto)]

mod literals;
mod showing;
mod spelled;
mod tables;
mod values;

pub use literals::{element_value, option_value, part_value};
pub use showing::{Digits, Shown, digits_of};
pub use spelled::{bytes_of, cut, parted, path_of, type_named};
pub use tables::{Table, read_rows, read_schema_file, read_table};
pub use values::{TypedBytes, encoded_digits, encoding_of, typed_bytes, value_in, value_of};
