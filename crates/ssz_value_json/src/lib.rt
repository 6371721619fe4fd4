//! Values as JSON: one text for each value, both ways.
//!
//! `write_json` appends the text of a value (`ssz_json_text`), `read_json` gives the value whose
//! text some bytes are, or their first fault. A draft of the value is made first
//! (`ssz_json_draft`), and its text compared with the bytes: where white space alone stands behind
//! it, that is the fault. Else the bytes are read anew by `serde_json` and walked by the type to
//! the first fault or a value. A value is answered only where the bytes are its one text.
#![tactic(auto)]

mod count;
mod fault;
mod law;
mod reading;
mod strings;
mod writing;

pub use fault::{JsonFault, JsonRead, JsonWrite};
pub use law::texts_are_exact;
pub use reading::read_json;
pub use ssz_json_text::texts_are_one_line;
pub use writing::write_json;
