//! The one JSON text of a value: its length, its bytes, and whether some bytes begin with it.
//!
//! `text_len` takes the length with no memory, `append_value` appends the text behind other bytes,
//! and `behind_text` compares bytes with it piece by piece, so that no whole text is held. The
//! members of an object stand in byte order of their names.
#![tactic(auto)]

mod appending;
mod comparing;
mod law;
mod measuring;
mod order;
mod putting;

pub use appending::append_value;
pub use comparing::behind_text;
pub use law::texts_are_one_line;
pub use measuring::text_len;
