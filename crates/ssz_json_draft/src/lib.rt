//! Drafts: of the bytes of a JSON text, the value that it may be the text of.
//!
//! A draft is read from the bytes by the type in one pass, and ends at the first byte that the text
//! of no value of the type has there. Digits are not looked at closely, and no clause says that the
//! bytes are its text: whoever takes a draft compares its text with them.
#![tactic(auto)]

mod draft;
mod fault;
mod left;
mod strings;

pub use draft::draft_of;
