//! The statements of scripts, and the lines that reply to them.
//!
//! A script's bytes are cut into lines (`Lines`), each line into words, and the words are read as
//! a statement (`read_line`); `Statements` does so for a whole script. `reply_text` prints the
//! line of a reply. Which words are a statement is a table in specs/Grammar; what a reply prints
//! is one in specs/Texts. A script is read in one pass, and only what a statement keeps is copied.
#![tactic(auto)]

mod forms;
mod indices;
mod laws;
mod literals;
mod partial;
mod read;
mod reply;
mod statement;
mod statements;
mod texts;

pub use indices::Indices;
pub use laws::replies_are_lines;
pub use literals::is_short;
pub use partial::{PartialStatement, read_partial};
pub use read::read_line;
pub use reply::Reply;
pub use ssz_line::{FileName, Identifier, Index, Line, LineFault, Lines, Steps, read_path};
pub use statement::Statement;
pub use statements::{ScriptStatement, Statements};
pub use texts::{put_reply, reply_text};
