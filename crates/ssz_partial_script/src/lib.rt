//! Scripts for a tree of which a proof knows some nodes.
//!
//! A script reads and sets basic parts of a value, and asks for its root, by `get`, `set` and
//! `root`. What its statements do is a table over the known chunks alone (specs/Statements), what a
//! whole script prints is its job (specs/Plays), and what all of that tells of a value whose tree
//! has the known chunks is a law (specs/Laws). `run_partial` runs a script: `line` reads the next
//! statement, `reply` comes to its reply, and `run` prints it, line after line.
#![tactic(auto)]

mod laws;
mod line;
mod reply;
mod run;

pub use laws::{printed_lines_are_lines, scripts_tell_values};
pub use run::run_partial;
