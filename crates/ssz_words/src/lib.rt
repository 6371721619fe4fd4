//! The words of a command line, read by `clap`.
//!
//! `read_words` turns the words into a `Command`, or answers that they are not taken. Which words
//! are taken, and what they ask for, is the definition `command_of` of `specs/Words.antt`. It rests
//! on `clap`'s own definition of a parse, and adds three rules: a root is 64 hexadecimal digits, an
//! order names writers by digits, and a weave has at most ten scripts.
#![tactic(auto)]

mod command_set;
mod commands;
mod faults;
mod laws;
mod names;
mod reading;
mod values;

pub use commands::{
    ClashArgs, Command, PartArgs, PartialArgs, RootArgs, RunArgs, VerifyArgs, WeaveArgs, WorkArgs,
};
pub use faults::WordsFault;
pub use laws::{takes_exactly, takes_plain_words};
pub use names::{FileName, FileNames, Order, PathText, TypeName};
pub use reading::read_words;
