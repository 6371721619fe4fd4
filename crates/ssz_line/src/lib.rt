//! The lines of a script, the words of a line, and what a single word may spell: a name, a file's
//! name, a literal, a number, a path or an index.
//!
//! Lines and words lie in the script and are not copied; what is read from a word has memory of its
//! own, in proportion to its text. The definitions that say which word spells what stand in specs/:
//! `Lines`, `Words` (the words of a line), `Single` and `Paths`.
#![tactic(auto)]

mod collecting;
mod fault;
mod file_name;
mod identifier;
mod index;
mod lines;
mod parts;
mod path;
mod single;
mod so_many;
mod spelled;
mod steps;
mod steps_left;
mod words;

pub use fault::LineFault;
pub use file_name::FileName;
pub use identifier::Identifier;
pub use index::Index;
pub use lines::{Line, Lines};
pub use path::{read_index, read_path};
pub use single::{read_file, read_literal, read_name, read_selector};
pub use so_many::{end, one_word, three_or_four_words, three_words, two_words, word};
pub use steps::Steps;
pub use words::Words;
