//! The program over files, a sink and a hasher.
//!
//! `run` is the top call: the words give a task by reading files (`job`, and a file for each
//! further command), and the task gives a line, which is said, or runs scripts (`top`). The main
//! theorem stands on `run`.
#![tactic(auto)]

mod clashes;
mod files;
mod job;
mod laws;
mod line;
mod partials;
mod parts;
mod scripts;
mod stop;
mod top;
mod verifying;
mod weaving;
mod working;

pub use laws::{printed_proofs_are_valid, scripts_print_valid_proofs};
pub use line::Line;
pub use top::run;
