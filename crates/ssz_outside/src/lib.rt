//! Files and a sink for printed lines, as the program sees them, each with a count of its faults.
//!
//! `Files` and `Sink` say what every implementation keeps. `MemFiles` and `MemSink` fail at the
//! calls that they are told, `QuietFiles` and `QuietSink` never fail, and `DirFiles` and `OutSink`
//! are the files of the system and a writer of std. `Status` is how a run of the program ends.
//! `say_line` is the job that prints one line, and `Replies` has the replies of a run, each of them
//! printed by `print_line`.
#![tactic(auto)]

mod log;
mod memory;
mod outside;
mod quiet;
mod real;
mod replies;
mod say;
mod status;
mod store;
mod streams;
mod tape;

pub use memory::{MemFiles, MemSink};
pub use outside::{Files, GetFault, Got, PutFault, Sink};
pub use quiet::{QuietFiles, QuietSink};
pub use real::{DirFiles, OutSink};
pub use replies::{Replies, print_line};
pub use say::say_line;
pub use status::Status;
