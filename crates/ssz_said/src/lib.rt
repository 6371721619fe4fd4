//! What the arguments of a call of C say, and what an answer says to C.
//!
//! A call ends with a status, which a fault goes with. Texts and bytes spell the names, paths and
//! values of a statement, or why they spell none (`texts`, `statements`); a reply is a value, or
//! the fault of a refusal (`replies`). Proofs are judged: as one line of text (`verdict`), or as
//! the chunks beside one way (`branch`).
#![tactic(auto)]

mod branch;
mod entries;
mod fault;
pub mod json;
pub mod proving;
mod replies;
pub mod statements;
pub mod status;
mod texts;
mod verdict;

pub use branch::judge_branch;
pub use entries::{SszEntry, SszIndex, halves, judge_entries, prove_all};
pub use fault::SszFault;
pub use replies::{encoding_of, gindex_of, len_of, root_of, taken, text_of};
pub use texts::path_of;
pub use verdict::{Verdict, judge};
