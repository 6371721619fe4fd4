//! Statements of scripts over shared cached trees.
//!
//! An `Engine` keeps a store: a schema, an arena of nodes, and what each writer holds under each
//! name. A statement is decided (`decide`), and then the decision is carried out. `ssz_decisions`
//! has both, but for edits and upgrades of versions, which are here.
//!
//! A script is done line by line (`run_script`): each line's reply is made in memory and printed in
//! one piece. Scripts of several writers take turns over the same arena (`weave`). The statements
//! of a `work` are drawn from a number.
#![tactic(auto)]

mod answering;
mod deciding;
mod editing;
mod engine;
mod laws;
mod run;
mod script_line;
mod turns;
mod upgrading;
mod weave;
mod work_run;
mod work_steps;

pub use engine::Engine;
pub use laws::sets_hash_their_way;
pub use ssz_decisions::{EngineFault, Outcome};
