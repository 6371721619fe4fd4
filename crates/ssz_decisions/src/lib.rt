//! What a statement of a script comes to over shared cached trees, and carrying that out.
//!
//! A `Store` has a schema, an arena of nodes, and what each writer holds under each name. A
//! statement is done in two steps. First it is decided, by one function a statement: what it comes
//! to, over the entries as they stand. All that this changes is that the arena may have more nodes
//! and roots. Then the `Decision` is carried out (`carry_out`). All memory is taken before the
//! first node is made, and before anything else is changed. So each of these functions has one
//! shape of contract (`AnswersRow`): whatever versions of the plain machine the entries stand for,
//! the decision is the machine's row.
//!
//! `compact` alone is done at once, since it gives up nodes. What a weave puts before its lines and
//! gives its writers to begin with is here, too (`push_front`, `adopt_all`).
//!
//! Edits and upgrades of versions, and runs, are in `ssz_engine`: they stand on the crates that
//! edit nodes, and this one beside those.
#![tactic(auto)]

mod adopting;
mod asking;
mod carrying;
mod compaction;
mod counting;
mod decision;
mod fault;
mod fronts;
mod load_form;
mod loading;
mod making;
mod outcome;
mod parts;
mod print_part;
mod proving;
mod refusals;
mod store;
mod ways;

pub use adopting::adopt_all;
pub use asking::{gindex, hashes, root};
pub use carrying::{carry, carry_out, say};
pub use compaction::compact;
pub use counting::len;
pub use decision::Decision;
pub use fault::EngineFault;
pub use fronts::{BASE, push_front};
pub use load_form::Form;
pub use loading::load;
pub use making::{drop, fork, list, lit, new};
pub use outcome::Outcome;
pub use print_part::{bytes, json, save};
pub use proving::prove;
pub use refusals::{code_of_edit, finish};
pub use store::Store;
pub use ways::{Way, way_from};
