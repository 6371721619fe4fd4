//! The plain machine: what scripts mean, over whole values.
//!
//! No nodes, no arena and no caches stand here. The definitions of specs/ say, in this order, what
//! the machine remembers, how a statement is refused or accepted, the table of statements with a
//! small definition for each row, a step, whole scripts and scripts that are woven together, the
//! jobs of `run`, `weave` and `work` in the sense of ssz_outside, the edits that `work` draws, and
//! what is so of the numbers that `hashes` prints. The laws about them stand in `laws`.
#![tactic(auto)]

mod laws;
mod place;

pub use laws::{
    all_scripts_print_lines, ledgers_count, lines_are_isolated, lines_leave_others,
    numbers_change_nothing, printed_lines_are_lines, printed_proofs_lead, refused_do_nothing,
    scripts_are_named, scripts_keep_values, statements_change_their_entry, writers_are_isolated,
    writers_are_isolated_so_far,
};
pub use place::Place;
