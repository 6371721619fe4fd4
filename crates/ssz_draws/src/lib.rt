//! The edits that the command `work` draws from a number: a generator of numbers, and a walk from
//! the node of a value to an edit of one of its parts.
//!
//! `Generator` draws numbers. `Generator::walk` goes from part to part, at each by a `Turn`: on to
//! a part of the part, or to the edit, which is then written as a statement. Only nodes are read,
//! one length or selector at a step, and no value is made of them. `new_w` and `root_w` are the
//! statements of a work that are not drawn.
#![tactic(auto)]

mod beside;
mod generator;
mod turn;
mod turns;
mod walking;

pub use beside::{new_w, root_w};
pub use generator::Generator;
pub use walking::worked;
