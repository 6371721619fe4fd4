//! The way along a path, from the node of a value to that of a part.
//!
//! `find` follows a path on nodes and says of what type the part is, at which index its node is,
//! and where in that node it lies; `find_field` does so for one field, by a name that it need not
//! own. `mixed_in` reads what stands beside a length or a selector. No call takes memory or makes a
//! node, and none asks anything of the node's tree: what is answered is said of a node that has the
//! tree of a value.
#![tactic(auto)]

mod field;
mod finding;
mod mixed;
mod place;
mod present;
mod way;

pub use field::find_field;
pub use finding::{find, step_place};
pub use mixed::{mixed_in, mixed_parts};
pub use place::{Place, Spot};
