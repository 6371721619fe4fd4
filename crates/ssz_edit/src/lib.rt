//! Edits of values on the nodes of an arena: `set`, `append`, `pop` and `choose`.
//!
//! Each answers the node of the edited value, which shares with the old one all that is beside the
//! way to the part; every earlier node stays as it was. Nothing is hashed: the pairs on the way are
//! made without a root. An edit takes all memory that it needs before it makes a node, so that
//! after a refusal the arena has the nodes that it had.
//!
//! An edit is two calls. The first opens a place: it makes the tests, goes along the path once
//! (ssz_walk), and answers the refusal or where the part is and of what type (`open_part`,
//! `open_end`, `open_choice`). The second puts something there: a value, or the bytes of one, which
//! become nodes with no value made (`Given`; `put_part`, `put_element`, `put_choice`). So a caller
//! reads what it is to put by the type, once no test refuses it; for the option that a `choose`
//! gives a union, its literal is tested and its default made here (`option_fault`, `literal_given`,
//! `option_default`). `set`, `append` and `choose` are both at once.
#![tactic(auto)]

mod choosing;
mod given;
mod leaves;
mod listing;
mod lists;
mod option_given;
mod parts;
mod putting;
mod room;
mod setting;

pub use choosing::{Choice, choose, open_choice, put_choice};
pub use given::{Given, given_of};
pub use listing::{append, open_end, pop};
pub use lists::{ListEnd, Slot, put_element};
pub use option_given::{literal_given, option_default, option_fault};
pub use putting::put_part;
pub use setting::{open_part, set};
