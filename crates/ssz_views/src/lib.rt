//! Views of values in an arena: typed reads of single parts, with no value made.
//!
//! A `View` lends an arena and a schema and stands for a part of a value. Its steps lead to the
//! parts of that part, its reading calls give its number, boolean, length or selector. No call
//! takes memory.
#![tactic(auto)]

mod view;

pub use view::View;
