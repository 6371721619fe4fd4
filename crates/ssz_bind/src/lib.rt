//! One step of a definition after another.
//!
//! Nothing here runs: specs/Options and specs/Results say what `◌>>=◌` is, and so the `do` of
//! definitions of other crates. A step that gives nothing, or a fault, ends what it stands in.
#![tactic(auto)]
