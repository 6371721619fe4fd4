//! Rows of the texts of scripts: the module has what it prints for those of its files.
#![tactic(auto)]

pub mod script;
