//! Tests of files and sinks, in a crate of their own: a check of tests proves again the crate that
//! they stand in.
#![tactic(auto)]

#[cfg(test)]
mod halting;
#[cfg(test)]
mod memory;
#[cfg(test)]
mod reading;
#[cfg(test)]
mod system;
