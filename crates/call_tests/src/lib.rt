//! Tests of what the calls of C do: each export of `ssz_c`, on which nothing can stand, takes what
//! its handle holds, asks a function that is called here, and puts it back. The calls themselves
//! are made by the programs of examples/c.
#![tactic(auto)]

#[cfg(test)]
mod branches;
#[cfg(test)]
mod bytes;
#[cfg(test)]
mod editing;
#[cfg(test)]
mod given;
#[cfg(test)]
mod handles;
#[cfg(test)]
mod known_branches;
#[cfg(test)]
mod sessions;
#[cfg(test)]
mod types;
