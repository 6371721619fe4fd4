//! Tests of nodes, versions and upgrades, in a crate of their own: a check of tests proves again
//! the crate that they stand in.
#![tactic(auto)]

#[cfg(test)]
mod arena;
#[cfg(test)]
mod chunks;
#[cfg(test)]
mod compacting;
#[cfg(test)]
mod upgrading;
#[cfg(test)]
mod versions;
