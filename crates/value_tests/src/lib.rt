//! Tests of values, their bytes, and the words and paths that lead to their parts, in a crate of
//! their own: a check of tests proves again the crate that they stand in.
#![tactic(auto)]

#[cfg(test)]
mod codec;
#[cfg(test)]
mod forms;
#[cfg(test)]
mod gindex;
#[cfg(test)]
mod line;
#[cfg(test)]
mod types;
#[cfg(test)]
mod value;
