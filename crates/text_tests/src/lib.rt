//! Tests of bytes, numbers, types, schema files and scripts, in a crate of their own: a check of
//! tests proves again the crate that they stand in.
#![tactic(auto)]

#[cfg(test)]
mod basic;
#[cfg(test)]
mod decimal;
#[cfg(test)]
mod offsets;
#[cfg(test)]
mod runs;
#[cfg(test)]
mod schema;
#[cfg(test)]
mod schema_json;
#[cfg(test)]
mod script;
