//! The tour of the library: docs/library.md shows the functions of this crate, subject by subject.
//!
//! The words are the files of a schema, of a value of its type T in bytes, and of a proof of that
//! value's field `a`. Each subject prints a few lines. The value and its root are those of
//! docs/ssz.md, where the root is made by hand.
#![tactic(auto)]

mod answers;
mod nodes;
mod partial;
mod paths;
mod proofs;
mod sample;
mod scripts;
mod slices;
mod values;
mod versions;
mod views;

use crate::sample::{Sample, read_sample, read_types};
use anyhow::{Result, bail};
use std::env;

// The subjects that are about the value.
fn show(rt: &HostRuntime, sample: &Sample, proof: &str) -> Result<()> {
    values::show(rt, sample)?;
    slices::show(rt, sample)?;
    proofs::show(rt, sample, proof)?;
    partial::show(rt, sample, proof)?;
    nodes::show(rt, sample)
}

fn show_all(rt: &HostRuntime, words: &[String]) -> Result<()> {
    let [schema, file, proof] = words else {
        bail!("usage: library_tour SCHEMA FILE PROOF");
    };
    let sample = read_sample(rt, schema, file)?;
    let shown = show(rt, &sample, proof);
    drop(sample);
    shown?;
    scripts::show(rt, schema)
}

fn main(rt: HostRuntime) -> Result<()> {
    let words: Vec<String> = env::args(&rt)?.skip(1).collect(rt.alloc())?;
    show_all(&rt, words.as_slice())
}
