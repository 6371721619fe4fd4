//! Prints what the calls on nodes answer for the rows of data/, one subject after another: what is
//! made of values (tree), read of nodes (reading) and edited on them (edit), what trees of proofs
//! answer (partial), and what an engine replies to scripts (engine).
//!
//! A line with the subject's name stands before its lines; the crates `tree_rows` and `edit_rows`
//! have a module for each. rows/node_rows.py makes the rows and what must be printed for them, by
//! hashlib of Python and the rules of simple-serialize.md and merkle-proofs.md alone. The stored
//! run compares, so that the rows need no proof.
#![tactic(auto)]

use anyhow::Result;
use edit_rows::{edit, engine};
use tree_rows::{partial, reading, tree};

// The subjects of the nodes of values.
fn print_nodes(rt: &HostRuntime) -> Result<()> {
    println!(rt; "tree")?;
    tree::print_subject(rt)?;
    println!(rt; "reading")?;
    reading::print_subject(rt)?;
    println!(rt; "edit")?;
    edit::print_subject(rt)
}

// The subjects that stand on these.
fn print_uses(rt: &HostRuntime) -> Result<()> {
    println!(rt; "partial")?;
    partial::print_subject(rt)?;
    println!(rt; "engine")?;
    engine::print_subject(rt)
}

fn main(rt: HostRuntime) -> Result<()> {
    print_nodes(&rt)?;
    print_uses(&rt)
}
