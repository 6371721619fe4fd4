//! What the calls on types, words, scripts, bytes, JSON texts and values answer, by the rows of
//! data/: a file a subject, and a module of `type_rows`, `script_rows` or `value_rows`.
//!
//! Behind a line with the name of each subject stand the lines of its rows, in their order. What
//! must be printed is stored; the rows themselves need no proof.
#![tactic(auto)]

use anyhow::Result;
use script_rows::script;
use type_rows::{schema, words};
use value_rows::{codec, json_texts, plain, roots, slices};

// The subjects of files with types or words.
fn print_forms(rt: &HostRuntime) -> Result<()> {
    println!(rt; "=== schema")?;
    schema::print_rows(rt)?;
    println!(rt; "=== words")?;
    words::print_rows(rt)?;
    println!(rt; "=== script")?;
    script::print_rows(rt)
}

// The subjects of values.
fn print_values(rt: &HostRuntime) -> Result<()> {
    println!(rt; "=== codec")?;
    codec::print_rows(rt)?;
    println!(rt; "=== roots")?;
    roots::print_rows(rt)?;
    println!(rt; "=== json")?;
    json_texts::print_rows(rt)
}

// The subjects of parts of values.
fn print_parts(rt: &HostRuntime) -> Result<()> {
    println!(rt; "=== plain")?;
    plain::print_rows(rt)?;
    println!(rt; "=== slices")?;
    slices::print_rows(rt)
}

fn main(rt: HostRuntime) -> Result<()> {
    print_forms(&rt)?;
    print_values(&rt)?;
    print_parts(&rt)
}
