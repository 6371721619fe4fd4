//! Does a piece of work so many times, to be timed from outside.
//!
//! `bench WORK WORDS..` does one, as its module says. `bench all FILE` does those of the lines of a
//! file, one after another, with a space between two words: words.txt has each of them with small
//! counts.
#![tactic(auto)]

mod repeats;

use anyhow::{Result, bail};
use bench_nodes::{arena, edit, finding, tree, versions};
use bench_proofs::{loads, partial, prove};
use bench_values::{pairs, root, schema, script, slices};
use std::alloc::{AllocError, Global};
use std::{env, fs};

const USAGE: &str = "usage: bench WORK WORDS.., or bench all FILE, with a work in each line";

// Does the work that the first word names, with the words behind it.
fn work(rt: &HostRuntime, words: &[String]) -> Result<()> {
    let Some((name, words)) = words.split_first() else {
        bail!(USAGE);
    };
    match name.as_str() {
        "arena" => arena::run(rt, words),
        "edit" => edit::run(rt, words),
        "find" => finding::run(rt, words),
        "loads" => loads::run(rt, words),
        "pairs" => pairs::run(rt, words),
        "partial" => partial::run(rt, words),
        "prove" => prove::run(rt, words),
        "codec" | "json" | "reading" => repeats::run(rt, name, words),
        "root" => root::run(rt, words),
        "schema" => schema::run(rt, words),
        "script" => script::run(rt, words),
        "slices" => slices::run(rt, words),
        "tree" => tree::run(rt, words),
        "versions" => versions::run(rt, words),
        _ => bail!(USAGE),
    }
}

fn push_word(words: &mut Vec<String>, word: &str) -> Result<(), AllocError> {
    let word = String::from_str(*words.allocator(), word)?;
    words.push(word)?;
    Ok(())
}

fn words_of(alloc: Global, line: &str) -> Result<Vec<String>, AllocError> {
    let mut words = Vec::new(alloc);
    for word in line.split(' ') {
        push_word(&mut words, word)?;
    }
    Ok(words)
}

// Does the work of each line.
fn all(rt: &HostRuntime, text: &str) -> Result<()> {
    for line in text.lines() {
        let words = words_of(rt.alloc(), line)?;
        let done = work(rt, words.as_slice());
        drop(words);
        done?;
    }
    Ok(())
}

fn run(rt: &HostRuntime, words: &[String]) -> Result<()> {
    if words.len() != 2 || words[0].as_str() != "all" {
        return work(rt, words);
    }
    let text = fs::read_to_string(rt, words[1].as_str())?;
    all(rt, text.as_str())
}

fn main(rt: HostRuntime) -> Result<()> {
    let words: Vec<String> = env::args(&rt)?.skip(1).collect(rt.alloc())?;
    run(&rt, words.as_slice())
}
