//! Prints what `ssz_tool::run` answers to the runs of the files of data/, over files and a sink in
//! memory: its status, what the sink took, and what was saved.
//!
//! A file of runs begins with what they are; then each run begins with a line
//! `=== HASHER FILES SINK WORDS`: the numbers, from 1, of the call of the files and of the call of
//! the sink that fail, 0 for none, and the words after the program's name. One space stands between
//! two words, or, where the line has tabs, one tab. Its files follow:
//!
//! | Line | Is |
//! |---|---|
//! | `--- NAME` | a file that holds what stands up to the line feed before the next such line |
//! | `--- NAME DIGITS` | one that holds these bytes |
//! | `--- NAME @FILE` | one that holds what this file of data/ holds |
//! | `--- NAME long` | one that is a byte longer than a schema, a script or a proof may be |
//! | `--- NAME ?` | no file; what one of this name holds behind the run is printed |
//!
//! rows/program_rows.py writes the runs and what is to be printed.
#![tactic(auto)]

mod files;

use anyhow::{Result, bail};
use files::{files_of, print_saved};
use ssz_chunk::{PairHash, ShaPair, XorPair};
use ssz_outside::{MemFiles, MemSink};
use ssz_tool::run;
use std::alloc::{AllocError, Global};
use std::{fs, str};

// The files of runs, subject by subject.
const SUBJECTS: [&str; 9] = [
    "known.txt",
    "ethereum.txt",
    "parts.txt",
    "clashes.txt",
    "scripts.txt",
    "weaves.txt",
    "works.txt",
    "partials.txt",
    "faults.txt",
];

// What stands between the words of a line.
fn gap_of(head: &str) -> char {
    if head.contains('\t') { '\t' } else { ' ' }
}

// The words of a run, the program's name first.
fn words_of(alloc: Global, head: &str) -> Result<Vec<String>, AllocError> {
    let mut words = Vec::new(alloc);
    words.push(String::from_str(alloc, "ssz")?)?;
    for word in head.split(gap_of(head)).skip(3) {
        words.push(String::from_str(alloc, word)?)?;
    }
    Ok(words)
}

// The number of the call that is to fail.
fn number_of(word: Option<&str>) -> Result<u64> {
    let Some(word) = word else {
        bail!("a run has two numbers");
    };
    match word.parse() {
        Ok(number) => Ok(number),
        Err(_) => bail!("no number"),
    }
}

fn print_taken(rt: &HostRuntime, status: u8, taken: &[u8]) -> Result<()> {
    let Ok(text) = str::from_utf8(taken) else {
        bail!("no text");
    };
    println!(rt; "=== {status}\n{text}|")?;
    Ok(())
}

// The call alone, so that what it promises is weighed in no other function.
fn status_of<H: PairHash>(
    alloc: Global,
    words: &[String],
    files: &mut MemFiles,
    out: &mut MemSink,
    hasher: &mut H,
) -> u8 {
    run(alloc, words, files, out, hasher) as u8
}

fn print_answer<H: PairHash>(
    rt: &HostRuntime,
    words: &[String],
    files: &mut MemFiles,
    puts: u64,
    hasher: &mut H,
) -> Result<()> {
    let mut out = MemSink::new(rt.alloc(), &[puts])?;
    let status = status_of(rt.alloc(), words, files, &mut out, hasher);
    print_taken(rt, status, out.taken())
}

// Prints the answer to the words of a line.
fn print_head(rt: &HostRuntime, head: &str, files: &mut MemFiles) -> Result<()> {
    let mut fields = head.split(gap_of(head));
    let hasher = fields.next();
    let puts = number_of(fields.nth(1))?;
    let words = words_of(rt.alloc(), head)?;
    match hasher {
        Some("sha") => print_answer(rt, &words, files, puts, &mut ShaPair::new()),
        Some("xor") => print_answer(rt, &words, files, puts, &mut XorPair::new()),
        _ => bail!("no such hasher"),
    }
}

fn print_run(rt: &HostRuntime, text: &str) -> Result<()> {
    let (head, texts) = text.split_once("\n--- ").unwrap_or((text, ""));
    let fails = number_of(head.split(gap_of(head)).nth(1))?;
    let mut files = files_of(rt, fails, texts)?;
    print_head(rt, head, &mut files)?;
    print_saved(rt, &files, texts)
}

fn print_subject(rt: &HostRuntime, name: &str) -> Result<()> {
    let text = fs::read_to_string(rt, name)?;
    println!(rt; "# {name}")?;
    for run in text.as_str().split("\n=== ").skip(1) {
        print_run(rt, run)?;
    }
    Ok(())
}

fn main(rt: HostRuntime) -> Result<()> {
    for name in SUBJECTS {
        print_subject(&rt, name)?;
    }
    Ok(())
}
