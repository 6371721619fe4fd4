// Reads the script of a file: SCRIPT.
use anyhow::{Result, bail};
use ssz_script::Statements;
use std::alloc::{AllocError, Global};
use std::fs;

const USAGE: &str = "usage: bench script SCRIPT";

// How many statements there are, and the line of the last one.
fn count(alloc: Global, script: &[u8]) -> Result<(u64, u64), AllocError> {
    let mut statements = Statements::new(script);
    let mut total: u64 = 0;
    let mut last: u64 = 0;
    while let Some(next) = statements.next(alloc)? {
        total = total.wrapping_add(1);
        last = next.line;
        drop(next);
    }
    Ok((total, last))
}

/// Reads the script, and says how many statements it has and the last one's line.
pub fn run(rt: &HostRuntime, words: &[String]) -> Result<()> {
    let [path] = words else {
        bail!(USAGE);
    };
    let bytes = fs::read(rt, path)?;
    let (total, last) = count(rt.alloc(), bytes.as_slice())?;
    println!(rt; "{total} {last}")?;
    Ok(())
}
