// Makes so many pairs by SHA-256: COUNT, or 'sha2 COUNT' for those that sha2 makes of both halves.
use super::inputs::large_number;
use anyhow::{Result, bail};
use sha2::{Digest, Sha256};
use ssz_chunk::{Chunk, PairHash, ShaPair};

const USAGE: &str = "usage: bench pairs COUNT, or bench pairs sha2 COUNT";

// Pairs a chunk with itself, and what comes of it again, so many times.
fn pairs<H: PairHash>(count: u64, hasher: &mut H) -> Chunk {
    let mut chunk = Chunk::ZERO;
    for _ in 0..count {
        chunk = hasher.pair(&chunk, &chunk);
    }
    chunk
}

// The same by the definition of a pair's hash.
fn defined_pairs(count: u64) -> Chunk {
    let mut chunk = Chunk::ZERO;
    for _ in 0..count {
        let hasher = Sha256::new_with_prefix(&chunk.0).chain_update(&chunk.0);
        chunk = Chunk(hasher.finalize());
    }
    chunk
}

// Makes the pairs: how many there are, and the last one.
fn made(words: &[String]) -> Result<(u64, Chunk)> {
    if words.len() == 2 && words[0].as_str() == "sha2" {
        let count = large_number(words[1].as_str())?;
        return Ok((count, defined_pairs(count)));
    }
    let [count] = words else {
        bail!(USAGE);
    };
    let mut hasher = ShaPair::new();
    let chunk = pairs(large_number(count.as_str())?, &mut hasher);
    Ok((hasher.count(), chunk))
}

/// Makes the pairs, and says how many there are and the last one's first byte.
pub fn run(rt: &HostRuntime, words: &[String]) -> Result<()> {
    let (count, chunk) = made(words)?;
    let first = chunk.0[0];
    println!(rt; "{count} {first:02x}")?;
    Ok(())
}
