// Asks the root of the value of a file, so many times: SCHEMA TYPE FILE COUNT.
use super::inputs::{Sample, faultless, number, read_sample};
use anyhow::{Result, bail};
use ssz_chunk::{Chunk, PairHash, ShaPair, ZeroTable};
use ssz_roots::root_of_bytes;

const USAGE: &str = "usage: bench root SCHEMA TYPE FILE COUNT";

// The root of the value that the bytes encode, made so many times.
fn roots<H: PairHash>(sample: &Sample, times: u32, hasher: &mut H) -> Result<Chunk> {
    faultless(sample)?;
    let (schema, id, bytes) = (&sample.schema, sample.id, sample.bytes.as_slice());
    let zeros = ZeroTable::new(hasher);
    let mut root = Chunk::ZERO;
    for _ in 0..times {
        root = root_of_bytes(schema, id, bytes, &zeros, hasher);
    }
    Ok(root)
}

fn say(rt: &HostRuntime, root: &Chunk, pairs: u64) -> Result<()> {
    let (first, last) = (root.0[0], root.0[31]);
    println!(rt; "{first:02x} {last:02x} {pairs}")?;
    Ok(())
}

/// Makes the roots, and says the root's first and last byte and how many pairs were made.
pub fn run(rt: &HostRuntime, words: &[String]) -> Result<()> {
    let [schema, name, file, times] = words else {
        bail!(USAGE);
    };
    let times = number(times)?;
    let sample = read_sample(rt, schema, name, file)?;
    let mut hasher = ShaPair::new();
    let root = roots(&sample, times, &mut hasher);
    drop(sample);
    say(rt, &root?, hasher.count())
}
