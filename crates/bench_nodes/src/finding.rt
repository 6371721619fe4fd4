// Makes the value of a file into nodes, and so many times finds a part of it by its path and reads
// the number or the length there: SCHEMA TYPE FILE PATH TIMES.
ghost use Rattle.ssz_arena.specs.Content.{IsNodeOf};

use super::nodes::node_of;
use anyhow::{Result, bail};
use bench_values::inputs::{Sample, number, read_sample};
use bench_values::paths::path_of;
use ssz_arena::{Arena, NodeId};
use ssz_chunk::{PairHash, ShaPair};
use ssz_schema::PathStep;
use ssz_views::View;
use std::alloc::Global;

const USAGE: &str = "usage: bench find SCHEMA TYPE FILE PATH TIMES";

// The low half of the number of a part, or its length, or 1 where it has neither.
fn number_of<H: PairHash>(part: &View<'_, H>) -> u64 {
    match part.uint() {
        Some(number) => (number % (1 << 64)) as u64,
        None => part.len().unwrap_or(1),
    }
}

// The sum of what is read, so that each is asked for.
fn finds<H: PairHash>(whole: &View<'_, H>, path: &[PathStep], times: u32) -> Result<u64> {
    let mut sum = 0u64;
    for _ in 0..times {
        match whole.at(path) {
            Ok(part) => sum = sum.wrapping_add(number_of(&part)),
            Err(_) => bail!("no such part"),
        }
    }
    Ok(sum)
}

// The same in the value whose nodes these are.
fn over_nodes<H: PairHash>(
    arena: &Arena<H>,
    sample: &Sample,
    node: NodeId,
    path: &[PathStep],
    times: u32,
) -> Result<u64>
    requires { IsNodeOf arena.now node }
{
    let whole = View::new(arena, &sample.schema, sample.id, node);
    finds(&whole, path, times)
}

// The same in the value of a file.
fn work(alloc: Global, sample: &Sample, path: &[PathStep], times: u32) -> Result<u64> {
    let mut arena = Arena::start(alloc, &mut ShaPair::new())?;
    let node = node_of(&mut arena, sample)?;
    over_nodes(&arena, sample, node, path, times)
}

/// Does the work of the words, and says the sum of what was read.
pub fn run(rt: &HostRuntime, words: &[String]) -> Result<()> {
    let [schema, name, file, path, times] = words else {
        bail!(USAGE);
    };
    let times = number(times)?;
    let path = path_of(rt.alloc(), path)?;
    let sample = read_sample(rt, schema, name, file)?;
    let sum = work(rt.alloc(), &sample, path.as_slice(), times);
    drop(sample);
    println!(rt; "{}", sum?)?;
    Ok(())
}
