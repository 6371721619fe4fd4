// Loads the chunks at places that lie all over a full tree whose root was asked before, and at
// their helper indices, each by a way of its own from the top, and does nothing else: what a proof
// of these places can hardly do without. DEPTH INDICES TIMES.
ghost use Rattle.std.specs.Prelude.{◌≤◌};
ghost use Rattle.ssz_arena.specs.Content.{IsNodeOf};

use super::prove::{full, places};
use anyhow::{Context, Result, bail};
use bench_values::inputs::{large_number, number};
use ssz_arena::{Arena, NodeId};
use ssz_chunk::{PairHash, ShaPair};
use ssz_gindex::{Gindex, helper_indices};
use std::alloc::Global;

const USAGE: &str = "usage: bench loads DEPTH INDICES TIMES, with a depth of at most 24";

// The first byte of the chunk at an index.
fn load<H: PairHash>(arena: &Arena<H>, top: NodeId, index: Gindex) -> Result<u64>
    requires { IsNodeOf arena.now top }
{
    let node = arena.down(top, index).context("no node")?;
    let chunk = arena.cached(node).context("no root")?;
    Ok(u64::from(chunk.0[0]))
}

// The sum of the first bytes of the chunks at the indices.
fn loads<H: PairHash>(arena: &Arena<H>, top: NodeId, indices: &[Gindex]) -> Result<u64>
    requires { IsNodeOf arena.now top }
{
    let mut sum = 0u64;
    for index in indices {
        sum = sum.wrapping_add(load(arena, top, *index)?);
    }
    Ok(sum)
}

// So many places of a tree of this depth, and their helper indices.
fn known(alloc: Global, depth: u32, count: u64) -> Result<Vec<Gindex>>
    requires { depth ≤ 24 }
{
    let mut indices = places(alloc, depth, count, 0)?;
    match helper_indices(alloc, indices.as_slice()) {
        Ok(helpers) => {
            indices.extend_from_slice(helpers.as_slice())?;
            Ok(indices)
        }
        Err(fault) => bail!("{fault:?}"),
    }
}

// Loads them so many times, and says how many they are and what came of it.
fn work(alloc: Global, depth: u32, count: u64, times: u64) -> Result<(usize, u64)>
    requires { depth ≤ 24 }
{
    let mut hasher = ShaPair::new();
    let mut arena = Arena::start(alloc, &mut hasher)?;
    let top = full(&mut arena, depth)?;
    arena.root(top, &mut hasher);
    let indices = known(alloc, depth, count)?;
    let mut sum = 0u64;
    for _ in 0..times {
        sum = sum.wrapping_add(loads(&arena, top, indices.as_slice())?);
    }
    Ok((indices.len(), sum))
}

/// Does the work of the words, and says what came of it.
pub fn run(rt: &HostRuntime, words: &[String]) -> Result<()> {
    let [depth, count, times] = words else {
        bail!(USAGE);
    };
    let depth = number(depth)?;
    if depth > 24 {
        bail!(USAGE);
    }
    let (chunks, sum) = work(
        rt.alloc(),
        depth,
        large_number(count)?,
        large_number(times)?,
    )?;
    println!(rt; "{chunks} chunks, bytes {sum}")?;
    Ok(())
}
