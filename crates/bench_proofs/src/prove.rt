// Makes multiproofs of places that lie all over a full tree whose root was asked before:
// DEPTH INDICES PROOFS.
ghost use Rattle.std.specs.Prelude.{◌≤◌, IfOk};
ghost use Rattle.ssz_arena.specs.Content.{IsNodeOf, node_count};

use anyhow::{Context, Result, bail};
use bench_values::inputs::{large_number, number};
use ssz_arena::{Arena, NodeId};
use ssz_chunk::{Chunk, PairHash, ShaPair};
use ssz_gindex::Gindex;
use ssz_prove::prove;
use std::alloc::Global;

const USAGE: &str =
    "usage: bench prove DEPTH INDICES PROOFS, with a depth of at most 24 and some indices";

// From a place to the next one: an odd number that leads all over the tree.
const FAR: u64 = 2_654_435_761;

// How many proofs are made, each of how many places, of a tree of which depth.
#[derive(Clone, Copy)]
struct Job {
    depth: u32,
    count: u64,
    proofs: u64,
    ghost low: { depth ≤ 24 },
}

// A leaf of its own.
fn leaf<H: PairHash>(arena: &mut Arena<H>) -> Result<NodeId>
    ensures node { IfOk result (IsNodeOf arena.new) }
    ensures more { node_count arena.old ≤ node_count arena.new }
{
    arena.reserve(1)?;
    Ok(arena.leaf(Chunk([7; 32])))
}

// A pair of its own.
fn pair<H: PairHash>(arena: &mut Arena<H>, left: NodeId, right: NodeId) -> Result<NodeId>
    requires left { IsNodeOf arena.old left }
    requires right { IsNodeOf arena.old right }
    ensures node { IfOk result (IsNodeOf arena.new) }
    ensures more { node_count arena.old ≤ node_count arena.new }
{
    arena.reserve(1)?;
    Ok(arena.pair(left, right))
}

/// A full tree of this depth, with a node of its own for each leaf and each pair.
pub fn full<H: PairHash>(arena: &mut Arena<H>, depth: u32) -> Result<NodeId>
    ensures node { IfOk result (IsNodeOf arena.new) }
    ensures more { node_count arena.old ≤ node_count arena.new }
{
    if depth == 0 {
        return leaf(arena);
    }
    let left = full(arena, depth - 1)?;
    let right = full(arena, depth - 1)?;
    pair(arena, left, right)
}

/// So many places of a tree of this depth, all over it.
pub fn places(alloc: Global, depth: u32, count: u64, from: u64) -> Result<Vec<Gindex>>
    requires { depth ≤ 24 }
{
    let leaves = 1u64 << depth;
    let mut indices = Vec::new(alloc);
    for i in 0..count {
        let place = from.wrapping_add(i).wrapping_mul(FAR) % leaves;
        let index = Gindex::new(u128::from(leaves + place)).context("not 0")?;
        indices.push(index)?;
    }
    Ok(indices)
}

// How many chunks the proof of these places has.
fn proved<H: PairHash>(
    arena: &mut Arena<H>,
    top: NodeId,
    indices: &[Gindex],
    hasher: &mut H,
) -> Result<usize>
    requires { IsNodeOf arena.old top }
    ensures { IsNodeOf arena.new top }
{
    if indices.is_empty() {
        bail!(USAGE);
    }
    match prove(arena, top, indices, hasher) {
        Ok(proof) => Ok(proof.leaves().len().saturating_add(proof.nodes().len())),
        Err(fault) => bail!("{fault:?}"),
    }
}

// Makes the proofs, and says how many chunks they have.
fn proofs_of<H: PairHash>(
    alloc: Global,
    arena: &mut Arena<H>,
    top: NodeId,
    job: Job,
    hasher: &mut H,
) -> Result<usize>
    requires { IsNodeOf arena.old top }
{
    let mut chunks = 0usize;
    for i in 0..job.proofs {
        let indices = places(alloc, job.depth, job.count, i.wrapping_mul(job.count))?;
        let some = proved(arena, top, indices.as_slice(), hasher)?;
        chunks = chunks.saturating_add(some);
    }
    Ok(chunks)
}

// Makes the tree and the proofs, and says how many chunks those have and how many pairs were hashed
// for them.
fn work(alloc: Global, job: Job) -> Result<(usize, u64)> {
    let mut hasher = ShaPair::new();
    let mut arena = Arena::start(alloc, &mut hasher)?;
    let top = full(&mut arena, job.depth)?;
    arena.root(top, &mut hasher);
    let before = hasher.count();
    let chunks = proofs_of(alloc, &mut arena, top, job, &mut hasher)?;
    Ok((chunks, hasher.count().saturating_sub(before)))
}

/// Does the work of the words, and says what came of it.
pub fn run(rt: &HostRuntime, words: &[String]) -> Result<()> {
    let [depth, count, proofs] = words else {
        bail!(USAGE);
    };
    let depth = number(depth)?;
    if depth > 24 {
        bail!(USAGE);
    }
    let (count, proofs) = (large_number(count)?, large_number(proofs)?);
    let job = Job {
        depth,
        count,
        proofs,
    };
    let (chunks, pairs) = work(rt.alloc(), job)?;
    println!(rt; "{chunks} chunks {pairs} pairs")?;
    Ok(())
}
